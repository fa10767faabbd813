//! Names and their numbers: a table that gives each text a number, counted from 0, and finds a
//! text's number and a number's text.
//!
//! Contracts see the table as the list of its texts, text number n at place n. `specs/Numbers` has
//! the words, `proofs/NumberLemmas` the lemmas that callers cite, and `laws` the law that equal
//! numbers are those of equal texts.
#![tactic(auto)]

ghost use Rattle.std.specs.String.{string_bytes};
ghost use Rattle.std.specs.Prelude.{◌≡◌, ◌+◌, ◌<◌, ◌≤◌, [], ◌∷◌, ◌++◌, length, map, OnOk, OnErr, IfOk, MatchOption};
ghost use Rattle.gr_base.specs.Lists.{IsAmong, NoneTwice};
ghost use Rattle.gr_symbols.specs.Numbers.{Names, Grows, first_texts, with_text};

pub use gr_base::Memory;
use gr_terms::Sym;
use indexmap::IndexSet;
use std::alloc::Global;
use std::marker::Model;

pub mod laws;

/// The texts that have the numbers 0 to 9.
const FIRST_TEXTS: [&str; 10] = [
    "cat", "mark", "name", "anchor", "coanchor", "subst", "foot", "lex", "nadj", "",
];

/// The most texts of a table.
const TEXT_LIMIT: usize = 4_294_967_295;

/// The set of these texts, in their order.
fn set_of(alloc: Global, texts: &[&str]) -> Result<IndexSet<String>, Memory>
    requires { NoneTwice (map (λ t. t.now) texts.now) }
    ensures { IfOk result (λ set. map string_bytes set.keys ≡ map (λ t. t.now) texts.now) }
{
    let mut set = IndexSet::new(alloc);
    for text in texts {
        let owned = (*text).to_owned(alloc)?;
        set.insert(owned)?;
    }
    Ok(set)
}

/// The table of names, which contracts see as the list of its texts, in the order of their numbers.
/// It begins with the ten first texts.
#[derive(Drop)]
pub struct Symbols {
    texts: IndexSet<String>,
}

impl Model for Symbols {
    ghost use Rattle.std.specs.Prelude.{◌≤◌, ℕ, List, map, length};
    ghost use Rattle.std.specs.String.{string_bytes};
    ghost use Rattle.gr_base.specs.Lists.{NoneTwice};
    ghost use Rattle.gr_symbols.specs.Numbers.{Grows, first_texts};

    ghost Value = { List (List ℕ) };

    ghost view = { λ s. map string_bytes s.texts.keys };

    ghost invariant = { λ s. NoneTwice (map string_bytes s.texts.keys) × Grows first_texts (map string_bytes s.texts.keys) × (length s.texts.keys ≤ 4294967295) };
}

impl Symbols {
    /// The table of the ten first texts.
    pub fn new(alloc: Global) -> Result<Symbols, Memory>
        ensures { IfOk result (λ s. s ≡ first_texts) }
    {
        Ok(Symbols {
            texts: set_of(alloc, &FIRST_TEXTS)?,
        })
    }

    /// The number of a text, which gets the next number where it is new. Numbers that were given
    /// stay, and without memory the table stays as it was. A text that is there is not copied, so
    /// memory can fail for a new one alone; a new one behind 4,294,967,295 texts, which get no more
    /// numbers, counts as more than there is memory for.
    pub fn intern(&mut self, text: &str) -> Result<Sym, Memory>
        ensures named { IfOk result (λ sym. Names self.new sym.0 text.now) }
        ensures known { OnOk result (IsAmong self.old text.now → self.new ≡ self.old) }
        ensures fresh { OnOk result ((IsAmong self.old text.now → ⊥) → self.new ≡ self.old ++ text.now ∷ []) }
        ensures table { OnOk result (self.new ≡ with_text self.old text.now) }
        ensures grows { OnOk result (Grows self.old self.new) }
        ensures one_more_at_most { length self.new ≤ length self.old + 1 }
        ensures err { OnErr result (self.new ≡ self.old) }
        ensures absent { OnErr result (IsAmong self.old text.now → ⊥) }
        ensures distinct { NoneTwice self.new }
    {
        if let Some(sym) = self.find(text) {
            return Ok(sym);
        }
        let number = self.texts.len();
        if number >= TEXT_LIMIT {
            return Err(Memory);
        }
        let owned = text.to_owned(*self.texts.allocator())?;
        self.texts.insert(owned)?;
        Ok(Sym(number as u32))
    }

    /// The number of a text, or `None` where the table lacks the text. Takes no memory.
    pub fn find(&self, text: &str) -> Option<Sym>
        ensures { MatchOption result (IsAmong self.now text.now → ⊥) (λ sym. Names self.now sym.0 text.now) }
    {
        match self.texts.get_index_of(text) {
            Some(place) => Some(Sym(place as u32)),
            None => None,
        }
    }

    /// The text of a number. No other number has it. Takes no memory.
    pub fn text(&self, sym: Sym) -> &str
        requires { sym.0 < length self.now }
        ensures text { Names self.now sym.0 result.now }
        ensures distinct { NoneTwice self.now }
    {
        self.texts[sym.0 as usize].as_str()
    }

    /// The number of texts. No text stands twice, and the ten first ones stand first.
    pub fn len(&self) -> usize
        ensures len { result ≡ length self.now }
        ensures distinct { NoneTwice self.now }
        ensures first { Grows first_texts self.now }
        ensures few { result ≤ 4294967295 }
    {
        self.texts.len()
    }
}
