//! Keeps the first complaint of an entry that was found, and makes the entry of it.
ghost use Rattle.std.specs.Prelude.{◌≡◌, ◌<◌, ◌↔◌, ◌⊎◌, ℕ, List, [], ◌∷◌, ◌++◌, length, map, IsTrue, IfOk, OnOk};
ghost use Rattle.gr_base.specs.Lists.{IsAmong, NoneTwice};
ghost use Rattle.gr_reader.specs.Complaints.{all_noted};
ghost use Rattle.gr_feats.specs.Complaints.{complaint_at, complaint_if};
ghost use Rattle.lx_lexicon.specs.Complaints.{lemma_bad, coanchor_bad, coanchors_bad, entry_bad};
ghost use Rattle.lx_lexicon.specs.Entries.{IsEntry};
ghost use Rattle.lx_lexicon.specs.Grammars.{WrittenName, WrittenCoanchor, WrittenEntry};
ghost use Rattle.lx_lexicon.specs.Reading.{IsNamed, IsCoanchor, AreCoanchors, IsFound, HasLemmas, AreMet, co_name_of};

use crate::entry::{CoNames, Entry, LITERAL_LIMIT};
use crate::found::{Body, Coanchor, Found, Named};
use gr_base::{Items, Memory};
use gr_feats::gathered::Gathered;
use gr_reader::complaints::{Complaint, Complaints, Fault};
use gr_symbols::Symbols;
use gr_terms::Sym;
use indexmap::IndexSet;
use std::alloc::Global;
use std::marker::Model;

/// The names of co-anchors that were met, which contracts see as the list of their numbers.
#[derive(Drop)]
struct Met {
    names: IndexSet<u32>,
}

impl Model for Met {
    ghost use Rattle.std.specs.Prelude.{List, ℕ};

    ghost Value = { List ℕ };

    ghost view = { λ m. m.names.keys };
}

impl Met {
    /// No name.
    fn new(alloc: Global) -> Met
        ensures { result ≡ [] }
    {
        Met {
            names: IndexSet::new(alloc),
        }
    }

    /// Adds a name, and says whether it was there already.
    fn add(&mut self, name: Sym) -> Result<bool, Memory>
        ensures known { IfOk result (λ known. IsTrue known ↔ IsAmong self.old name.0) }
        ensures members { OnOk result ((n : ℕ) → (IsAmong self.new n ↔ (IsAmong self.old n ⊎ (n ≡ name.0)))) }
    {
        let new = self.names.insert(name.0)?;
        Ok(!new)
    }
}

/// Notes a complaint where it is one.
fn note_if(is: bool, fault: Fault, left: usize, complaints: &mut Complaints)
    ensures { complaints.new ≡ all_noted complaints.old (complaint_if is fault left) }
{
    if is {
        complaints.note(Complaint { fault, left });
    }
}

/// Notes where an attribute stood a second time.
fn note_again(again: Option<usize>, complaints: &mut Complaints)
    ensures { complaints.new ≡ all_noted complaints.old (complaint_at Fault.Duplicate again) }
{
    if let Some(left) = again {
        complaints.note(Complaint {
            fault: Fault::Duplicate,
            left,
        });
    }
}

/// Notes a lemma that is empty.
fn note_lemma(lemma: Named, symbols: &Symbols, complaints: &mut Complaints)
    requires { lemma.name.0 < length symbols.now }
    ensures noted { (w : WrittenName) → IsNamed symbols.now w lemma
        → complaints.new ≡ all_noted complaints.old (lemma_bad w) }
    ensures distinct { NoneTwice symbols.now }
{
    let is_empty = symbols.text(lemma.name).is_empty();
    note_if(is_empty, Fault::EmptyWord, lemma.left, complaints);
}

/// Notes a co-anchor whose name was met before, or whose lemma is empty.
fn note_coanchor(
    coanchor: Coanchor,
    symbols: &Symbols,
    met: &mut Met,
    complaints: &mut Complaints,
) -> Result<(), Memory>
    requires { coanchor.lemma.name.0 < length symbols.now }
    ensures noted { OnOk result ((before : List WrittenCoanchor) (w : WrittenCoanchor)
        → AreMet symbols.now before met.old → IsCoanchor symbols.now w coanchor
        → complaints.new ≡ all_noted complaints.old (coanchor_bad before w)) }
    ensures met { OnOk result ((before : List WrittenCoanchor) (w : WrittenCoanchor)
        → AreMet symbols.now before met.old → IsCoanchor symbols.now w coanchor
        → AreMet symbols.now (before ++ w ∷ []) met.new) }
{
    let again = met.add(coanchor.name.name)?;
    note_if(again, Fault::Duplicate, coanchor.name.left, complaints);
    note_lemma(coanchor.lemma, symbols, complaints);
    Ok(())
}

/// The co-anchors of an entry. Their complaints are noted.
fn co_names(
    alloc: Global,
    coanchors: &[Coanchor],
    symbols: &Symbols,
    complaints: &mut Complaints,
) -> Result<CoNames, Memory>
    requires { HasLemmas (length symbols.now) coanchors.now }
    ensures names { IfOk result (λ names. names ≡ map co_name_of coanchors.now) }
    ensures noted { OnOk result ((ws : List WrittenCoanchor) → AreCoanchors symbols.now ws coanchors.now
        → complaints.new ≡ all_noted complaints.old (coanchors_bad [] ws)) }
{
    let mut names = Items::new(alloc);
    let mut met = Met::new(alloc);
    'row: for coanchor in coanchors {
        let _noted = note_coanchor(*coanchor, symbols, &mut met, complaints)?;
        let _pushed = names.push((coanchor.name.name, coanchor.lemma.name))?;
    }
    Ok(names)
}

/// The entry of what was found. Its complaints are noted.
pub fn accepted(
    alloc: Global,
    found: Found,
    symbols: &Symbols,
    complaints: &mut Complaints,
) -> Result<Entry, Memory>
    requires lemma { found.head.lemma.name.0 < length symbols.now }
    requires coanchors { HasLemmas (length symbols.now) found.body.coanchors }
    ensures entry { IfOk result (λ e. (texts : List (List ℕ)) (w : WrittenEntry)
        → IsFound texts w found → IsEntry texts w e) }
    ensures noted { OnOk result ((w : WrittenEntry) → IsFound symbols.now w found
        → complaints.new ≡ all_noted complaints.old (entry_bad w)) }
{
    let Found { head, body } = found;
    let Body {
        iface,
        anchor,
        coanchors,
        sem,
    } = body;
    note_if(
        sem.len() > LITERAL_LIMIT,
        Fault::EntryLiterals,
        head.left,
        complaints,
    );
    note_lemma(head.lemma, symbols, complaints);
    note_again(iface.again, complaints);
    note_again(anchor.again, complaints);
    let coanchors = co_names(alloc, coanchors.as_slice(), symbols, complaints)?;
    let Gathered { bag: iface, .. } = iface;
    let Gathered { bag: anchor, .. } = anchor;
    Ok(Entry {
        lemma: head.lemma.name,
        family: head.family,
        iface,
        anchor,
        coanchors,
        sem,
    })
}
