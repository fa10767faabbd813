//! A text that is being written, with the variables met so far.
ghost use Rattle.std.specs.Prelude.{◌≡◌, ◌<◌, [], ◌∷◌, ◌++◌, length, OnOk, string_bytes};
ghost use Rattle.gr_terms.specs.Views.{term_of};
ghost use Rattle.td_canon.specs.CanonicalTexts.{IsNamedTerm, text_in};
ghost use Rattle.td_canon.specs.TreeText.{label_text};
ghost use Rattle.td_canon.specs.Writing.{Writes};

use gr_base::Memory;
use gr_symbols::Symbols;
use gr_terms::Term;
use gr_text::push_name;
use indexmap::IndexSet;
use itoa::Buffer;
use std::alloc::Global;
use std::marker::Model;

/// A text so far, and the variables met, in the order of first meeting.
#[derive(Drop)]
pub(crate) struct Draft {
    text: String,
    met: IndexSet<u32>,
}

impl Model for Draft {
    ghost use Rattle.std.specs.Prelude.{string_bytes};
    ghost use Rattle.td_canon.specs.Writing.{Written};

    ghost Value = { Written };

    ghost view = { λ d. record { bytes = string_bytes d.text; met = d.met.keys } };
}

impl Draft {
    /// No text, and no variable met.
    pub(crate) fn new(alloc: Global) -> Draft
        ensures { result ≡ record { bytes = []; met = [] } }
    {
        Draft {
            text: String::new(alloc),
            met: IndexSet::new(alloc),
        }
    }

    /// Appends a text.
    pub(crate) fn push(&mut self, text: &str) -> Result<(), Memory>
        ensures { OnOk result (Writes self.old self.new [] (λ label. text.now)) }
    {
        self.text.push_str(text)?;
        Ok(())
    }

    /// Appends a value: the spelling of a name, or `?` and the number of a variable, which is the
    /// next one where the variable was not met before.
    pub(crate) fn push_value(&mut self, value: Term, symbols: &Symbols) -> Result<(), Memory>
        requires { IsNamedTerm (length symbols.now) value }
        ensures { OnOk result (Writes self.old self.new (term_of value ∷ [])
            (λ label. label_text (text_in symbols.now) (label (term_of value)))) }
    {
        match value {
            Term::Const(name) => push_name(&mut self.text, symbols.text(name)),
            Term::Var(variable) => {
                let (place, _) = self.met.insert_full(variable)?;
                let count = self.met.len();
                prove!(place < count);
                self.text.push_str("?")?;
                self.text.push_str(Buffer::new().format(place + 1))?;
                Ok(())
            }
        }
    }

    /// The whole text.
    pub(crate) fn into_text(self) -> String
        ensures { string_bytes result ≡ self.bytes }
    {
        self.text
    }
}
