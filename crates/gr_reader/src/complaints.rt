//! Complaints: what is wrong with a text that can be read, in the order of the text.
ghost use Rattle.std.specs.Prelude.{◌≡◌, ◌-◌, length};
ghost use Rattle.gr_reader.specs.Complaints.{noted, refusal_at};
ghost use Rattle.gr_reader.specs.Places.{place_of_token as token_place};
ghost use Rattle.gr_text.specs.Limits.{IsShort};

use crate::places::place_of_token;
use gr_text::Place;
use gr_tokens::{ReadRefusal, Token};
use std::marker::Model;

/// What is wrong with a text that can be read.
#[derive(Clone, Copy, Debug, PartialEq, Eq)]
pub enum Fault {
    /// An attribute stands a second time.
    Duplicate,
    /// One class too many.
    TooManyClasses,
    /// A word or a lemma is empty.
    EmptyWord,
    /// An entry has too many literals.
    EntryLiterals,
    /// A variable stands in an input.
    Variable,
    /// An input has too many literals.
    InputLiterals,
    /// One input too many.
    TooManyInputs,
}

/// A fault, and how many tokens are left at its place, its own among them.
#[derive(Clone, Copy, Debug, PartialEq, Eq)]
pub struct Complaint {
    /// What is wrong.
    pub fault: Fault,
    /// How many tokens are left, counted from the one that is complained of.
    pub left: usize,
}

impl Fault {
    /// The refusal for the fault at a place.
    pub fn at(self, place: Place) -> ReadRefusal
        ensures { result ≡ refusal_at self place }
    {
        match self {
            Fault::Duplicate => ReadRefusal::Duplicate(place),
            Fault::TooManyClasses => ReadRefusal::TooManyClasses(place),
            Fault::EmptyWord => ReadRefusal::EmptyWord(place),
            Fault::EntryLiterals => ReadRefusal::EntryLiterals(place),
            Fault::Variable => ReadRefusal::Variable(place),
            Fault::InputLiterals => ReadRefusal::InputLiterals(place),
            Fault::TooManyInputs => ReadRefusal::TooManyInputs(place),
        }
    }
}

impl Complaint {
    /// The refusal for a complaint of these tokens, at the place of its token.
    pub fn refusal(self, bytes: &[u8], tokens: &[Token]) -> ReadRefusal
        requires { IsShort bytes.now }
        ensures { result ≡ refusal_at self.fault (token_place bytes.now tokens.now (length tokens.now - self.left)) }
    {
        let place = place_of_token(bytes, tokens, tokens.len().saturating_sub(self.left));
        self.fault.at(place)
    }
}

/// Keeps the first complaint, in the order of the text.
#[derive(Drop)]
pub struct Complaints {
    first: Option<Complaint>,
}

impl Model for Complaints {
    ghost use Rattle.std.specs.Prelude.{Option};
    ghost use Rattle.gr_reader.specs.declared.complaints.Complaint.{Complaint as Noted};

    ghost Value = { Option Noted };

    ghost view = { λ c. c.first };
}

impl Complaints {
    /// No complaint.
    pub fn new() -> Complaints
        ensures { result ≡ None }
    {
        Complaints { first: None }
    }

    /// Notes a complaint. Of two the one that stands first in the text is kept.
    pub fn note(&mut self, complaint: Complaint)
        ensures { self.new ≡ noted self.old complaint }
    {
        match self.first {
            None => {
                self.first = Some(complaint);
            }
            Some(before) => {
                if before.left < complaint.left {
                    self.first = Some(complaint);
                }
            }
        }
    }

    /// The first complaint.
    pub fn first(&self) -> Option<Complaint>
        ensures { result ≡ self.now }
    {
        self.first
    }
}
