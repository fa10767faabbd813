//! The first complaint, and the attributes of the list that is read.
ghost use Rattle.std.specs.Prelude.{◌≡◌, ◌==◌, ◌||◌, ℕ, [], IfOk, OnOk, IfErr, MatchResult};
ghost use Rattle.mg_reader.specs.Complaints.{among, again, or_first, too_many};
ghost use Rattle.mg_reader.specs.Reading.{Notes, refusal_of};

use crate::cursor::Stop;
use crate::lexeme::Lexeme;
use gr_terms::Sym;
use gr_text::Place;
use gr_tokens::ReadRefusal;
use indexmap::IndexSet;
use std::alloc::Global;
use std::marker::Model;

/// The most classes of a metagrammar.
pub const CLASS_LIMIT: usize = 4096;

/// What is wrong with a text that can be read.
#[derive(Clone, Copy, Debug, PartialEq, Eq)]
pub enum Complaint {
    /// An attribute stands a second time at this place.
    Duplicate(Place),
    /// The first class that is too many begins at this place.
    TooManyClasses(Place),
}

impl Complaint {
    /// The refusal for the complaint.
    pub fn refusal(self) -> ReadRefusal
        ensures { result ≡ refusal_of self }
    {
        match self {
            Complaint::Duplicate(place) => ReadRefusal::Duplicate(place),
            Complaint::TooManyClasses(place) => ReadRefusal::TooManyClasses(place),
        }
    }
}

/// The attributes of a list, which contracts see as the list of their numbers.
#[derive(Drop)]
pub struct Attributes {
    numbers: IndexSet<u32>,
}

impl Model for Attributes {
    ghost use Rattle.std.specs.Prelude.{List, ℕ};

    ghost Value = { List ℕ };

    ghost view = { λ a. a.numbers.keys };
}

impl Attributes {
    /// No attribute.
    pub fn new(alloc: Global) -> Attributes
        ensures { result ≡ [] }
    {
        Attributes {
            numbers: IndexSet::new(alloc),
        }
    }

    /// Forgets all attributes.
    pub fn clear(&mut self)
        ensures { self.new ≡ [] }
    {
        self.numbers.clear();
    }

    /// Adds an attribute, and says whether it is there already.
    pub fn add(&mut self, name: Sym) -> Result<bool, Stop>
        ensures known { IfOk result (λ known. known ≡ among self.old name.0) }
        ensures added { OnOk result ((a : ℕ) → among self.new a ≡ (among self.old a || (a == name.0))) }
        ensures err { IfErr result (λ e. e ≡ Stop.Memory) }
    {
        let Ok(new) = self.numbers.insert(name.0) else {
            return Err(Stop::Memory);
        };
        Ok(!new)
    }
}

/// The first complaint, where an attribute that is there already is complained of.
pub fn again_at(before: Option<Complaint>, known: bool, key: Lexeme) -> Option<Complaint>
    ensures { result ≡ or_first before (again known key) }
{
    if before.is_none() && known {
        Some(Complaint::Duplicate(key.place))
    } else {
        before
    }
}

/// The first complaint, where the word of a class behind too many others is complained of.
pub fn too_many(before: Option<Complaint>, count: usize, word: Lexeme) -> Option<Complaint>
    ensures { result ≡ or_first before (too_many (count == CLASS_LIMIT) word) }
{
    if before.is_none() && count == CLASS_LIMIT {
        Some(Complaint::TooManyClasses(word.place))
    } else {
        before
    }
}

/// Adds an attribute to those of the list, and complains of it where it is there already.
pub fn note(
    attributes: &mut Attributes,
    complaint: &mut Option<Complaint>,
    key: Lexeme,
) -> Result<(), Stop>
    ensures { MatchResult result (λ u. Notes attributes.old attributes.new complaint.old complaint.new key) (λ e. e ≡ Stop.Memory) }
{
    match attributes.add(key.name) {
        Ok(known) => {
            *complaint = again_at(*complaint, known, key);
            Ok(())
        }
        Err(stop) => Err(stop),
    }
}
