//! What is refused, and why.
ghost use Rattle.std.specs.Prelude.{◌≡◌};
ghost use Rattle.rl_refusals.specs.Roles.{role_text};

use gr_terms::{Sym, Syms};
use gr_text::Place;
use mg_syntax::Ref;

/// What a file is to a command.
#[derive(Clone, Copy, Debug, PartialEq, Eq)]
pub enum Role {
    Metagrammar,
    Grammar,
    Lexicon,
    Forms,
    Inputs,
}

impl Role {
    /// The word for it in a line.
    pub fn word(self) -> &'static str
        ensures { result.now ≡ role_text self }
    {
        match self {
            Role::Metagrammar => "metagrammar",
            Role::Grammar => "grammar",
            Role::Lexicon => "lexicon",
            Role::Forms => "forms",
            Role::Inputs => "inputs",
        }
    }
}

/// A refusal, with what its line says.
#[derive(Drop)]
pub enum Refusal {
    /// 10: the first place after which no text of the file goes on.
    Syntax(Role, Place),
    /// 11: how many bytes stand before the first that is no part of UTF-8.
    NotUtf8(Role, usize),
    /// 12: more than 1,048,576 bytes.
    TooLong(Role),
    /// 13: a name that no class has.
    UnknownClass(Sym),
    /// 14: classes each of which mentions the next, and the last the first.
    ClassCycle(Syms),
    /// 15: a second class of this name.
    DuplicateClass(Sym),
    /// 16: a variable in a wrong place of the class.
    UndeclaredVariable(Sym, Ref),
    /// 17: a variable of the class that a called class doesn't export.
    NotExported(Sym, Ref),
    /// 18: an attribute for a second time.
    DuplicateAttribute(Role, Place),
    /// 20: an expansion of the class with more than 24 nodes.
    TooManyNodes(Sym),
    /// 21: more than 4,096 classes.
    TooManyClasses(Role),
    /// 24: an expansion of the class with more than 4,096 calls and items.
    TooLarge(Sym),
}
