//! What may be wrong with a tree.
ghost use Rattle.std.specs.Prelude.{◌≡◌};
ghost use Rattle.tg_grammar.specs.Shapes.{code_of};

/// What may be wrong with a tree, in the order of the codes.
#[derive(Clone, Copy, Debug, PartialEq, Eq)]
pub enum Flaw {
    /// Code 30: the root has no category, or a variable.
    RootCategory,
    /// Code 31: a node of mark `subst` has no category, or a variable.
    SubstCategory,
    /// Code 32: the category of a node of mark `foot` isn't the name that is the root's.
    FootCategory,
    /// Code 33: not just one node has the mark `anchor`.
    AnchorCount,
    /// Code 34: more than one node has the mark `foot`.
    FootCount,
    /// Code 35: a node with children has a mark that belongs to leaves, which are all but `nadj`.
    MarkOnInner,
    /// Code 36: a leaf has no mark that belongs to leaves, or the mark `lex` and no category, a
    /// variable or the empty name.
    NoWord,
}

impl Flaw {
    /// The code of the refusal.
    pub fn code(self) -> u8
        ensures { result ≡ code_of self }
    {
        match self {
            Flaw::RootCategory => 30,
            Flaw::SubstCategory => 31,
            Flaw::FootCategory => 32,
            Flaw::AnchorCount => 33,
            Flaw::FootCount => 34,
            Flaw::MarkOnInner => 35,
            Flaw::NoWord => 36,
        }
    }
}
