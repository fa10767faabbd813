//! Bodies of classes: alternatives of statements, with values, bags and literals.
use crate::block::SynItems;
use crate::row::Row;
use gr_terms::Sym;

/// A variable, or a variable of the call that is bound to another one.
#[derive(Clone, Copy, Debug, PartialEq, Eq)]
pub struct Ref {
    /// The variable before the dot, if there is one.
    pub of: Option<Sym>,
    /// The variable itself.
    pub name: Sym,
}

/// A value.
#[derive(Clone, Copy, Debug, PartialEq, Eq)]
pub enum Side {
    /// A variable.
    Ref(Ref),
    /// A name.
    Name(Sym),
}

/// Values, seen as a list.
pub type Sides = Row<Side>;

/// Attributes with their values, seen as a list of pairs in the order of the text.
pub type Bag = Row<(Sym, Side)>;

/// A literal of flat semantics.
#[derive(Drop)]
pub struct Literal {
    /// The handle, if one is written.
    pub handle: Option<Side>,
    /// The predicate.
    pub pred: Side,
    /// The arguments.
    pub args: Sides,
}

/// Literals, seen as a list.
pub type Literals = Row<Literal>;

/// What an alternative consists of.
#[derive(Drop)]
pub enum Statement {
    /// A group of alternatives of its own.
    Group(Body),
    /// A call of a class.
    Call(Sym),
    /// A call of a class, the second name, that is bound to a variable, the first one.
    Bind(Sym, Sym),
    /// An equation.
    Equation(Ref, Side),
    /// A `<syn>` block.
    Syn(SynItems),
    /// A `<sem>` block.
    Sem(Literals),
    /// An `<iface>` block.
    Iface(Bag),
}

/// Statements that are done in order, seen as a list.
pub type Alternative = Row<Statement>;

/// Alternatives, seen as a list.
pub type Body = Row<Alternative>;
