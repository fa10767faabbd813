//! The items of a metagrammar.
use crate::body::Body;
use crate::row::Row;
use gr_terms::{Sym, Syms};

/// A class.
#[derive(Drop)]
pub struct Class {
    /// The name of the class.
    pub name: Sym,
    /// The classes that it imports.
    pub imports: Syms,
    /// The variables that it exports.
    pub exports: Syms,
    /// The variables that it declares.
    pub declares: Syms,
    /// What the class says.
    pub body: Body,
}

/// Arguments of a principle, each with its value if it has one, seen as a list of pairs.
pub type Args = Row<(Sym, Option<Sym>)>;

/// A line that is kept and has no effect.
#[derive(Drop)]
pub enum Header {
    /// `type`: a name with its values, or `None` for `!`.
    Domain(Sym, Option<Syms>),
    /// `property`: a name with its type.
    Property(Sym, Sym),
    /// `feature`: a name with its type.
    Feature(Sym, Sym),
    /// `use`: a principle with its arguments and its dimension.
    Principle(Sym, Args, Sym),
}

/// An item of a metagrammar.
#[derive(Drop)]
pub enum Item {
    /// A class.
    Class(Class),
    /// A class that is to be compiled.
    Value(Sym),
    /// A line without effect.
    Header(Header),
}

/// A metagrammar, seen as the list of its items.
pub type Metagrammar = Row<Item>;
