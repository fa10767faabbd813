//! Variables of an expansion, and what facts say of them.
use gr_terms::Sym;

/// A variable: what it belongs to and its name there. A call, a node block and a literal are named
/// by how many items are counted before them.
#[derive(Clone, Copy, Debug, PartialEq, Eq, Hash)]
pub struct Variable {
    /// The call, block or literal.
    pub at: u32,
    /// The name there.
    pub local: Local,
}

/// A variable within a call, or the own one of a block or a literal.
#[derive(Clone, Copy, Debug, PartialEq, Eq, Hash)]
pub enum Local {
    /// A variable, by the number of its name.
    Name(u32),
    /// A variable before a dot, and the name behind it.
    Dotted(u32, u32),
    /// The own variable of a node block without a name, or of a literal without a handle.
    Own,
}

/// Where a pair stands.
#[derive(Clone, Copy, Debug, PartialEq, Eq)]
pub enum Place {
    /// Among the category and properties of the variable.
    Own(Variable),
    /// Among its top features.
    Top(Variable),
    /// Among its bottom features.
    Bottom(Variable),
    /// In the interface.
    Interface,
}

/// A value.
#[derive(Clone, Copy, Debug, PartialEq, Eq)]
pub enum Value {
    Variable(Variable),
    Name(Sym),
}
