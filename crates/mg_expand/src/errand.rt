//! What is left of a walk.
use gr_terms::Sym;
use mg_syntax::{Alternative, Statement};

/// What is left to do in a call.
#[derive(Clone, Copy)]
pub enum Work<'a> {
    /// To call these classes, and then to take one of these alternatives.
    Imports(&'a [Sym], &'a [Alternative]),
    /// To take one of these alternatives.
    Choice(&'a [Alternative]),
    /// To do these statements.
    Statements(&'a [Statement]),
}

/// What is left to do in a call, and what comes then.
#[derive(Clone, Copy)]
pub struct Errand<'a> {
    /// The name of the call.
    pub here: u32,
    /// What is left to do in it.
    pub work: Work<'a>,
    /// What comes then: nothing at 0, else the errand that is kept at the place before this one.
    pub behind: usize,
}

/// A choice that has alternatives left.
#[derive(Clone, Copy)]
pub struct Fork<'a> {
    /// The choice among these.
    pub errand: Errand<'a>,
    /// How many errands were kept there.
    pub kept: usize,
    /// How many facts were stated there.
    pub said: usize,
    /// How many items were counted there.
    pub items: u32,
}

/// What a step led to.
#[derive(Clone, Copy)]
pub enum Next<'a> {
    /// To this errand.
    On(Errand<'a>),
    /// To the end of an expansion.
    Done,
    /// To more calls and items than the limit.
    TooLarge,
}
