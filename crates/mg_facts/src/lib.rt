//! What an expansion says, and what follows from it.
//!
//! # Model
//!
//! - A [`Variable`] is a pair of what it belongs to and a name there. `specs/Said` has the facts
//!   that an expansion states of its variables (`Said`) and the slots of a variable (`Slot`).
//! - `specs/Meanings` has what follows from a list of facts: which variables are one, as a least
//!   equivalence, the network, when the facts clash, the nodes in search order, and the description
//!   over the variables. `IsDescriptionOf` says what a description in numbers has to be: it says
//!   the same, has no other names, and no more variables and slots than the facts have.
//!
//! # How it works
//!
//! Variables have numbers, by first meeting, and each has three slots (`names`, `fact`,
//! `specs/Numbered`). [`Ledger`] is a store that takes more room as it fills. One ledger takes the
//! network of the facts up to the first that it doesn't agree with, and another an equation for
//! each two variables that are said to be one; both go back with the facts (`stated`,
//! `specs/State`). A description is made in one pass over each of the facts, the standing variables
//! and the nodes, by the first variable of each class (`classes`, `describe`, `specs/Classes`).
//!
//! # What the crates above can rely on
//!
//! [`Facts`] is the list of the facts so far. Each call states one more, [`Facts::keep`] takes the
//! latest ones back, and [`Facts::describe`] tells whether the facts clash, and else describes them.
//! [`laws`] has that facts that don't clash have at most one description over their variables.
#![tactic(auto)]

mod classes;
mod describe;
mod fact;
mod facts;
pub mod laws;
mod ledger;
mod marks;
mod names;
mod stated;
mod variable;

pub use facts::Facts;
pub use gr_base::Memory;
pub use ledger::Ledger;
pub use variable::{Local, Place, Value, Variable};
