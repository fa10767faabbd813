//! Names and cycles of a metagrammar: whether all names in it are bound, and the first refusal
//! where they are not.
//!
//! # What it does
//!
//! [`resolve`] takes a metagrammar as it was read. It answers a [`Resolved`], which lends the same
//! metagrammar and has the valued classes, or a [`ScopeRefusal`] with one of the codes 13 to 17.
//!
//! # Model
//!
//! Contracts see a metagrammar and a [`Resolved`] as the list of items. What they say of it stands
//! in `specs/`:
//!
//! - `Uses`: where variables and classes stand in a body, in the order of its canonical spelling. In
//!   a node block the properties stand before the category, wherever it was written.
//! - `Classes`: a name means the first class of that name. What a class mentions are its imports
//!   and then its calls, in groups too. A class sees the variables that it declares and those that
//!   one of its imports exports. A call variable is one that stands left of a call.
//! - `Cycles`: which names lead to which by mentions, in how many steps, and the names of the
//!   shortest way from a class back to itself.
//! - `Faults`: the rules (`IsScoped`), the faults of an item against them, and the first fault of a
//!   metagrammar (`IsFirstFault`): of the first item that has one, that of the lowest code, and of
//!   the first place in the spelling of the item.
//!
//! # What the crates above can rely on
//!
//! - A refusal of [`resolve`] but want of memory is the first fault, and a [`Resolved`] is the
//!   metagrammar that was handed in and keeps all rules. [`laws::one_answer`] says that each
//!   metagrammar keeps all rules or has a first fault, and not both, and that it has one first fault
//!   at most. So but for want of memory the answer is fixed.
//! - A [`Resolved`] has the first class of each name in a table ([`Resolved::class`]).
//! - A [`Resolved`] keeps `IsScoped`, and both of its calls say so. [`laws::names_are_bound`] has
//!   from it that each class is the first of its name and that what it mentions is there, and
//!   [`laws::mentions_have_depths`] that what a class mentions has a lower depth, which is a measure
//!   for going down the calls. Nothing of this is tested again.
//! - Where the rules on variables are kept (`uses`, `exports` and `dots` of `IsScoped`), each
//!   variable that stands alone is seen, each call variable stands left of one call, and what is
//!   read behind a dot is exported by the class that is called.
//!
//! # How
//!
//! Names are looked up in flat tables by their numbers, which forget all their marks in one step.
//! One walk, which keeps its own stack, gives ranks to names, and a class that mentions lower ranks
//! alone is on no cycle. Only another one is searched for a way back, breadth first over the classes
//! that mention a name, and then it is refused. The exports of a class are sorted. For each of its
//! imports a class marks what is exported, or what it asks for itself, whichever is less. Bodies and
//! node blocks are gone through by recursion, as deep as they are nested.
#![tactic(auto)]

mod callers;
mod check;
mod cycles;
mod directory;
pub mod laws;
mod names;
mod places;
mod ranks;
mod refusal;
mod resolved;
mod table;
mod uses;
mod variables;

pub use gr_base::Memory;
pub use refusal::ScopeRefusal;
pub use resolved::{Resolved, resolve};
