//! What a statement of a class says by itself, and how many items it has.
//!
//! # What it does
//!
//! A statement that neither calls nor chooses is a deed: an equation, a `<syn>`, a `<sem>` or an
//! `<iface>` block. [`say`] appends what it says to the facts of an expansion, and [`weight`] counts
//! its items. A call and a group say nothing by themselves and have no items here. [`say_imports`]
//! and [`say_dots`] append which variables of two calls are one.
//!
//! # Model
//!
//! - `specs/Deeds`: how a statement is a deed (`deed_of`). `specs/Blocks`: a node block as a tree, a
//!   head with a forest of kids.
//! - `specs/Weights`: the items of a deed. They are node blocks, colours, pairs, relations (those
//!   between nested blocks too), equations, literals and arguments of literals.
//! - `specs/Sayings`: what a deed says, in order. A block without a name and a literal without a
//!   handle have a variable of their own, which is named by how many items are counted before them.
//!   So a place in the list of items goes along with what is said. `specs/Places` lists these places.
//! - `specs/Fronts`: where memory is wanting, some front of what is to be said was appended to the
//!   old facts (`AddsFront`), and the caller takes it back by their number.
//!
//! # What the crates above can rely on
//!
//! - [`weight`] answers the number exactly where it is at most the bound. It takes no memory and
//!   stops at the first item that is too many.
//! - [`say`] says all that the statement says, in order, for any call and any place from which its
//!   items can be numbered. [`laws::deeds_say_their_facts`] has that a deed's statement says and
//!   weighs what the deed does, and [`laws::places_rise`] that no two of its blocks and literals
//!   have one place.
//!
//! # How
//!
//! A node block is gone through by recursion, as deep as its kids are nested. In `weigh.rt` each
//! function takes the room that is left, and in `blocks.rt` each answers the next place.
#![tactic(auto)]

mod blocks;
mod calls;
pub mod laws;
mod statement;
mod terms;
mod weigh;

pub use calls::{say_dots, say_imports};
pub use statement::say;
pub use weigh::weight;
