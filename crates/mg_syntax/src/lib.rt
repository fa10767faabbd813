//! The types of a metagrammar, as a plain syntax tree.
//!
//! # Model
//!
//! - A name is its number, a [`Sym`]. No text, no place and no token stands here.
//! - All lists are seen as lists: [`Row`] is the list type of this crate, which may hold the type
//!   that it stands in, and `Syms` that of `gr_terms`. A contract sees each value as it is.
//! - `specs/Names` lists all names that stand in a metagrammar, and says of a table that it has a
//!   text for each.
//! - Nothing is sorted or left out: a [`Bag`] has its pairs in the order of the text, and so have
//!   the lists of a class, a body and a node block.
//!
//! A type leads back to itself at two places: a [`Statement`] may be a group, which is a [`Body`],
//! and a [`NodeBlock`] has [`Kids`], each with a node block of its own.
#![tactic(auto)]

mod block;
mod body;
mod item;
mod row;

pub use block::{Kid, Kids, NodeBlock, Paint, Relate, SynItem, SynItems};
pub use body::{Alternative, Bag, Body, Literal, Literals, Ref, Side, Sides, Statement};
pub use gr_base::Memory;
pub use gr_terms::{Sym, Syms};
pub use item::{Args, Class, Header, Item, Metagrammar};
pub use row::Row;
