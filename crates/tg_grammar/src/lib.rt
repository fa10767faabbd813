//! Grammars: classes whose trees are all well formed, by marks and categories of nodes.
//!
//! # What it does
//!
//! [`Grammar::check`] tests all trees of all classes, and answers the grammar, or the first refusal: of
//! the first class that has a tree which isn't well formed, the first such tree, with the lowest code
//! of what is wrong with it. [`first_flaw`] is the test of one tree. It looks at each node once, and
//! takes no memory.
//!
//! # Model
//!
//! - `specs/Marks` says what the lists of a node say: the name that is its category, its mark, and
//!   which nodes of a tree have a mark. The crates above stand on these words too.
//! - `specs/NamedMarks` says which trees have names alone as marks (`HasNamedMarks`), and `specs/Spots`
//!   what a node is for derivations: a substitution node, a site, or neither (`spot_of` with the
//!   category, `kind_of` without). A category that is a variable is a category, so such a node is a
//!   site. It also has the category of the root, and which trees are auxiliary.
//! - `specs/Shapes` has all that may be wrong with a tree (`HasFlaw`), as relations on its forest of
//!   nodes: its root, its nodes, its leaves and its inner nodes. A tree is well formed where none of
//!   them holds, and its first flaw is that of the lowest code.
//! - `specs/Grammars` says which classes are a grammar (`IsGrammar`), and what the first refusal of
//!   others is (`IsFirstRefusal`).
//! - `specs/Facts` has what is used of a well-formed tree (`HasGoodShape`).
//! - `specs/Surveys` and `specs/Places` say what the pass over a tree notes, and what the look-up by
//!   name keeps. No public contract speaks of them but by `number_of`, the number of a name if there
//!   is one.
//!
//! A [`Grammar`] is seen as the list of its classes, which are those that were handed in.
//!
//! # What the crates above can rely on
//!
//! - Each class that a grammar lends has well-formed trees. [`Grammar::class`] finds the first class of
//!   a name without going through the others.
//! - [`mark_of`], [`has_mark`] and [`category_name`] answer exactly by a node's lists. [`anchor`] gives
//!   the one anchor of a well-formed tree, [`foot`] its one foot or `None` where it is initial, and
//!   [`root_category`] the name of its root's category.
//! - [`kind_of`] tells what a node is for derivations, [`has_category`] whether it has a category, and
//!   [`is_auxiliary`] whether a tree has a foot, each exactly, of any tree.
//! - [`has_named_marks`] and [`marks_are_named`] decide whether no mark is a variable.
//! - [`laws`]: a tree is well formed just where it has a good shape: the marks `subst`, `foot`,
//!   `anchor`, `coanchor` and `lex` stand just at leaves, one is an anchor, at most one a foot, and the
//!   categories of the root, of substitution nodes and of feet are names. The nodes of a tree of the
//!   code are those of its forest. Classes have at most one first refusal, and a grammar has none.
//!
//! A value of `mark` that is a variable or another name is no mark. Trees of a metagrammar or of
//! grammar text have none such, but a tree that is made by hand may. What a tree's terms are equated
//! with later may then make a mark of the variable; so the layers that put trees together ask for trees
//! with named marks.
//!
//! # How
//!
//! A node has children just where the next one in preorder stands under it. So one pass tells leaves
//! from inner nodes, counts anchors and feet, and keeps the lowest code of what is wrong with single
//! nodes; the codes of the root and of the two counts are compared with it at the end.
#![tactic(auto)]

mod facts;
mod flaw;
mod grammar;
pub mod laws;
mod marks;
mod named;
mod refusal;
mod spots;
mod survey;

pub use facts::{anchor, foot, root_category};
pub use flaw::Flaw;
pub use gr_base::Memory;
pub use grammar::Grammar;
pub use marks::{Mark, category_name, has_mark, mark_of};
pub use named::{has_named_marks, marks_are_named};
pub use refusal::GrammarRefusal;
pub use spots::{Kind, has_category, is_auxiliary, kind_of};
pub use survey::first_flaw;
