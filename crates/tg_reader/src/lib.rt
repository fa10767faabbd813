//! Reads the canonical text of one tree.
//!
//! # Model
//!
//! `specs/Writable` says which names and trees a text can say (`IsWritableTree`), and which texts are
//! canonical texts of trees (`IsTreeText`): those of any tree of at most 24 nodes that can be written,
//! by any table of names. `specs/Naming` says which texts such a tree names, in the order in which its
//! text has them (`names_in`), and that a table gets these and nothing else (`PutsTreeNames`).
//!
//! # Contract for the crates above
//!
//! - [`read_tree`] gives a tree whose canonical text the text is, and the table with the texts that the
//!   tree names; or it says that the text is that of no tree.
//! - [`laws`]: the text tells which texts the tree names, so that the table behind it is one.
//!
//! # How it is done
//!
//! The reader is loose: it takes every canonical text, and others as well, and each part of it only has
//! to undo what writing does (`Undoes` in `specs/Reading`) and to put the names of that part into the
//! table (`Gets`). `rules` then looks at the nodes' own bags,
//! which a text says by a category and braces. At last the tree that was read is written again, and
//! only where that gives the text, byte by byte, was it the tree's.
#![tactic(auto)]

mod bags;
pub mod laws;
mod literals;
mod nodes;
mod reader;
mod rules;
mod terms;
mod trees;

ghost use Rattle.std.specs.Prelude.{◌≡◌, ◌+◌, ◌≤◌, length, IfOk, IfSome, IfNone};
ghost use Rattle.gr_base.specs.Lists.{NoneTwice};
ghost use Rattle.gr_symbols.specs.Numbers.{Grows, first_texts};
ghost use Rattle.td_canon.specs.CanonicalTexts.{HasText};
ghost use Rattle.tg_reader.specs.Naming.{PutsTreeNames};
ghost use Rattle.tg_reader.specs.Writable.{IsTreeText, IsWritableTree};
ghost use Rattle.gr_text.specs.Limits.{IsShort};

use crate::reader::{Reader, Stop};
use crate::rules::all_obey;
pub use gr_base::Memory;
use gr_symbols::Symbols;
use std::alloc::Global;
use td_canon::canonical_text;
use td_tree::Tree;

/// No text stands twice in a table.
fn tells_texts_apart(symbols: &Symbols)
    ensures { NoneTwice symbols.now }
{
    let _count = symbols.len();
}

/// The first texts stand first in a table.
fn has_first_texts(symbols: &Symbols)
    ensures { Grows first_texts symbols.now }
{
    let _count = symbols.len();
}

/// The tree whose canonical text this is, or `None` exactly where it is the canonical text of no tree
/// that can be written. Names are numbers of the table, which gets what the tree names, as far as it
/// lacks it, in the order of the text. Where there is no tree the table only grows.
pub fn read_tree(alloc: Global, text: &str, symbols: &mut Symbols) -> Result<Option<Tree>, Memory>
    requires { IsShort text.now }
    ensures tree { IfOk result (λ found. IfSome found (λ t. HasText symbols.new t text.now)) }
    ensures writable { IfOk result (λ found. IfSome found (λ t. IsWritableTree symbols.new t)) }
    ensures table { IfOk result (λ found. IfSome found (λ _. PutsTreeNames text.now symbols.old symbols.new)) }
    ensures none { IfOk result (λ found. IfNone found (IsTreeText text.now → ⊥)) }
    ensures grows { Grows symbols.old symbols.new }
    ensures few_more { length symbols.new ≤ length symbols.old + length text.now }
{
    has_first_texts(symbols);
    let mut reader = Reader {
        rest: text.as_bytes(),
    };
    let tree = match reader.tree(alloc, symbols) {
        Ok(tree) => tree,
        Err(Stop::NoTree) => return Ok(None),
        Err(Stop::Memory) => return Err(Memory),
    };
    tells_texts_apart(symbols);
    if !all_obey(tree.nodes.as_slice(), symbols) {
        return Ok(None);
    }
    let written = canonical_text(alloc, &tree, symbols)?;
    if written.as_str() == text {
        Ok(Some(tree))
    } else {
        Ok(None)
    }
}
