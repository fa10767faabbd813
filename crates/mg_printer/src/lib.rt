//! Writes the canonical spelling of a metagrammar.
//!
//! # Model
//!
//! - `specs/Pieces` has what a spelling consists of before names get their texts, `specs/Values`,
//!   `specs/Blocks`, `specs/Bodies` and `specs/Items` say by cases which pieces spell a value, and
//!   `specs/Printing` which text that is: all tokens in the order of the grammar, with one space
//!   between each two, and LF behind each item.
//! - What may be left out is left out: `;` and `,` in literals, and lists of a node block that have
//!   nothing in them. The colour stands before the other properties, and `cat`, `top` and `bot`
//!   stand in this order. All other attributes stand in the order of their lists.
//!
//! # For callers
//!
//! [`print_metagrammar`] gives that text. Each number of the metagrammar needs a text in the table
//! of names, as it has where one reader gave both.
#![tactic(auto)]

mod blocks;
mod bodies;
mod items;
pub mod laws;
mod values;

ghost use Rattle.std.specs.Prelude.{◌≡◌, string_bytes, IfOk};
ghost use Rattle.mg_syntax.specs.Names.{HasTexts};
ghost use Rattle.mg_printer.specs.Printing.{spelling};

use crate::items::item;
pub use gr_base::Memory;
use gr_symbols::Symbols;
use gr_texts::Writer;
use mg_syntax::Metagrammar;
use std::alloc::Global;

/// The canonical spelling of a metagrammar whose names have these texts.
pub fn print_metagrammar(
    alloc: Global,
    m: &Metagrammar,
    symbols: &Symbols,
) -> Result<String, Memory>
    requires { HasTexts symbols.now m.now }
    ensures { IfOk result (λ text. string_bytes text ≡ spelling symbols.now m.now) }
{
    let mut out = Writer::new(alloc);
    for one in m.as_slice() {
        item(&mut out, symbols, one)?;
    }
    Ok(out.into_text())
}
