//! Literals that are kept once each.
ghost use Rattle.std.specs.Prelude.{◌≡◌, Decides, OnOk};
ghost use Rattle.gr_base.specs.Lists.{IsAmong};
ghost use Rattle.sm_input.specs.Reading.{Keeps};

use crate::input::LITERAL_LIMIT;
use crate::raw::RawLiteral;
use gr_base::Memory;
use gr_terms::Term;

/// Whether the terms are the same.
fn are_same_terms(left: &[Term], right: &[Term]) -> bool
    ensures { Decides result (left.now ≡ right.now) }
{
    left == right
}

/// Whether the literals are the same.
fn are_same(left: &RawLiteral, right: &RawLiteral) -> bool
    ensures { Decides result (left.now ≡ right.now) }
{
    left.handle == right.handle
        && left.pred == right.pred
        && are_same_terms(left.args.as_slice(), right.args.as_slice())
}

/// Whether the literal is one of these.
fn is_among(row: &[RawLiteral], literal: &RawLiteral) -> bool
    ensures { Decides result (IsAmong row.now literal.now) }
{
    match row.split_first() {
        None => false,
        Some((first, more)) => are_same(first, literal) || is_among(more, literal),
    }
}

/// Keeps a literal behind the others, unless it is one of them or they are too many already. Without
/// memory nothing changes.
pub fn keep(row: &mut Vec<RawLiteral>, literal: RawLiteral) -> Result<(), Memory>
    ensures { OnOk result (Keeps row.old.items literal row.new.items) }
{
    if row.len() > LITERAL_LIMIT || is_among(row.as_slice(), &literal) {
        return Ok(());
    }
    row.push(literal)?;
    Ok(())
}
