//! Copies of literals.
ghost use Rattle.std.specs.Prelude.{◌≡◌, IfOk};

use gr_base::{Items, Memory};
use gr_terms::{Literal, Literals, Term, Terms};
use std::alloc::Global;

/// The same terms.
fn copied_terms(alloc: Global, terms: &[Term]) -> Result<Terms, Memory>
    ensures { IfOk result (λ copy. copy ≡ terms.now) }
{
    let mut copy = Items::new(alloc);
    for term in terms {
        let _pushed = copy.push(*term)?;
    }
    Ok(copy)
}

/// The same literal.
fn copied_literal(alloc: Global, literal: &Literal) -> Result<Literal, Memory>
    ensures { IfOk result (λ copy. copy ≡ literal.now) }
{
    let args = copied_terms(alloc, literal.args.as_slice())?;
    Ok(Literal {
        handle: literal.handle,
        pred: literal.pred,
        args,
    })
}

/// The same literals.
pub fn copied_literals(alloc: Global, literals: &[Literal]) -> Result<Literals, Memory>
    ensures { IfOk result (λ copy. copy ≡ literals.now) }
{
    let mut copy = Items::new(alloc);
    for literal in literals {
        let next = copied_literal(alloc, literal)?;
        let _pushed = copy.push(next)?;
    }
    Ok(copy)
}
