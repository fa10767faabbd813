//! Bindings of a tree's variables to names, which are taken back from the end.
ghost use Rattle.std.specs.Prelude.{◌≡◌, [], ◌∷◌, length, map, IfOk};
ghost use Rattle.gr_base.specs.Lists.{Each};
ghost use Rattle.gr_terms.specs.Canonical.{literal_terms};
ghost use Rattle.gr_terms.specs.LiteralViews.{literal_of, IsConst, AreConst};
ghost use Rattle.gr_terms.specs.Networks.{equate as equation};
ghost use Rattle.gr_terms.specs.Views.{term_of};
ghost use Rattle.gr_terms.specs.declared.Term.TheVariants.{Const};
ghost use Rattle.tg_model.specs.Instances.{equations};
ghost use Rattle.sm_match.specs.Bindings.{name_of, Equates};

use gr_base::Memory;
use gr_terms::{Literal, Sym, Term};

/// A variable and the name that it is bound to.
#[derive(Clone, Copy, Debug, PartialEq, Eq)]
pub struct Bound {
    pub var: u32,
    pub name: Sym,
}

/// The name that a variable is bound to.
fn name_of(bindings: &[Bound], var: u32) -> Option<Sym>
    ensures { result ≡ name_of bindings.now var }
{
    for bound in bindings {
        if bound.var == var {
            return Some(bound.name);
        }
    }
    None
}

/// Binds a variable to a name, and says `false` where it is bound to another.
fn bind(bindings: &mut Vec<Bound>, var: u32, name: Sym) -> Result<bool, Memory>
    ensures { IfOk result (Equates (equation (term_of (Term.Var var)) (term_of (Term.Const name)) ∷ []) bindings.old.items bindings.new.items) }
{
    match name_of(bindings.as_slice(), var) {
        Some(known) => Ok(known == name),
        None => {
            bindings.push(Bound { var, name })?;
            Ok(true)
        }
    }
}

/// Equates a term with a name, and says `false` where it is another name.
fn equate_name(bindings: &mut Vec<Bound>, term: Term, name: Sym) -> Result<bool, Memory>
    ensures { IfOk result (Equates (equation (term_of term) (term_of (Term.Const name)) ∷ []) bindings.old.items bindings.new.items) }
{
    match term {
        Term::Const(own) => Ok(own == name),
        Term::Var(var) => bind(bindings, var, name),
    }
}

/// The name that a term is.
fn own_name(term: Term) -> Sym
    requires { IsConst term }
    ensures { term ≡ Const result }
{
    match term {
        Term::Const(name) => name,
        Term::Var(_) => unreachable!(),
    }
}

/// Equates a term with another that is a name.
fn equate(bindings: &mut Vec<Bound>, term: Term, other: Term) -> Result<bool, Memory>
    requires { IsConst other }
    ensures { IfOk result (Equates (equation (term_of term) (term_of other) ∷ []) bindings.old.items bindings.new.items) }
{
    equate_name(bindings, term, own_name(other))
}

/// Equates terms with as many names, each with the one at its place.
fn equate_terms(bindings: &mut Vec<Bound>, terms: &[Term], others: &[Term]) -> Result<bool, Memory>
    requires alike { length terms.now ≡ length others.now }
    requires names { Each IsConst others.now }
    ensures { IfOk result (Equates (equations (map term_of terms.now) (map term_of others.now)) bindings.old.items bindings.new.items) }
{
    for at in 0..others.len() {
        if !equate(bindings, terms[at], others[at])? {
            return Ok(false);
        }
    }
    Ok(true)
}

/// Equates a literal with another that has names alone and as many arguments: the handles, the
/// predicates and the arguments.
pub fn equate_literal(
    bindings: &mut Vec<Bound>,
    literal: &Literal,
    other: &Literal,
) -> Result<bool, Memory>
    requires alike { length literal.now.args ≡ length other.now.args }
    requires names { AreConst other.now }
    ensures { IfOk result (Equates (equations (literal_terms (literal_of literal.now)) (literal_terms (literal_of other.now))) bindings.old.items bindings.new.items) }
{
    if !equate(bindings, literal.handle, other.handle)? {
        return Ok(false);
    }
    if !equate(bindings, literal.pred, other.pred)? {
        return Ok(false);
    }
    equate_terms(bindings, literal.args.as_slice(), other.args.as_slice())
}
