//! The rules on what may stand in a node's own bag.
ghost use Rattle.std.specs.Prelude.{◌≡◌, ◌<◌, ◌↔◌, length, IsTrue};
ghost use Rattle.gr_base.specs.Lists.{Each};
ghost use Rattle.td_canon.specs.CanonicalTexts.{IsNamedBag};
ghost use Rattle.tg_reader.specs.Writable.{IsMark};
ghost use Rattle.tg_reader.specs.Reading.{IsNamedOwn, MayStand, Obeys};

use gr_symbols::Symbols;
use gr_terms::{ANCHOR, Bag, COANCHOR, FOOT, LEX, MARK, NADJ, SUBST, Sym, Term};
use td_tree::TreeNode;

/// Whether the value is a mark.
fn is_mark(value: Term) -> bool
    ensures { IsTrue result ↔ IsMark value }
{
    match value {
        Term::Const(name) => {
            name == ANCHOR
                || name == COANCHOR
                || name == SUBST
                || name == FOOT
                || name == LEX
                || name == NADJ
        }
        Term::Var(_) => false,
    }
}

/// Whether a pair may stand there: none is named `color`, and the mark is one of six.
fn may_stand(attribute: Sym, value: Term, symbols: &Symbols) -> bool
    requires { attribute.0 < length symbols.now }
    ensures { IsTrue result ↔ MayStand symbols.now (attribute, value) }
{
    symbols.text(attribute) != "color" && (attribute != MARK || is_mark(value))
}

/// Whether each pair may stand there.
fn obeys(own: &Bag, symbols: &Symbols) -> bool
    requires { IsNamedBag (length symbols.now) own.now }
    ensures { IsTrue result ↔ Each (MayStand symbols.now) own.now }
{
    for place in 0..own.len() {
        let (attribute, value) = *own.at(place);
        if !may_stand(attribute, value, symbols) {
            return false;
        }
    }
    true
}

/// Whether all pairs in own bags of the nodes may stand there.
pub fn all_obey(nodes: &[TreeNode], symbols: &Symbols) -> bool
    requires { Each (IsNamedOwn (length symbols.now)) nodes.now }
    ensures { IsTrue result ↔ Each (Obeys symbols.now) nodes.now }
{
    for node in nodes {
        if !obeys(&node.own, symbols) {
            return false;
        }
    }
    true
}
