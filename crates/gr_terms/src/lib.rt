//! Symbols' numbers, terms, bags, literals and networks, with the meaning of a network.
//!
//! # Model
//!
//! - A name is its number, a `Sym`, and a variable and a slot are numbers too. No text stands here.
//! - `Syms`, `Terms` and `Literals` are seen as lists, and a [`Network`] as the list of its
//!   assertions.
//! - A [`Bag`] is seen as the list of its pairs, whose attributes rise, so that each stands once
//!   (`IsListed` of `specs/Bags`). Bags with the same pairs are equal.
//!
//! `specs/Networks` says for any type of variables and slots which slots and terms a network links,
//! which values a slot has, what follows from a network, and that it agrees where it links no two
//! different names. `specs/Views`, `specs/LiteralViews` and `specs/BagViews` read the types of this
//! crate as such networks, literals and pairs at numbers, and `specs/Canonical` has the canonical
//! form of a tree whose slots and values are those of a network.
//!
//! # What the crates above can rely on
//!
//! - Appending to a list, to a network or to a bag changes nothing where memory is wanting, and what
//!   is new takes no memory. [`Bag::add`] puts a pair in exactly where the attribute is not there.
//! - [`laws`] has the laws of networks as contracts: a part of an agreeing network agrees, order and
//!   repetition are free, so is renaming that can be undone, interpretations carry links along, and
//!   each kind of assertion that is added links just what its law says. For variables and slots of
//!   any types whose values can be told apart it is decided what a network links and whether it
//!   agrees; the proof joins slots link by link and then the equations of the network and of its
//!   shared attributes one by one (`proofs/Agreeing`).
//! - The same laws for any type of variables and slots are lemmas: `proofs/NetworkLemmas` on
//!   interpretations, parts, renaming, equivalence and labellings, `proofs/AdditionLemmas` on one
//!   more assertion. `proofs/BagLemmas` has what a pair that is put in changes and that a bag is
//!   fixed by its members, and `proofs/ViewLemmas` that reading loses nothing.
#![tactic(auto)]

mod bag;
pub mod laws;
mod network;

ghost use Rattle.std.specs.Prelude.{◌≡◌, map};
ghost use Rattle.gr_terms.specs.Constants.{first_numbers};

pub use bag::Bag;
use gr_base::Items;
pub use gr_base::Memory;
pub use network::Network;

/// The number of a name. The default is the lowest one.
#[derive(Clone, Copy, Debug, Default, PartialEq, Eq)]
pub struct Sym(pub u32);

/// A name or a variable.
#[derive(Clone, Copy, Debug, PartialEq, Eq)]
pub enum Term {
    /// A name, by its symbol.
    Const(Sym),
    /// A variable, by its number.
    Var(u32),
}

impl Default for Term {
    ghost use Rattle.std.specs.Prelude.{◌≡◌};
    ghost use Rattle.gr_terms.specs.declared.Term.TheVariants.{Var};

    ghost is_default = { λ t. t ≡ Var 0 };

    /// The variable with the lowest number.
    fn default() -> Term {
        Term::Var(0)
    }
}

/// The number of a slot.
#[derive(Clone, Copy, Debug, PartialEq, Eq)]
pub struct SlotId(pub u32);

/// What a network says.
#[derive(Clone, Copy, Debug, PartialEq, Eq)]
pub enum Assertion {
    /// The slot has an entry with this attribute and value.
    Entry(SlotId, Sym, Term),
    /// Two terms are equal.
    Equate(Term, Term),
    /// Two slots share their entries.
    Link(SlotId, SlotId),
}

/// Symbols, seen as a list.
pub type Syms = Items<Sym>;

/// Terms, seen as a list.
pub type Terms = Items<Term>;

/// A literal of flat semantics.
#[derive(Drop)]
pub struct Literal {
    pub handle: Term,
    pub pred: Term,
    pub args: Terms,
}

/// Literals, seen as a list.
pub type Literals = Items<Literal>;

/// The words `cat`, `mark`, `name`, `anchor`, `coanchor`, `subst`, `foot`, `lex` and `nadj`, and
/// the empty text have the first ten numbers, in this order.
pub const CAT: Sym = Sym(0);

pub const MARK: Sym = Sym(1);

pub const NAME: Sym = Sym(2);

pub const ANCHOR: Sym = Sym(3);

pub const COANCHOR: Sym = Sym(4);

pub const SUBST: Sym = Sym(5);

pub const FOOT: Sym = Sym(6);

pub const LEX: Sym = Sym(7);

pub const NADJ: Sym = Sym(8);

pub const EMPTY: Sym = Sym(9);

/// The first ten names, in the order of their numbers.
pub fn first_names() -> [Sym; 10]
    ensures { map (λ name. name.0) result ≡ first_numbers }
{
    [
        CAT, MARK, NAME, ANCHOR, COANCHOR, SUBST, FOOT, LEX, NADJ, EMPTY,
    ]
}

#[cfg(test)]
mod tests {
    use super::*;
    use std::test::Fail;

    #[test]
    fn lists_take_an_item(rt: HostRuntime) -> Result<(), Fail> {
        let mut syms: Syms = Items::new(rt.alloc());
        syms.push(CAT)?;
        assert_eq!(rt; syms.as_slice(), [CAT].as_slice());
        let mut terms: Terms = Items::new(rt.alloc());
        terms.push(Term::Var(3))?;
        assert_eq!(rt; terms.as_slice(), [Term::Var(3)].as_slice());
        let mut literals: Literals = Items::new(rt.alloc());
        literals.push(Literal {
            handle: Term::Var(0),
            pred: Term::Const(NAME),
            args: terms,
        })?;
        assert_eq!(rt; literals.len(), 1);
        Ok(())
    }

    #[test]
    fn networks_and_bags_take_an_item(rt: HostRuntime) -> Result<(), Fail> {
        let mut network = Network::new(rt.alloc());
        network.push(Assertion::Link(SlotId(1), SlotId(2)))?;
        assert_eq!(rt; network.len(), 1);
        let mut bag = Bag::new(rt.alloc());
        let added = bag.add(MARK, Term::Const(FOOT))?;
        assert!(rt; added);
        assert_eq!(rt; bag.get(MARK), Some(Term::Const(FOOT)));
        Ok(())
    }
}
