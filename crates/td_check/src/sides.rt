//! A tree beside what a store has of a description whose nodes share tree nodes.
ghost use Rattle.std.specs.Prelude.{◌≡◌, ◌↔◌, ◌+◌, ◌<◌, ◌≤◌, IsTrue, length, slice_get, Some};

use crate::load::counted;
use gr_store::Store;
use gr_terms::{Assertion, Bag, Literal, SlotId, Sym, Term};
use td_desc::{DescribedNode, Description};
use td_tree::{Tree, TreeNode};

/// A description whose network is in a store, and a tree.
#[derive(Drop)]
pub struct Sides<'a> {
    pub d: &'a Description,
    pub tree: &'a Tree,
    pub store: &'a Store,
    /// The first of the description's nodes that share each tree node.
    pub heads: [usize; 24],
    /// The numbers in the store of the description's first variable and slot.
    pub vars: u32,
    pub slots: u32,
}

impl<'a> Sides<'a> {
    ghost use Rattle.std.specs.Prelude.{◌-◌, slice_index};
    ghost use Rattle.gr_terms.specs.Views.{term_of};
    ghost use Rattle.td_desc.specs.Conditions.{AreSlotsBelow, IsTermBelow, SaysOf};
    ghost use Rattle.td_check.specs.Places.{FitsNames, PassesPair, PassesBag, PassesNode, PassesLiteral, PassesTerm, PassesNodes, Passes, ListsAttribute, ListsAll, ListsNode, ListsNodes, AtBoth};
    ghost use Rattle.td_check.specs.Shifts.{counted_from};
    ghost use Rattle.td_check.specs.Sides.{network_in, AreAlike, Fits, IsFitting, IsSet};

    /// The description's node of a tree node.
    fn node(&self, at: usize) -> &DescribedNode
        requires set { IsSet self.now }
        requires within { at < length self.now.tree.now.nodes }
        ensures is { slice_get self.now.d.now.nodes (slice_index self.now.heads at) ≡ Some result.now }
        ensures slots { AreSlotsBelow self.now.d.now.slots result.now }
    {
        self.d.nodes.get(self.heads[at])
    }

    /// A slot of the description, as it is in the store.
    fn slot(&self, slot: SlotId) -> SlotId
        requires { self.now.slots + slot.0 < 4294967296 }
        ensures { result.0 ≡ self.now.slots + slot.0 }
    {
        SlotId(self.slots + slot.0)
    }

    /// Whether a value of the tree is a name exactly where the term is linked with that name.
    fn has_name(&self, value: Term, term: Term) -> bool
        ensures { IsTrue result ↔ FitsNames (network_in self.now) (term_of value) (term_of term) }
    {
        match value {
            Term::Const(name) => match self.store.constant_of(term) {
                Some(other) => name.0 == other.0,
                None => false,
            },
            Term::Var(_) => self.store.constant_of(term).is_none(),
        }
    }

    /// Whether two values of the tree are one exactly where the two terms are linked.
    fn beside(&self, value: Term, term: Term, other: Term, other_term: Term) -> bool
        ensures { IsTrue result
            ↔ Fits self.now (term_of value) (term_of term) (term_of other) (term_of other_term) }
    {
        (value == other) == self.store.same(term, other_term)
    }

    /// Whether the slot has a value of the pair's attribute, which is linked with the term exactly where
    /// the pair has the value.
    fn beside_pair(&self, value: Term, term: Term, pair: &(Sym, Term), slot: SlotId) -> bool
        requires set { IsSet self.now }
        requires slot { self.now.slots + slot.0 < 4294967296 }
        ensures { IsTrue result ↔ PassesPair (network_in self.now)
            (Fits self.now (term_of value) (term_of term)) (self.now.slots + slot.0) pair.now }
    {
        match self.store.entry(self.slot(slot), pair.0) {
            Some(found) => self.beside(value, term, pair.1, found),
            None => false,
        }
    }

    /// The same of each pair of a list.
    fn beside_bag(&self, value: Term, term: Term, bag: &Bag, slot: SlotId) -> bool
        requires set { IsSet self.now }
        requires slot { self.now.slots + slot.0 < 4294967296 }
        ensures { IsTrue result
            ↔ PassesBag (network_in self.now) (Fits self.now (term_of value) (term_of term)) (self.now.slots + slot.0) bag.now }
    {
        for place in 0..bag.len() {
            if !self.beside_pair(value, term, bag.at(place), slot) {
                return false;
            }
        }
        true
    }

    /// The same of the three lists of a node.
    fn beside_node(
        &self,
        value: Term,
        term: Term,
        node: &TreeNode,
        described: &DescribedNode,
    ) -> bool
        requires set { IsSet self.now }
        requires slots { AreSlotsBelow self.now.d.now.slots described.now }
        ensures { IsTrue result
            ↔ PassesNode (network_in self.now) (Fits self.now (term_of value) (term_of term)) self.now.slots node.now described.now }
    {
        let own = self.beside_bag(value, term, &node.own, described.own);
        let top = self.beside_bag(value, term, &node.top, described.top);
        let bot = self.beside_bag(value, term, &node.bot, described.bot);
        own & top & bot
    }

    /// The same of each node.
    fn beside_nodes(&self, value: Term, term: Term) -> bool
        requires set { IsSet self.now }
        ensures { IsTrue result ↔ PassesNodes (network_in self.now) (Fits self.now (term_of value) (term_of term)) self.now.d.now
            self.now.tree.now self.now.heads self.now.slots }
    {
        for at in 0..self.tree.nodes.len() {
            if !self.beside_node(value, term, self.tree.nodes.get(at), self.node(at)) {
                return false;
            }
        }
        true
    }

    /// Whether a term of the description, as it is in the store, is linked with the term exactly where
    /// the two values are one.
    fn beside_term(&self, value: Term, term: Term, found: Term, described: Term) -> bool
        requires set { IsSet self.now }
        requires below { IsTermBelow self.now.d.now.vars described }
        ensures { IsTrue result ↔ PassesTerm (Fits self.now (term_of value) (term_of term)) self.now.vars found described }
    {
        self.beside(value, term, found, counted(self.vars, described))
    }

    /// The same of each argument of two literals, of as many each.
    fn beside_args(&self, value: Term, term: Term, found: &Literal, literal: &Literal) -> bool
        requires set { IsSet self.now }
        requires below { SaysOf self.now.d.now.vars literal.now }
        requires number { length found.now.args ≡ length literal.now.args }
        ensures { IsTrue result ↔ AtBoth found.now.args literal.now.args (PassesTerm (Fits self.now (term_of value) (term_of term)) self.now.vars) }
    {
        for place in 0..found.args.len() {
            if !self.beside_term(
                value,
                term,
                *found.args.get(place),
                *literal.args.get(place),
            ) {
                return false;
            }
        }
        true
    }

    /// The same of two literals.
    fn beside_literal(&self, value: Term, term: Term, found: &Literal, literal: &Literal) -> bool
        requires set { IsSet self.now }
        requires below { SaysOf self.now.d.now.vars literal.now }
        ensures { IsTrue result ↔ PassesLiteral (Fits self.now (term_of value) (term_of term)) self.now.vars found.now literal.now }
    {
        if found.args.len() != literal.args.len() {
            return false;
        }
        let handle = self.beside_term(value, term, found.handle, literal.handle);
        let pred = self.beside_term(value, term, found.pred, literal.pred);
        let args = self.beside_args(value, term, found, literal);
        handle & pred & args
    }

    /// The same of each literal, of as many each.
    fn beside_literals(&self, value: Term, term: Term) -> bool
        requires set { IsSet self.now }
        requires number { length self.now.tree.now.sem ≡ length self.now.d.now.sem }
        ensures { IsTrue result
            ↔ AtBoth self.now.tree.now.sem self.now.d.now.sem (PassesLiteral (Fits self.now (term_of value) (term_of term)) self.now.vars) }
    {
        for place in 0..self.tree.sem.len() {
            if !self.beside_literal(value, term, self.tree.sem.get(place), self.d.sem.get(place)) {
                return false;
            }
        }
        true
    }

    /// The same at each place of the tree.
    fn beside_all(&self, value: Term, term: Term) -> bool
        requires set { IsSet self.now }
        ensures { IsTrue result ↔ Passes (network_in self.now) (Fits self.now (term_of value) (term_of term)) self.now.d.now self.now.tree.now
            self.now.heads self.now.vars self.now.slots }
    {
        if self.tree.sem.len() != self.d.sem.len() {
            return false;
        }
        let nodes = self.beside_nodes(value, term);
        let iface = self.beside_bag(value, term, &self.tree.iface, self.d.iface);
        let sem = self.beside_literals(value, term);
        nodes & iface & sem
    }

    /// Whether a value of the tree fits a term beside each other value, and as a name.
    fn fits(&self, value: Term, term: Term) -> bool
        requires set { IsSet self.now }
        ensures { IsTrue result ↔ IsFitting self.now (term_of value) (term_of term) }
    {
        if !self.has_name(value, term) {
            return false;
        }
        self.beside_all(value, term)
    }

    /// Whether the slot has a value of the pair's attribute, for which the pair's value fits.
    fn fitting_pair(&self, pair: &(Sym, Term), slot: SlotId) -> bool
        requires set { IsSet self.now }
        requires slot { self.now.slots + slot.0 < 4294967296 }
        ensures { IsTrue result ↔ PassesPair (network_in self.now) (IsFitting self.now)
            (self.now.slots + slot.0) pair.now }
    {
        match self.store.entry(self.slot(slot), pair.0) {
            Some(found) => self.fits(pair.1, found),
            None => false,
        }
    }

    /// The same of each pair of a list.
    fn fitting_bag(&self, bag: &Bag, slot: SlotId) -> bool
        requires set { IsSet self.now }
        requires slot { self.now.slots + slot.0 < 4294967296 }
        ensures { IsTrue result
            ↔ PassesBag (network_in self.now) (IsFitting self.now) (self.now.slots + slot.0) bag.now }
    {
        for place in 0..bag.len() {
            if !self.fitting_pair(bag.at(place), slot) {
                return false;
            }
        }
        true
    }

    /// The same of the three lists of a node.
    fn fitting_node(&self, node: &TreeNode, described: &DescribedNode) -> bool
        requires set { IsSet self.now }
        requires slots { AreSlotsBelow self.now.d.now.slots described.now }
        ensures { IsTrue result
            ↔ PassesNode (network_in self.now) (IsFitting self.now) self.now.slots node.now described.now }
    {
        let own = self.fitting_bag(&node.own, described.own);
        let top = self.fitting_bag(&node.top, described.top);
        let bot = self.fitting_bag(&node.bot, described.bot);
        own & top & bot
    }

    /// The same of each node.
    fn fitting_nodes(&self) -> bool
        requires set { IsSet self.now }
        ensures { IsTrue result ↔ PassesNodes (network_in self.now) (IsFitting self.now) self.now.d.now
            self.now.tree.now self.now.heads self.now.slots }
    {
        for at in 0..self.tree.nodes.len() {
            if !self.fitting_node(self.tree.nodes.get(at), self.node(at)) {
                return false;
            }
        }
        true
    }

    /// Whether the value fits a term of the description, as it is in the store.
    fn fitting_term(&self, found: Term, term: Term) -> bool
        requires set { IsSet self.now }
        requires below { IsTermBelow self.now.d.now.vars term }
        ensures { IsTrue result ↔ PassesTerm (IsFitting self.now) self.now.vars found term }
    {
        let term = counted(self.vars, term);
        self.fits(found, term)
    }

    /// The same of each argument of two literals, of as many each.
    fn fitting_args(&self, found: &Literal, literal: &Literal) -> bool
        requires set { IsSet self.now }
        requires below { SaysOf self.now.d.now.vars literal.now }
        requires number { length found.now.args ≡ length literal.now.args }
        ensures { IsTrue result ↔ AtBoth found.now.args literal.now.args (PassesTerm (IsFitting self.now) self.now.vars) }
    {
        for place in 0..found.args.len() {
            if !self.fitting_term(*found.args.get(place), *literal.args.get(place)) {
                return false;
            }
        }
        true
    }

    /// The same of two literals.
    fn fitting_literal(&self, found: &Literal, literal: &Literal) -> bool
        requires set { IsSet self.now }
        requires below { SaysOf self.now.d.now.vars literal.now }
        ensures { IsTrue result ↔ PassesLiteral (IsFitting self.now) self.now.vars found.now literal.now }
    {
        if found.args.len() != literal.args.len() {
            return false;
        }
        let handle = self.fitting_term(found.handle, literal.handle);
        let pred = self.fitting_term(found.pred, literal.pred);
        let args = self.fitting_args(found, literal);
        handle & pred & args
    }

    /// The same of each literal, of as many each.
    fn fitting_literals(&self) -> bool
        requires set { IsSet self.now }
        requires number { length self.now.tree.now.sem ≡ length self.now.d.now.sem }
        ensures { IsTrue result
            ↔ AtBoth self.now.tree.now.sem self.now.d.now.sem (PassesLiteral (IsFitting self.now) self.now.vars) }
    {
        for place in 0..self.tree.sem.len() {
            if !self.fitting_literal(self.tree.sem.get(place), self.d.sem.get(place)) {
                return false;
            }
        }
        true
    }

    /// The same at each place of the tree.
    fn fitting_all(&self) -> bool
        requires set { IsSet self.now }
        ensures { IsTrue result ↔ Passes (network_in self.now) (IsFitting self.now) self.now.d.now self.now.tree.now
            self.now.heads self.now.vars self.now.slots }
    {
        if self.tree.sem.len() != self.d.sem.len() {
            return false;
        }
        let nodes = self.fitting_nodes();
        let iface = self.fitting_bag(&self.tree.iface, self.d.iface);
        let sem = self.fitting_literals();
        nodes & iface & sem
    }

    /// Whether the list has the attribute of the entry, if the slot has values of that.
    fn lists_attribute(&self, bag: &Bag, slot: SlotId, assertion: Assertion) -> bool
        requires slot { self.now.slots + slot.0 < 4294967296 }
        ensures { IsTrue result
            ↔ ListsAttribute (network_in self.now) (self.now.slots + slot.0) bag.now assertion }
    {
        match assertion {
            Assertion::Entry(_, attr, _) => match self.store.entry(self.slot(slot), attr) {
                Some(_) => bag.get(attr).is_some(),
                None => true,
            },
            _ => true,
        }
    }

    /// Whether the list has each attribute that the slot has values of.
    fn lists_slot(&self, bag: &Bag, slot: SlotId) -> bool
        requires set { IsSet self.now }
        requires slot { self.now.slots + slot.0 < 4294967296 }
        ensures { IsTrue result ↔ ListsAll (network_in self.now) (self.now.slots + slot.0) bag.now }
    {
        for place in 0..self.d.network.len() {
            if !self.lists_attribute(bag, slot, *self.d.network.at(place)) {
                return false;
            }
        }
        true
    }

    /// Whether the three lists of a node do.
    fn lists_node(&self, node: &TreeNode, described: &DescribedNode) -> bool
        requires set { IsSet self.now }
        requires slots { AreSlotsBelow self.now.d.now.slots described.now }
        ensures { IsTrue result
            ↔ ListsNode (network_in self.now) self.now.slots node.now described.now }
    {
        let own = self.lists_slot(&node.own, described.own);
        let top = self.lists_slot(&node.top, described.top);
        let bot = self.lists_slot(&node.bot, described.bot);
        own & top & bot
    }

    /// Whether each node's lists do.
    fn lists_nodes(&self) -> bool
        requires set { IsSet self.now }
        ensures { IsTrue result ↔ ListsNodes (network_in self.now) self.now.d.now self.now.tree.now
            self.now.heads self.now.slots }
    {
        for at in 0..self.tree.nodes.len() {
            if !self.lists_node(self.tree.nodes.get(at), self.node(at)) {
                return false;
            }
        }
        true
    }

    /// Whether the tree is that of the store's network.
    pub fn are_alike(&self) -> bool
        requires set { IsSet self.now }
        ensures { IsTrue result ↔ AreAlike self.now }
    {
        if !self.lists_nodes() {
            return false;
        }
        if !self.lists_slot(&self.tree.iface, self.d.iface) {
            return false;
        }
        self.fitting_all()
    }
}
