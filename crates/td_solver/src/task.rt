//! What a search is for, made once.
ghost use Rattle.std.specs.Prelude.{◌≡◌, ◌<◌, ◌≤◌, filter, length, IfOk, slice_get, Some};
ghost use Rattle.gr_base.specs.Lists.{NoneTwice};
ghost use Rattle.td_desc.specs.Conditions.{IsNumbered};
ghost use Rattle.td_model.specs.ModelTrees.{IsNamedDescription};
ghost use Rattle.td_solver.specs.Tasks.{IsTask};
ghost use Rattle.td_solver.specs.Ties.{is_of, is_tight_before, IsParentBefore, IsToldKid};

use crate::ties::{all_kids, all_parents, all_ties, all_tight};
use gr_base::{Items, Memory};
use gr_symbols::Symbols;
use gr_terms::Syms;
use std::alloc::Global;
use td_colour::laws::blacks_first;
use td_desc::laws::colours_stand_in_order;
use td_desc::{DescribedNode, Description, Related, Relations};
use td_model::attributes;

/// A description, and for each node the relations that are tested when it is added.
#[derive(Drop)]
pub struct Task<'a> {
    pub d: &'a Description,
    /// The texts of its names.
    pub symbols: &'a Symbols,
    /// The number of nodes.
    pub count: u8,
    /// The attributes of the network.
    pub attributes: Syms,
    ties: Items<Relations>,
    tight: Items<Relations>,
    parents: Items<Option<u8>>,
    kids: Items<Option<u8>>,
}

impl<'a> Task<'a> {
    /// The task of a description.
    pub fn new(alloc: Global, d: &'a Description, symbols: &'a Symbols) -> Result<Task<'a>, Memory>
        requires few { length d.now.nodes ≤ 24 }
        requires numbered { IsNumbered d.now }
        requires named { IsNamedDescription (length symbols.now) d.now }
        ensures task { IfOk result (λ t. IsTask t) }
        ensures of { IfOk result (λ t. t.d.now ≡ d.now) }
        ensures texts { IfOk result (λ t. t.symbols.now ≡ symbols.now) }
    {
        blacks_first();
        colours_stand_in_order();
        let _texts_that_differ = symbols.len();
        let count = d.count() as u8;
        let attributes = attributes(alloc, &d.network)?;
        let ties = all_ties(alloc, d.relations.as_slice(), count)?;
        let tight = all_tight(alloc, d.relations.as_slice(), count)?;
        let parents = all_parents(alloc, d.relations.as_slice(), count)?;
        let kids = all_kids(alloc, d.relations.as_slice(), count)?;
        Ok(Task {
            d,
            symbols,
            count,
            attributes,
            ties,
            tight,
            parents,
            kids,
        })
    }

    /// The relations whose later node it is.
    pub fn ties(&self, node: u8) -> &[Related]
        requires task { IsTask self.now }
        requires node { node < self.now.count }
        ensures { result.now ≡ filter (is_of node) self.now.d.now.relations }
    {
        self.ties.get(node as usize).as_slice()
    }

    /// The relations between earlier nodes that a tree node in between can break.
    pub fn tight_before(&self, node: u8) -> &[Related]
        requires task { IsTask self.now }
        requires node { node < self.now.count }
        ensures { result.now ≡ filter (is_tight_before node) self.now.d.now.relations }
    {
        self.tight.get(node as usize).as_slice()
    }

    /// A node below `node` that a relation says to be the parent of another node.
    pub fn parent_before(&self, kid: u8, node: u8) -> Option<u8>
        requires task { IsTask self.now }
        requires kid { kid < self.now.count }
        ensures { IsParentBefore self.now.d.now.relations node kid result }
    {
        match *self.parents.get(kid as usize) {
            Some(parent) => { if parent < node { Some(parent) } else { None } }
            None => None,
        }
    }

    /// A node below another one that a relation says to be its child.
    pub fn kid_before(&self, node: u8) -> Option<u8>
        requires task { IsTask self.now }
        requires node { node < self.now.count }
        ensures { IsToldKid self.now.d.now.relations node result }
    {
        *self.kids.get(node as usize)
    }

    /// A node of the description.
    pub fn node(&self, node: u8) -> &DescribedNode
        requires task { IsTask self.now }
        requires node { node < self.now.count }
        ensures { slice_get self.now.d.now.nodes node ≡ Some result.now }
    {
        self.d.nodes.get(node as usize)
    }
}
