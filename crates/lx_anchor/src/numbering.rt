//! Numbers the variables of trees 0, 1, .. in the order in which they first stand.
ghost use Rattle.std.specs.Prelude.{◌≡◌, ◌<◌, ℕ, List, [], ◌∷◌, ◌++◌, length, map, IfOk, OnOk};
ghost use Rattle.gr_base.specs.Lists.{gathered};
ghost use Rattle.gr_terms.specs.Networks.{variable};
ghost use Rattle.td_canon.specs.Renaming.{rename_bag, rename_literal, rename_node, rename_term};
ghost use Rattle.td_canon.specs.Writing.{meet};
ghost use Rattle.td_canon.proofs.MeetingLemmas.{place};
ghost use Rattle.tg_model.specs.DenseTrees.{bag_terms, literal_terms, node_terms};
ghost use Rattle.lx_anchor.specs.Numberings.{AreKept, IsNumbered, IsNumberedTree};

use gr_base::{Items, Memory};
use gr_terms::{Bag, Literal, Literals, Term, Terms};
use std::alloc::Global;
use std::marker::Model;
use td_tree::{Tree, TreeNode, TreeNodes};

/// The variables that were met in a tree so far, seen as a list in the order of first meeting. They are
/// told by a sparse set, so one serves all trees: a place in its table counts only where the variable
/// stands at that place among those that were met, and to forget them takes no time.
#[derive(Drop)]
pub struct Numbering {
    places: Vec<u32>,
    met: Vec<u32>,
}

impl Model for Numbering {
    ghost use Rattle.std.specs.Prelude.{List, ℕ};
    ghost use Rattle.lx_anchor.specs.Numberings.{AreKept};

    ghost Value = { List ℕ };

    ghost view = { λ n. n.met.items };

    ghost invariant = { λ n. AreKept n.places.items n.met.items };
}

/// The place of the variable among those that were met, or how many these are.
fn place_in(places: &[u32], met: &[u32], variable: u32) -> usize
    requires { AreKept places.now met.now }
    ensures { result ≡ place variable met.now }
{
    let slot = variable as usize;
    if slot < places.len() {
        let place = places[slot] as usize;
        if place < met.len() && met[place] == variable {
            return place;
        }
    }
    met.len()
}

/// Makes the table long enough to have a place of the variable.
fn make_room(places: &mut Vec<u32>, variable: u32) -> Result<(), Memory>
    ensures more { (more : List ℕ) × (places.new.items ≡ places.old.items ++ more) }
    ensures room { OnOk result (variable < length places.new.items) }
{
    let slot = variable as usize;
    if slot >= places.len() {
        places.resize(slot + 1, 0)?;
    }
    Ok(())
}

impl Numbering {
    /// No variable was met.
    pub fn new(alloc: Global) -> Numbering
        ensures { result ≡ [] }
    {
        Numbering {
            places: Vec::new(alloc),
            met: Vec::new(alloc),
        }
    }

    /// Forgets the variables that were met.
    fn forget(&mut self)
        ensures { self.new ≡ [] }
    {
        self.met.clear();
    }

    /// The number of a variable, which is the next one where it was not met before.
    fn number(&mut self, wanted: u32) -> Result<u32, Memory>
        ensures met { OnOk result (self.new ≡ meet self.old (variable wanted)) }
        ensures number { IfOk result (λ number. number ≡ place wanted self.old) }
    {
        let place = place_in(&self.places, &self.met, wanted);
        let Ok(number) = u32::try_from(place) else {
            return Err(Memory);
        };
        if place == self.met.len() {
            make_room(&mut self.places, wanted)?;
            self.met.push(wanted)?;
            self.places[wanted as usize] = number;
        }
        Ok(number)
    }

    /// The term with its variable's number.
    fn term(&mut self, term: Term) -> Result<Term, Memory>
        ensures { IfOk result (IsNumbered self.old self.new (term ∷ []) (λ f. rename_term f term)) }
    {
        match term {
            Term::Const(name) => Ok(Term::Const(name)),
            Term::Var(variable) => Ok(Term::Var(self.number(variable)?)),
        }
    }

    /// The bag with its variables' numbers.
    fn bag(&mut self, alloc: Global, bag: &Bag) -> Result<Bag, Memory>
        ensures { IfOk result (IsNumbered self.old self.new (bag_terms bag.now) (λ f. rename_bag f bag.now)) }
    {
        let mut numbered = Bag::new(alloc);
        'pairs: for place in 0..bag.len() {
            let pair = bag.at(place);
            let value = self.term(pair.1)?;
            let _added = numbered.add(pair.0, value)?;
        }
        Ok(numbered)
    }

    /// The node with its variables' numbers.
    fn node(&mut self, alloc: Global, node: &TreeNode) -> Result<TreeNode, Memory>
        ensures { IfOk result (IsNumbered self.old self.new (node_terms node.now) (λ f. rename_node f node.now)) }
    {
        let own = self.bag(alloc, &node.own)?;
        let top = self.bag(alloc, &node.top)?;
        let bot = self.bag(alloc, &node.bot)?;
        Ok(TreeNode {
            parent: node.parent,
            own,
            top,
            bot,
        })
    }

    /// The nodes with their variables' numbers.
    fn nodes(&mut self, alloc: Global, nodes: &TreeNodes) -> Result<TreeNodes, Memory>
        ensures { IfOk result (IsNumbered self.old self.new (gathered node_terms nodes.now) (λ f. map (rename_node f) nodes.now)) }
    {
        let mut numbered = Vec::with_capacity(alloc, nodes.len())?;
        'nodes: for place in 0..nodes.len() {
            numbered.push(self.node(alloc, nodes.get(place))?)?;
        }
        Ok(Items::from_vec(numbered))
    }

    /// The terms with their variables' numbers.
    fn terms(&mut self, alloc: Global, terms: &Terms) -> Result<Terms, Memory>
        ensures { IfOk result (IsNumbered self.old self.new terms.now (λ f. map (rename_term f) terms.now)) }
    {
        let mut numbered = Vec::with_capacity(alloc, terms.len())?;
        'terms: for place in 0..terms.len() {
            numbered.push(self.term(*terms.get(place))?)?;
        }
        Ok(Items::from_vec(numbered))
    }

    /// The literal with its variables' numbers.
    fn literal(&mut self, alloc: Global, literal: &Literal) -> Result<Literal, Memory>
        ensures { IfOk result (IsNumbered self.old self.new (literal_terms literal.now) (λ f. rename_literal f literal.now)) }
    {
        let handle = self.term(literal.handle)?;
        let pred = self.term(literal.pred)?;
        let args = self.terms(alloc, &literal.args)?;
        Ok(Literal { handle, pred, args })
    }

    /// The literals with their variables' numbers.
    fn literals(&mut self, alloc: Global, literals: &Literals) -> Result<Literals, Memory>
        ensures { IfOk result (IsNumbered self.old self.new (gathered literal_terms literals.now) (λ f. map (rename_literal f) literals.now)) }
    {
        let mut numbered = Vec::with_capacity(alloc, literals.len())?;
        'literals: for place in 0..literals.len() {
            numbered.push(self.literal(alloc, literals.get(place))?)?;
        }
        Ok(Items::from_vec(numbered))
    }

    /// The tree with its variables numbered 0, 1, .. in the order in which they first stand. The variables
    /// of an earlier tree are forgotten.
    pub fn tree(&mut self, alloc: Global, tree: &Tree) -> Result<Tree, Memory>
        ensures { IfOk result (IsNumberedTree tree.now) }
    {
        self.forget();
        let nodes = self.nodes(alloc, &tree.nodes)?;
        let iface = self.bag(alloc, &tree.iface)?;
        let sem = self.literals(alloc, &tree.sem)?;
        Ok(Tree { nodes, iface, sem })
    }
}
