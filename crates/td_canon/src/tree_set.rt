//! Sets of trees by their texts.
ghost use Rattle.std.specs.Prelude.{◌≡◌, ◌<◌, ◌≤◌, ◌+◌, ℕ, List, [], ◌∷◌, ◌++◌, take, drop, length, slice_get, Some, IfOk, OnOk, OnErr, MatchResult, string_bytes};
ghost use Rattle.std.specs.Bool.{OnTrue, OnFalse};
ghost use Rattle.gr_base.specs.Lists.{IsAmong};
ghost use Rattle.td_tree.specs.Trees.{AreTreeNodes};
ghost use Rattle.td_canon.specs.CanonicalTexts.{HasText, IsNamedTree};
ghost use Rattle.td_canon.specs.TreeSets.{Gains, IsTreeSet, IsWhole, LacksText, texts_of, trees_of};
ghost use Rattle.td_canon.specs.TreeOrders.{HasTextAt, SplitsAt, entry_of};

use crate::writing::canonical_text;
use gr_base::Memory;
use gr_symbols::Symbols;
use gr_terms::Sym;
use std::alloc::Global;
use std::cmp::Ordering;
use std::marker::Model;
use td_tree::Tree;

/// The most trees of a set.
const TREE_LIMIT: usize = 4_294_967_295;

/// A tree and its text.
#[derive(Drop)]
struct Held {
    tree: Tree,
    text: String,
}

/// A set of trees that holds each text once, seen as the list of its trees with their texts, by
/// rising text.
#[derive(Drop)]
pub struct TreeSet {
    // The trees in the order in which they came.
    held: Vec<Held>,
    // Their places there, by rising text.
    order: Vec<u32>,
}

impl Model for TreeSet {
    ghost use Rattle.std.specs.Prelude.{List};
    ghost use Rattle.td_canon.specs.TreeSets.{Entry};
    ghost use Rattle.td_canon.specs.TreeOrders.{KeepsOrder, entries_by};

    ghost Value = { List Entry };

    ghost view = { λ s. entries_by s.held.items s.order.items };

    ghost invariant = { λ s. KeepsOrder s.held.items s.order.items };
}

impl TreeSet {
    /// The empty set, which takes no memory.
    pub fn new(alloc: Global) -> TreeSet
        ensures empty { result ≡ [] }
        ensures set { IsTreeSet result }
        ensures whole { (texts : List (List ℕ)) → IsWhole texts result }
    {
        TreeSet {
            held: Vec::new(alloc),
            order: Vec::new(alloc),
        }
    }

    /// The tree and its text that stand at a place in the order.
    fn at(&self, place: usize) -> &Held
        requires { place < length self.now }
        ensures held { slice_get self.now place ≡ Some (entry_of result.now) }
        ensures set { IsTreeSet self.now }
    {
        &self.held[self.order[place] as usize]
    }

    /// The place of a text, or else the place where it would stand.
    fn find(&self, text: &str) -> Result<usize, usize>
        ensures { MatchResult result (λ at. HasTextAt self.now at text.now) (λ place. SplitsAt self.now place text.now) }
    {
        let mut low = 0;
        let mut high = self.len();
        while low < high {
            let middle = low + (high - low) / 2;
            match self.at(middle).text.as_str().cmp(text) {
                Ordering::Less => low = middle + 1,
                Ordering::Greater => high = middle,
                Ordering::Equal => return Ok(middle),
            }
        }
        Err(low)
    }

    /// Puts a tree in at the place of its text, and says `false`, with the set unchanged, exactly
    /// where its text is there. Without memory the set stays as it was; a tree behind 4,294,967,295
    /// ones counts as more than there is memory for.
    pub fn add(&mut self, tree: Tree, symbols: &Symbols) -> Result<bool, Memory>
        requires nodes { AreTreeNodes tree.nodes }
        requires named { IsNamedTree (length symbols.now) tree }
        ensures added { IfOk result (λ added. OnTrue added ((bytes : List ℕ) × HasText symbols.now tree bytes
            × LacksText self.old bytes × Gains self.old self.new tree bytes)) }
        ensures there { IfOk result (λ added. OnFalse added ((bytes : List ℕ) × HasText symbols.now tree bytes
            × IsAmong (texts_of self.old) bytes)) }
        ensures same { IfOk result (λ added. OnFalse added (self.new ≡ self.old)) }
        ensures err { OnErr result (self.new ≡ self.old) }
        ensures set { IsTreeSet self.new }
        ensures whole { IsWhole symbols.now self.old → IsWhole symbols.now self.new }
    {
        let text = canonical_text(*self.order.allocator(), &tree, symbols)?;
        match self.find(text.as_str()) {
            Ok(_) => Ok(false),
            Err(place) => {
                self.insert(place, Held { tree, text })?;
                Ok(true)
            }
        }
    }

    /// Puts a tree in at the place of its text.
    fn insert(&mut self, place: usize, held: Held) -> Result<(), Memory>
        requires splits { SplitsAt self.old place (string_bytes held.text) }
        requires nodes { AreTreeNodes held.tree.nodes }
        ensures ok { OnOk result (self.new ≡ take place self.old ++ entry_of held ∷ drop place self.old) }
        ensures err { OnErr result (self.new ≡ self.old) }
        ensures set { IsTreeSet self.new }
    {
        let number = self.held.len();
        if number >= TREE_LIMIT {
            return Err(Memory);
        }
        self.order.reserve(1)?;
        self.held.push(held)?;
        self.order.insert(place, number as u32)?;
        Ok(())
    }

    /// The number of trees.
    pub fn len(&self) -> usize
        ensures number { result ≡ length self.now }
        ensures set { IsTreeSet self.now }
    {
        self.order.len()
    }

    /// The tree at a place, counted from 0, by rising text.
    pub fn get(&self, at: usize) -> &Tree
        requires { at < length self.now }
        ensures tree { slice_get (trees_of self.now) at ≡ Some result.now }
        ensures nodes { AreTreeNodes result.now.nodes }
        ensures set { IsTreeSet self.now }
    {
        &self.at(at).tree
    }

    /// The text of the tree at a place.
    pub fn text(&self, at: usize) -> &str
        requires { at < length self.now }
        ensures text { slice_get (texts_of self.now) at ≡ Some result.now }
        ensures set { IsTreeSet self.now }
    {
        self.at(at).text.as_str()
    }
}

/// The trees of a class, and whether some may be missing since a budget was spent.
#[derive(Drop)]
pub struct ClassTrees {
    /// The class.
    pub class: Sym,
    /// Its trees.
    pub trees: TreeSet,
    /// Whether the class was cut.
    pub cut: bool,
}
