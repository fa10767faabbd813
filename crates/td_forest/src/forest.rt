//! A forest in fixed arrays: for each node the number of its tree node in preorder, its place, and
//! the place behind its tree.
ghost use Rattle.std.specs.Prelude.{◌≡◌, ◌≢◌, ℕ, ◌+◌, ◌-◌, ◌<◌, ◌≤◌, ◌↔◌, ◌⊎◌, List, [], ◌∷◌, ◌++◌, Bool, false, true, length, IsTrue, MatchOption, slice_get, slice_index, slice_index_or};
ghost use Rattle.td_forest.specs.declared.Made.{Made};
ghost use Rattle.td_forest.specs.declared.Step.{Step};
ghost use Rattle.td_forest.specs.Limits.{node_limit};
ghost use Rattle.td_forest.specs.Nodes.{IsIn, IsForest, Relates, Stands};
ghost use Rattle.td_forest.specs.Steps.{forest_of, CanMake, IsGrown, IsHere, trees_of, width};
ghost use Rattle.td_forest.specs.Spans.{IsShiftedOn, IsShiftedBack, AreShiftedOn, AreShiftedBack, AreEnds, IsReadAt, AreTreeEnds, AreSkipped, IsStart, IsGreatest, IsRange, NoneAt, IsLeastAt, IsCover, IsHighest};
ghost use Rattle.td_forest.specs.Moves.{IsBase, IsMoved, moved, stay};
ghost use Rattle.td_forest.specs.Walks.{HasAt, IsHeadAt, parents};
ghost use Rattle.gr_base.specs.Forests.{empty, size};

use crate::{Made, NODE_LIMIT, Relation, Step};
use std::marker::Model;

/// The limit of the numbers of nodes, which are bytes.
const NUMBER_LIMIT: u8 = NODE_LIMIT as u8;

/// A forest of at most [`NODE_LIMIT`] description nodes, which takes no memory. Contracts see the steps that
/// made it, oldest first.
#[derive(Drop)]
pub struct Forest {
    made: [Made; NODE_LIMIT],
    count: usize,
    here: [bool; NODE_LIMIT],
    first: [u8; NODE_LIMIT],
    behind: [u8; NODE_LIMIT],
}

impl Model for Forest {
    ghost use Rattle.std.specs.Prelude.{List, take};
    ghost use Rattle.td_forest.specs.declared.Made.{Made};

    ghost Value = { List Made };

    ghost use Rattle.td_forest.specs.Spans.{IsKept};

    ghost view = { λ f. take f.count f.made };

    ghost invariant = { λ f. IsKept f.made f.count f.here f.first f.behind };
}

/// The places of a node after a tree node came in at a place, among siblings that begin at `start`.
fn shifted(start: u8, place: u8, first: u8, behind: u8) -> (u8, u8)
    requires first_fits { first < 255 }
    requires behind_fits { behind < 255 }
    ensures { IsShiftedOn start place first behind result.0 result.1 }
{
    if first >= place {
        (first + 1, behind + 1)
    } else if first < start && start <= behind {
        (first, behind + 1)
    } else {
        (first, behind)
    }
}

/// The places of a node after the tree node at a place went.
fn shifted_back(place: u8, first: u8, behind: u8) -> (u8, u8)
    requires { first < behind }
    ensures { IsShiftedBack place first behind result.0 result.1 }
{
    if first > place {
        (first - 1, behind - 1)
    } else if behind > place {
        (first, behind - 1)
    } else {
        (first, behind)
    }
}

/// Moves the places of all nodes that are here.
fn make_room(
    here: &[bool; NODE_LIMIT],
    first: &mut [u8; NODE_LIMIT],
    behind: &mut [u8; NODE_LIMIT],
    start: u8,
    place: u8,
)
    requires { (k : ℕ) → slice_index_or here.now k false ≡ true → (slice_index first.old k < 255) × (slice_index behind.old k < 255) }
    ensures shifted { AreShiftedOn start place here.now first.old behind.old first.new behind.new }
    ensures cells { (length first.new ≡ node_limit) × (length behind.new ≡ node_limit) }
{
    for k in 0..NODE_LIMIT {
        if here[k] {
            let (f, b) = shifted(start, place, first[k], behind[k]);
            first[k] = f;
            behind[k] = b;
        }
    }
}

/// Moves the places of all nodes that are here back.
fn close_room(
    here: &[bool; NODE_LIMIT],
    first: &mut [u8; NODE_LIMIT],
    behind: &mut [u8; NODE_LIMIT],
    place: u8,
)
    requires { (k : ℕ) → slice_index_or here.now k false ≡ true → slice_index first.old k < slice_index behind.old k }
    ensures { AreShiftedBack place here.now first.old behind.old first.new behind.new }
{
    for k in 0..NODE_LIMIT {
        if here[k] {
            let (f, b) = shifted_back(place, first[k], behind[k]);
            first[k] = f;
            behind[k] = b;
        }
    }
}

/// For each place the place behind the tree that begins there.
fn ends(
    here: &[bool; NODE_LIMIT],
    first: &[u8; NODE_LIMIT],
    behind: &[u8; NODE_LIMIT],
) -> [u8; NODE_LIMIT]
    requires { (k : ℕ) → slice_index_or here.now k false ≡ true → slice_index first.now k < node_limit }
    ensures { AreEnds here.now first.now behind.now node_limit result }
{
    let mut ends = [0; NODE_LIMIT];
    for y in 0..NODE_LIMIT {
        if here[y] {
            ends[first[y] as usize] = behind[y];
        }
    }
    ends
}

/// The place behind the tree at a place, where there is one.
fn end_of(ends: &[u8; NODE_LIMIT], place: u8) -> u8
    ensures { IsReadAt ends.now place result }
{
    if place < NUMBER_LIMIT {
        ends[place as usize]
    } else {
        place
    }
}

/// The greatest of the places of those that are here.
fn greatest(here: &[bool; NODE_LIMIT], behind: &[u8; NODE_LIMIT]) -> u8
    ensures { IsGreatest here.now behind.now result }
{
    let mut most = 0;
    for y in 0..NODE_LIMIT {
        if here[y] && behind[y] > most {
            most = behind[y];
        }
    }
    most
}

/// The least number above all nodes that are here, or 0.
fn highest(here: &[bool; NODE_LIMIT]) -> u8
    ensures { IsHighest here.now node_limit result }
{
    let mut most = 0;
    for y in 0..NUMBER_LIMIT {
        if here[y as usize] {
            most = y + 1;
        }
    }
    most
}

/// The least node that begins at a place.
fn least_at(here: &[bool; NODE_LIMIT], first: &[u8; NODE_LIMIT], place: u8) -> Option<u8>
    ensures { MatchOption result (NoneAt here.now first.now place node_limit) (IsLeastAt here.now first.now place) }
{
    for y in 0..NUMBER_LIMIT {
        if here[y as usize] && first[y as usize] == place {
            return Some(y);
        }
    }
    None
}

/// Where the last of the trees begins that begin before a place and end behind it.
fn cover(
    here: &[bool; NODE_LIMIT],
    first: &[u8; NODE_LIMIT],
    behind: &[u8; NODE_LIMIT],
    place: u8,
) -> Option<u8>
    ensures { IsCover here.now first.now behind.now place node_limit result }
{
    let mut last = None;
    for y in 0..NODE_LIMIT {
        if here[y] && first[y] < place && place < behind[y] {
            last = match last {
                None => Some(first[y]),
                Some(p) => Some(if first[y] > p { first[y] } else { p }),
            };
        }
    }
    last
}

impl Forest {
    /// The forest without nodes.
    pub fn new() -> Forest
        ensures { result ≡ [] }
    {
        Forest {
            made: [Made {
                node: 0,
                step: Step::Merge(0),
            }; NODE_LIMIT],
            count: 0,
            here: [false; NODE_LIMIT],
            first: [0; NODE_LIMIT],
            behind: [0; NODE_LIMIT],
        }
    }

    /// The number of steps that made the forest, one for each of its nodes. Each of them could be made
    /// in its turn.
    pub fn count(&self) -> usize
        ensures is { result ≡ length self.now }
        ensures few { result ≤ node_limit }
        ensures grown { IsGrown empty self.now }
    {
        self.count
    }

    /// The least number above all nodes that are there, at most [`NODE_LIMIT`]; 0 where no node is.
    pub fn above(&self) -> u8
        ensures above { (x : ℕ) → IsIn (forest_of self.now) x → x < result }
        ensures least { (result ≡ 0) ⊎ IsIn (forest_of self.now) (result - 1) }
        ensures few { result ≤ node_limit }
        ensures forest { IsForest (forest_of self.now) }
    {
        highest(&self.here)
    }

    /// Whether the node is there.
    pub fn has(&self, node: u8) -> bool
        ensures { IsTrue result ↔ IsIn (forest_of self.now) node }
    {
        node < NUMBER_LIMIT && self.here[node as usize]
    }

    /// How the tree nodes of two nodes stand to each other.
    pub fn relation(&self, a: u8, b: u8) -> Relation
        requires a_here { IsIn (forest_of self.now) a }
        requires b_here { IsIn (forest_of self.now) b }
        ensures { Relates (forest_of self.now) a b result }
    {
        let at = self.first[a as usize];
        let other = self.first[b as usize];
        if at == other {
            Relation::Same
        } else if at < other {
            if other < self.behind[a as usize] {
                Relation::Over
            } else {
                Relation::Left
            }
        } else if at < self.behind[b as usize] {
            Relation::Under
        } else {
            Relation::Right
        }
    }

    /// For each place the place behind the tree there.
    fn tree_ends(&self) -> [u8; NODE_LIMIT]
        ensures { AreTreeEnds self.now result }
    {
        ends(&self.here, &self.first, &self.behind)
    }

    /// The place behind so many trees from a place on.
    fn skip(&self, ends: &[u8; NODE_LIMIT], place: u8, trees: u8) -> u8
        requires { AreTreeEnds self.now ends.now }
        ensures { AreSkipped self.now place trees result }
    {
        let mut at = place;
        for _tree in 0..trees {
            at = end_of(ends, at);
        }
        at
    }

    /// The place where the children of a node begin, or the roots.
    fn start(&self, under: Option<u8>) -> u8
        requires { IsHere (forest_of self.now) under }
        ensures { IsStart self.now under result }
    {
        match under {
            None => 0,
            Some(u) => self.first[u as usize] + 1,
        }
    }

    /// Whether two nodes stand so to each other.
    pub fn relates(&self, a: u8, b: u8, how: Relation) -> bool
        requires a_here { IsIn (forest_of self.now) a }
        requires b_here { IsIn (forest_of self.now) b }
        ensures { IsTrue result ↔ Relates (forest_of self.now) a b how }
    {
        self.is_forest();
        self.relation(a, b) == how
    }

    /// The steps make a forest: the nodes of a tree node are a set, and no node stands twice. The
    /// call does nothing.
    fn is_forest(&self)
        ensures { IsForest (forest_of self.now) }
    {
        let _ = &self.made;
    }

    /// How many tree nodes there are.
    pub fn size(&self) -> u8
        ensures is { result ≡ size (forest_of self.now) }
        ensures few { result ≤ node_limit }
    {
        greatest(&self.here, &self.behind)
    }

    /// The place of the first of the children of a node, or of the roots, and the place behind them all.
    fn range(&self, under: Option<u8>) -> (u8, u8)
        requires { IsHere (forest_of self.now) under }
        ensures { IsRange self.now under result.0 result.1 }
    {
        match under {
            None => (0, self.size()),
            Some(u) => (self.first[u as usize] + 1, self.behind[u as usize]),
        }
    }

    /// How many children a node has, or how many roots there are.
    pub fn width(&self, under: Option<u8>) -> u8
        requires { IsHere (forest_of self.now) under }
        ensures is { result ≡ width (trees_of under (forest_of self.now)) }
        ensures few { result ≤ node_limit }
    {
        let (start, end) = self.range(under);
        let ends = self.tree_ends();
        let mut at = start;
        for trees in 0..NUMBER_LIMIT {
            if at == end {
                return trees;
            }
            at = end_of(&ends, at);
        }
        NUMBER_LIMIT
    }

    /// The number of a node's tree node in preorder, counted from 0.
    pub fn place(&self, node: u8) -> u8
        requires { IsIn (forest_of self.now) node }
        ensures { HasAt (forest_of self.now) result node }
    {
        self.first[node as usize]
    }

    /// The least node of the tree node with a number in preorder.
    pub fn head(&self, place: u8) -> u8
        requires { place < size (forest_of self.now) }
        ensures { IsHeadAt (forest_of self.now) place result }
    {
        match least_at(&self.here, &self.first, place) {
            Some(node) => node,
            None => 0,
        }
    }

    /// The number of the parent of the tree node with a number in preorder; `None` for a root.
    pub fn parent(&self, place: u8) -> Option<u8>
        requires { place < size (forest_of self.now) }
        ensures { slice_get (parents None 0 (forest_of self.now)) place ≡ Some result }
    {
        cover(&self.here, &self.first, &self.behind, place)
    }

    /// Puts a node into the tree node of another node. The node is below [`NODE_LIMIT`] and not
    /// there, and the other is there. No node moves.
    pub fn merge(&mut self, node: u8, at: u8)
        requires { CanMake (forest_of self.old) (record { node = node; step = Step.Merge at }) }
        ensures made { self.new ≡ self.old ++ record { node = node; step = Step.Merge at } ∷ [] }
        ensures moves { (p : List ℕ) → Stands (forest_of self.old) at p
            → IsMoved (forest_of self.old) (forest_of self.new) stay node p }
    {
        self.first[node as usize] = self.first[at as usize];
        self.behind[node as usize] = self.behind[at as usize];
        self.here[node as usize] = true;
        self.made[self.count] = Made {
            node,
            step: Step::Merge(at),
        };
        self.count += 1;
    }

    /// Puts a node into a new tree node under that of another node, or among the roots, which takes
    /// over the children there from number `from` on up to but not including number `to`. The node
    /// is below [`NODE_LIMIT`] and not there, the other is there, `from` is at most `to`, and `to` at
    /// most the number of children. Nodes at or under the children that are taken go one down, and
    /// those to the right come closer.
    pub fn insert(&mut self, node: u8, under: Option<u8>, from: u8, to: u8)
        requires { CanMake (forest_of self.old) (record { node = node; step = Step.Insert under from to }) }
        ensures made { self.new ≡ self.old ++ record { node = node; step = Step.Insert under from to } ∷ [] }
        ensures moves { (base : List ℕ) → IsBase (forest_of self.old) under base
            → IsMoved (forest_of self.old) (forest_of self.new) (moved base from to) node (base ++ from ∷ []) }
    {
        let start = self.start(under);
        let ends = self.tree_ends();
        let place = self.skip(&ends, start, from);
        let end = self.skip(&ends, place, to - from);
        make_room(&self.here, &mut self.first, &mut self.behind, start, place);
        self.first[node as usize] = place;
        self.behind[node as usize] = end + 1;
        self.here[node as usize] = true;
        self.made[self.count] = Made {
            node,
            step: Step::Insert(under, from, to),
        };
        self.count += 1;
    }

    /// Takes the last step back: the forest is that of the steps before it.
    pub fn remove_last(&mut self)
        requires { 0 < length self.old }
        ensures { (m : Made) × (self.old ≡ self.new ++ m ∷ []) }
    {
        self.count -= 1;
        let made = self.made[self.count];
        let node = made.node as usize;
        self.here[node] = false;
        match made.step {
            Step::Merge(_) => {}
            Step::Insert(_, _, _) => {
                let place = self.first[node];
                close_room(&self.here, &mut self.first, &mut self.behind, place);
            }
        }
    }
}
