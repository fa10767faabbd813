//! Reads nodes.
ghost use Rattle.std.specs.Prelude.{◌≡◌, ℕ, List, ◌≤◌, ◌++◌, ◌∷◌, [], ⊤, Some, length, IfOk, OnOk};
ghost use Rattle.std.specs.List.{join_with_byte};
ghost use Rattle.gr_base.specs.Lists.{gathered};
ghost use Rattle.gr_symbols.specs.Numbers.{Grows, first_texts};
ghost use Rattle.td_canon.specs.TreeText.{category_text, node_text, tree_texts};
ghost use Rattle.td_canon.specs.Writing.{slots_of};
ghost use Rattle.tg_reader.specs.declared.reader.Run.TheVariants.{Word as OfWord};
ghost use Rattle.tg_reader.specs.Naming.{forest_names, label_names, node_names};
ghost use Rattle.tg_reader.specs.Reading.{AppendsForest, AreKnownNodes, CanReadCategory, CanReadNode, CanReadOne, CanReadRow, Ends, Gets, IsKnownBag, IsKnownNode, IsNodeEnd, IsTreeEnd, Later, Lays, LaysOne, Passes, StandsForCategory, StandsForNode, Undoes};

use crate::reader::{Reader, Stop};
use gr_symbols::Symbols;
use gr_terms::{Bag, CAT};
use std::alloc::Global;
use td_tree::{TreeNode, TreeNodes};

/// The most nodes of a tree.
const NODE_LIMIT: usize = 24;

impl<'a> Reader<'a> {
    /// Takes a category, or `-`. Gives the bag with the category alone, or an empty one.
    fn category(&mut self, alloc: Global, symbols: &mut Symbols) -> Result<Bag, Stop>
        ensures takes { (text : ℕ → List ℕ) → Undoes (category_text text) (CanReadCategory text) (Ends OfWord) self.old.rest.now self.new.rest.now result
            (λ vs bag. Gets symbols.old symbols.new (gathered (label_names text) vs) (λ texts. StandsForCategory text texts vs bag)) }
        ensures known { IfOk result (λ bag. Grows first_texts symbols.old → Later symbols.new (IsKnownBag bag)) }
        ensures passes { Passes symbols.old symbols.new self.old.rest.now self.new.rest.now }
    {
        let mut own = Bag::new(alloc);
        if self.eat(b"-") {
            return Ok(own);
        }
        let category = self.term(symbols)?;
        let _added = own.add(CAT, category)?;
        Ok(own)
    }

    /// Takes what stands at a node.
    fn labelled(
        &mut self,
        alloc: Global,
        parent: Option<u8>,
        symbols: &mut Symbols,
    ) -> Result<TreeNode, Stop>
        ensures takes { (text : ℕ → List ℕ) → Undoes (node_text text) (CanReadNode text) IsNodeEnd self.old.rest.now self.new.rest.now result
            (λ n node. Gets symbols.old symbols.new (node_names text n) (λ texts. StandsForNode text texts n (slots_of node))) }
        ensures known { IfOk result (λ node. Grows first_texts symbols.old → Later symbols.new (λ texts. IsKnownNode texts node)) }
        ensures parent { IfOk result (λ node. node.parent ≡ parent) }
        ensures passes { Passes symbols.old symbols.new self.old.rest.now self.new.rest.now }
    {
        let mut own = self.category(alloc, symbols)?;
        self.enclosed(b"{", &mut own, b"}", symbols)?;
        let mut top = Bag::new(alloc);
        self.enclosed(b"^[", &mut top, b"]", symbols)?;
        let mut bot = Bag::new(alloc);
        self.enclosed(b"/[", &mut bot, b"]", symbols)?;
        Ok(TreeNode {
            parent,
            own,
            top,
            bot,
        })
    }

    /// Takes a node and those under it, and appends them.
    #[cycle(nodes)]
    pub fn node(
        &mut self,
        alloc: Global,
        nodes: &mut TreeNodes,
        parent: Option<u8>,
        symbols: &mut Symbols,
    ) -> Result<(), Stop>
        ensures takes { (text : ℕ → List ℕ) → Undoes (λ f. join_with_byte 32 (tree_texts text f)) (CanReadOne text (length nodes.old)) IsTreeEnd self.old.rest.now self.new.rest.now result
            (λ f _. Gets symbols.old symbols.new (forest_names text f) (λ texts. AppendsForest text texts parent f nodes.old nodes.new)) }
        ensures known { OnOk result (Grows first_texts symbols.old → Later symbols.old (AreKnownNodes nodes.old) → Later symbols.new (AreKnownNodes nodes.new)) }
        ensures lays { OnOk result (LaysOne parent nodes.old nodes.new) }
        ensures few { OnOk result (length nodes.new ≤ 24) }
        ensures passes { Passes symbols.old symbols.new self.old.rest.now self.new.rest.now }
    {
        let number = nodes.len();
        if number >= NODE_LIMIT {
            return Err(Stop::NoTree);
        }
        let node = self.labelled(alloc, parent, symbols)?;
        nodes.push(node)?;
        if self.eat(b"(") {
            self.kids(alloc, nodes, number as u8, symbols)
        } else {
            Ok(())
        }
    }

    /// Takes nodes with spaces between them, each with those under it, and the `)` behind them, and
    /// appends them.
    #[cycle(nodes)]
    fn kids(
        &mut self,
        alloc: Global,
        nodes: &mut TreeNodes,
        parent: u8,
        symbols: &mut Symbols,
    ) -> Result<(), Stop>
        requires { length nodes.old ≤ 24 }
        ensures takes { (text : ℕ → List ℕ) → Undoes (λ f. join_with_byte 32 (tree_texts text f) ++ 41 ∷ []) (CanReadRow text (length nodes.old)) (λ rest. ⊤)
            self.old.rest.now self.new.rest.now result (λ f _. Gets symbols.old symbols.new (forest_names text f) (λ texts. AppendsForest text texts (Some parent) f nodes.old nodes.new)) }
        ensures known { OnOk result (Grows first_texts symbols.old → Later symbols.old (AreKnownNodes nodes.old) → Later symbols.new (AreKnownNodes nodes.new)) }
        ensures lays { OnOk result (Lays (Some parent) nodes.old nodes.new) }
        ensures few { OnOk result (length nodes.new ≤ 24) }
        ensures passes { Passes symbols.old symbols.new self.old.rest.now self.new.rest.now }
    {
        self.node(alloc, nodes, Some(parent), symbols)?;
        'row: while self.eat(b" ") {
            self.node(alloc, nodes, Some(parent), symbols)?;
        }
        self.expect(b")")
    }
}
