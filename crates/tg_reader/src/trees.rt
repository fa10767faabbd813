//! Reads a whole tree.
ghost use Rattle.std.specs.Prelude.{◌≡◌, ℕ, List, [], IfOk};
ghost use Rattle.gr_symbols.specs.Numbers.{Grows, first_texts};
ghost use Rattle.td_canon.specs.TreeText.{decorated_text};
ghost use Rattle.td_tree.specs.Trees.{AreTreeNodes};
ghost use Rattle.tg_reader.specs.Naming.{form_names};
ghost use Rattle.tg_reader.specs.Reading.{CanReadTree, Gets, IsKnownTree, Later, Passes, StandsForTree, Undoes};

use crate::reader::{Reader, Stop};
use gr_base::Items;
use gr_symbols::Symbols;
use gr_terms::Bag;
use std::alloc::Global;
use td_tree::Tree;

impl<'a> Reader<'a> {
    /// Takes a tree.
    pub fn tree(&mut self, alloc: Global, symbols: &mut Symbols) -> Result<Tree, Stop>
        ensures takes { (text : ℕ → List ℕ) → Undoes (decorated_text text) (CanReadTree text) (λ rest. rest ≡ []) self.old.rest.now self.new.rest.now result
            (λ c t. Gets symbols.old symbols.new (form_names text c) (λ texts. StandsForTree text texts c t)) }
        ensures known { IfOk result (λ t. Grows first_texts symbols.old → Later symbols.new (IsKnownTree t)) }
        ensures nodes { IfOk result (λ t. AreTreeNodes t.nodes) }
        ensures passes { Passes symbols.old symbols.new self.old.rest.now self.new.rest.now }
    {
        let mut nodes = Items::new(alloc);
        self.node(alloc, &mut nodes, None, symbols)?;
        let mut iface = Bag::new(alloc);
        self.enclosed(b" iface[", &mut iface, b"]", symbols)?;
        let sem = self.literals(alloc, symbols)?;
        Ok(Tree { nodes, iface, sem })
    }
}
