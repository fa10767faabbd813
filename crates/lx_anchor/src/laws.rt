//! Laws of lexical trees, as contracts of functions that do nothing.
ghost use Rattle.std.specs.Prelude.{◌≡◌, ◌↔◌, ◌++◌, ◌∷◌, ◌⊎◌, [], ℕ, List};
ghost use Rattle.gr_base.specs.Lists.{Each};
ghost use Rattle.gr_terms.specs.Constants.{ANCHOR};
ghost use Rattle.gr_terms.specs.Networks.{Agrees, Assertion};
ghost use Rattle.td_tree.specs.Trees.{AreTreeNodes};
ghost use Rattle.td_tree.specs.TreeNetworks.{tree_network};
ghost use Rattle.td_tree.specs.TreeViews.{decorated_of};
ghost use Rattle.td_tree.specs.declared.Tree.{Tree};
ghost use Rattle.tg_grammar.specs.Marks.{marked, node_lists};
ghost use Rattle.lx_lexicon.specs.declared.entry.Entry.{Entry};
ghost use Rattle.lx_anchor.specs.Carrying.{IsOfKnown, IsOfKnownBeside, beside, carried, carried_beside};
ghost use Rattle.lx_anchor.specs.Networks.{Slot, Variable, anchored_network, anchored_tree};
ghost use Rattle.lx_anchor.specs.TreesOver.{IsTreeOver};

/// The network of a lexical tree's own lists agrees with further assertions over names and over what
/// is met exactly where the network of its tree and its entry does.
pub fn lexical_trees_carry_agreement()
    ensures { (t : Tree) (e : Entry) (new : Tree) (nodes : AreTreeNodes t.nodes) (anchor : ℕ) → marked ANCHOR (node_lists t.nodes) ≡ anchor ∷ []
        → (over : IsTreeOver (anchored_network nodes.forest t e) (anchored_tree nodes.forest t e) new) (more : List (Assertion Variable Slot))
        → Each (IsOfKnown (anchored_network nodes.forest t e) (anchored_tree nodes.forest t e)) more
        → Agrees (anchored_network nodes.forest t e ++ more)
        ↔ Agrees (tree_network (decorated_of over.nodes.forest new) ++ carried anchor over.written more) }
{}

/// The same where the further assertions speak of strangers too, such as the variables and slots of
/// other trees that this one is joined with: a stranger is `inr` of a number, and stays what it is.
pub fn agreement_is_carried_beside_strangers()
    ensures { (t : Tree) (e : Entry) (new : Tree) (nodes : AreTreeNodes t.nodes) (anchor : ℕ) → marked ANCHOR (node_lists t.nodes) ≡ anchor ∷ []
        → (over : IsTreeOver (anchored_network nodes.forest t e) (anchored_tree nodes.forest t e) new) (more : List (Assertion (Variable ⊎ ℕ) (Slot ⊎ ℕ)))
        → Each (IsOfKnownBeside (anchored_network nodes.forest t e) (anchored_tree nodes.forest t e)) more
        → Agrees (beside ℕ ℕ (anchored_network nodes.forest t e) ++ more)
        ↔ Agrees (beside ℕ ℕ (tree_network (decorated_of over.nodes.forest new)) ++ carried_beside anchor over.written more) }
{}
