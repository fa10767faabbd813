//! Laws of descriptions, as contracts of functions that do nothing.
ghost use Rattle.std.specs.Prelude.{◌≡◌, ◌<◌, ℕ, List, Some, length, slice_get};
ghost use Rattle.gr_base.specs.Lists.{IsAmong};
ghost use Rattle.gr_terms.specs.declared.Assertion.{Assertion};
ghost use Rattle.gr_terms.specs.declared.Literal.{Literal};
ghost use Rattle.td_desc.specs.declared.Description.{Description};
ghost use Rattle.td_desc.specs.declared.DescribedNode.{DescribedNode};
ghost use Rattle.td_desc.specs.declared.Related.{Related};
ghost use Rattle.td_desc.specs.Conditions.{IsNumbered, InSearchOrder, AreSlotsBelow, Mentions, SaysOf, colour_rank};
ghost use Rattle.td_desc.specs.Descriptions.{description_of, node_of};

/// In search order a node of an earlier colour stands before one of a later colour.
pub fn colours_stand_in_order()
    ensures { (nodes : List DescribedNode) (x y : ℕ) (n m : DescribedNode) → InSearchOrder nodes
        → slice_get nodes x ≡ Some n → slice_get nodes y ≡ Some m
        → colour_rank n.colour < colour_rank m.colour → x < y }
{}

/// Each number in a numbered description is below that of its kind.
pub fn numbers_are_below()
    ensures nodes { (d : Description) (x : ℕ) (n : DescribedNode) → IsNumbered d
        → slice_get d.nodes x ≡ Some n → AreSlotsBelow d.slots n }
    ensures from { (d : Description) (x : ℕ) (r : Related) → IsNumbered d
        → slice_get d.relations x ≡ Some r → r.from < length d.nodes }
    ensures to { (d : Description) (x : ℕ) (r : Related) → IsNumbered d
        → slice_get d.relations x ≡ Some r → r.to < length d.nodes }
    ensures network { (d : Description) (a : Assertion) → IsNumbered d
        → IsAmong d.network a → Mentions d.vars d.slots a }
    ensures literals { (d : Description) (l : Literal) → IsNumbered d
        → IsAmong d.sem l → SaysOf d.vars l }
{}

/// A description read at numbers has each node at its place.
pub fn reading_keeps_places()
    ensures number { (d : Description) → length (description_of d).nodes ≡ length d.nodes }
    ensures nodes { (d : Description) (x : ℕ) (n : DescribedNode)
        → slice_get d.nodes x ≡ Some n → slice_get (description_of d).nodes x ≡ Some (node_of n) }
{}
