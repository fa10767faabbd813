//! Laws of facts, as contracts of functions that do nothing.
ghost use Rattle.std.specs.Prelude.{◌≡◌, List};
ghost use Rattle.td_desc.specs.Descriptions.{Description};
ghost use Rattle.mg_facts.specs.declared.variable.Variable.{Variable};
ghost use Rattle.mg_facts.specs.Said.{Slot, Said};
ghost use Rattle.mg_facts.specs.Meanings.{Clashes, IsDescribed};

/// Facts that don't clash have at most one description over their variables.
pub fn one_description()
    ensures { (all : List Said) (a b : Description Variable Slot)
        → (Clashes all → ⊥) → IsDescribed all a → IsDescribed all b → a ≡ b }
{}
