//! Laws of facts, as contracts of functions that do nothing.
ghost use Rattle.std.specs.Prelude.{List};
ghost use Rattle.td_desc.specs.Descriptions.{Description};
ghost use Rattle.gr_base.specs.Decisions.{IsDecided};
ghost use Rattle.mg_facts.specs.declared.variable.Variable.{Variable};
ghost use Rattle.mg_facts.specs.Said.{Slot, Said};
ghost use Rattle.mg_facts.specs.Meanings.{AreIdentified, Clashes, IsDescribed};

/// It is decided which variables are one, and whether facts clash.
pub fn clashes_are_decided()
    ensures identified { (all : List Said) (x y : Variable) → IsDecided (AreIdentified all x y) }
    ensures clashes { (all : List Said) → IsDecided (Clashes all) }
{}

/// Facts have a description over their variables. Those that don't clash have no other one.
pub fn facts_are_described()
    ensures { (all : List Said) → (d : Description Variable Slot) × IsDescribed all d }
{}
