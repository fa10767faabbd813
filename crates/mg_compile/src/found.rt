//! What was found of a class so far.
ghost use Rattle.std.specs.Prelude.{◌≡◌, ◌≤◌, length, OnOk, IfOk, IfErr, ◌⊎◌};
ghost use Rattle.std.specs.Bool.{OnTrue, OnFalse};
ghost use Rattle.td_canon.specs.TreeSets.{IsWhole};
ghost use Rattle.td_desc.specs.Conditions.{IsNumbered};
ghost use Rattle.td_forest.specs.Limits.{node_limit};
ghost use Rattle.td_model.specs.ModelTrees.{IsNamedDescription};
ghost use Rattle.mg_compile.specs.Taking.{Paid, LacksUnits, Searched, Took, Refuses, IsFit};
ghost use Rattle.mg_compile.specs.declared.refusal.CompileRefusal.TheVariants as CompileRefusal;

use crate::refusal::CompileRefusal;
use gr_base::Memory;
use gr_symbols::Symbols;
use gr_terms::Sym;
use gr_text::Budget;
use mg_expand::Step;
use std::alloc::Global;
use td_canon::TreeSet;
use td_desc::Description;
use td_forest::NODE_LIMIT;
use td_solver::{Solved, solve};

/// What was found of the expansions that were gone through so far.
#[derive(Drop)]
pub struct Found {
    /// The trees.
    pub trees: TreeSet,
    /// What may still be spent.
    pub left: Budget,
    /// Whether units were wanting for an expansion. Then none is left, and nothing more is searched.
    pub cut: bool,
}

/// Pays one unit for an expansion, and answers whether there was one. Else the class is cut.
fn pay(found: &mut Found) -> bool
    ensures paid { OnTrue result (Paid found.old found.new) }
    ensures none { OnFalse result (LacksUnits found.old found.new) }
{
    if found.left.spend() {
        return true;
    }
    found.cut = true;
    false
}

/// Pays for an expansion, and adds the trees of its minimal models as far as units allow.
fn search(
    alloc: Global,
    symbols: &Symbols,
    d: &Description,
    found: &mut Found,
) -> Result<(), Memory>
    requires few { length d.now.nodes ≤ node_limit }
    requires numbered { IsNumbered d.now }
    requires named { IsNamedDescription (length symbols.now) d.now }
    ensures searched { OnOk result (Searched symbols.now d.now found.old found.new) }
    ensures whole { IsWhole symbols.now found.old.trees → IsWhole symbols.now found.new.trees }
{
    if !pay(found) {
        return Ok(());
    }
    match solve(alloc, d, symbols, &mut found.left, &mut found.trees)? {
        Solved::All => Ok(()),
        Solved::Cut => {
            found.cut = true;
            Ok(())
        }
    }
}

/// Takes an answer of an expander, and tells whether another one is to come.
pub fn take(
    alloc: Global,
    symbols: &Symbols,
    class: Sym,
    step: &Step,
    found: &mut Found,
) -> Result<bool, CompileRefusal>
    requires fit { IsFit (length symbols.now) step.now }
    ensures took { IfOk result (λ more. Took symbols.now step.now found.old found.new more) }
    ensures whole { IsWhole symbols.now found.old.trees → IsWhole symbols.now found.new.trees }
    ensures err { IfErr result (λ e. (e ≡ CompileRefusal.Memory) ⊎ Refuses class step.now e) }
{
    match step {
        Step::Description(d) => {
            if d.count() > NODE_LIMIT {
                return Err(CompileRefusal::TooManyNodes(class));
            }
            search(alloc, symbols, d, found)?;
            Ok(true)
        }
        Step::Clash => {
            pay(found);
            Ok(true)
        }
        Step::TooLarge => Err(CompileRefusal::TooLarge(class)),
        Step::End => Ok(false),
        Step::Cut => {
            found.cut = true;
            Ok(false)
        }
    }
}
