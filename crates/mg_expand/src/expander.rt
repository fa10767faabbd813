//! All expansions of a class, one after another.
ghost use Rattle.std.specs.Prelude.{◌≡◌, List, IfOk, OnErr, true, false};
ghost use Rattle.mg_scope.specs.Faults.{IsThere};
ghost use Rattle.mg_expand.specs.Walks.{Walk, AreExpansions};
ghost use Rattle.mg_expand.specs.Steps.{Steps, Fails, is_too_large};

use crate::step::Step;
use crate::walker::Walker;
use gr_base::Memory;
use gr_terms::Sym;
use gr_text::Budget;
use mg_scope::Resolved;
use std::alloc::Global;
use std::marker::Model;

/// The expansions of a class in the order of their choices. Contracts see the metagrammar, the
/// class, how many expansions were given, whether one was too large, and whether memory was
/// wanting.
#[derive(Drop)]
pub struct Expander<'a> {
    resolved: &'a Resolved,
    class: Sym,
    walker: Walker<'a>,
    given: u64,
    too_large: bool,
    failed: bool,
}

impl<'a> Model for Expander<'a> {
    ghost use Rattle.std.specs.Coded.{codes};
    ghost use Rattle.mg_syntax.specs.contracts.body.Statement as statement;
    ghost use Rattle.mg_syntax.specs.contracts.block.NodeBlock as block;
    ghost use Rattle.mg_syntax.specs.contracts.block.Kid as kid;
    ghost use Rattle.mg_expand.specs.Progress.{Progress};

    ghost Value = { Progress };

    ghost coded = { Prim.hlevel (codes, statement.the_row.coded, block.the_row.coded, kid.the_row.coded) };

    ghost use Rattle.mg_expand.specs.Ways.{IsUnderway};

    ghost view = { λ e. record {
      metagrammar = e.resolved.now;
      class = e.class;
      given = e.given;
      too_large = e.too_large;
      failed = e.failed;
    } };

    ghost invariant = { λ e. IsUnderway e.resolved.now e.class e.given e.too_large e.failed e.walker };
}

impl<'a> Expander<'a> {
    /// Stands before the first expansion of a class, which is there.
    pub fn new(alloc: Global, resolved: &'a Resolved, class: Sym) -> Result<Expander<'a>, Memory>
        requires { IsThere resolved.now class }
        ensures { IfOk result (λ e. e ≡ record {
          metagrammar = resolved.now;
          class = class;
          given = 0;
          too_large = false;
          failed = false;
        }) }
    {
        let walker = Walker::new(alloc, resolved, class)?;
        Ok(Expander {
            resolved,
            class,
            walker,
            given: 0,
            too_large: false,
            failed: false,
        })
    }

    /// The next expansion, for one unit of the budget. Where all were given, or the budget is 0,
    /// nothing changes. From the first one on that is too large each call answers so, and spends
    /// nothing. After want of memory each call answers that, and the budget has at most what it had.
    pub fn next(&mut self, budget: &mut Budget) -> Result<Step, Memory>
        ensures ok { IfOk result (λ s. (ws : List Walk) → AreExpansions self.old.metagrammar self.old.class ws
            → Steps ws self.old self.new budget.old.left budget.new.left s) }
        ensures err { OnErr result (Fails self.old self.new budget.old.left budget.new.left) }
    {
        if self.failed {
            return Err(Memory);
        }
        if self.too_large {
            return Ok(Step::TooLarge);
        }
        if self.walker.forks.is_empty() {
            return Ok(Step::End);
        }
        if !budget.spend() {
            return Ok(Step::Cut);
        }
        let Some(given) = self.given.checked_add(1) else {
            self.failed = true;
            return Err(Memory);
        };
        match self.walker.give(self.resolved) {
            Ok(step) => {
                self.given = given;
                self.too_large = is_too_large(&step);
                Ok(step)
            }
            Err(Memory) => {
                self.failed = true;
                Err(Memory)
            }
        }
    }
}

fn is_too_large(step: &Step) -> bool
    ensures { result ≡ is_too_large step.now }
{
    match step {
        Step::TooLarge => true,
        Step::Description(_) | Step::Clash | Step::End | Step::Cut => false,
    }
}
