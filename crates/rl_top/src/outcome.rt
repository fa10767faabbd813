//! What a run writes for a metagrammar.
ghost use Rattle.std.specs.Prelude.{◌≡◌, ◌<◌, ℕ, List, length, map, IfOk, string_bytes};
ghost use Rattle.gr_base.specs.Lists.{Each};
ghost use Rattle.rl_refusals.specs.Lines.{HasTexts, IsRefusalLine};
ghost use Rattle.td_canon.specs.declared.tree_set.ClassTrees.{ClassTrees as Trees};
ghost use Rattle.tg_text.specs.GrammarText.{class_text_of, grammar_text};
ghost use Rattle.rl_top.specs.Outcomes.{IsEnding, IsOutcome};

use crate::compiling::compiled;
use crate::refusals::Stop;
use crate::status::Status;
use gr_base::Memory;
use gr_symbols::Symbols;
use rl_refusals::{Refusal, push_line};
use std::alloc::Global;
use td_canon::ClassTrees;
use tg_text::write_grammar;

/// How a run ends, and what it writes.
#[derive(Drop)]
pub struct Outcome {
    pub status: Status,
    pub text: String,
}

/// How a run ends that writes these classes.
fn ending(classes: &[ClassTrees]) -> Status
    ensures { (texts : List (List ℕ)) → IsEnding (map (class_text_of texts) classes.now) result }
{
    for class in classes {
        if class.cut {
            return Status::Shortened;
        }
    }
    Status::Done
}

/// The outcome of classes that were compiled.
fn written(alloc: Global, classes: &[ClassTrees], symbols: &Symbols) -> Result<Outcome, Memory>
    requires { Each (λ (c : Trees). c.class.0 < length symbols.now) classes.now }
    ensures text { IfOk result (λ o. string_bytes o.text ≡ grammar_text (map (class_text_of symbols.now) classes.now)) }
    ensures status { IfOk result (λ o. IsEnding (map (class_text_of symbols.now) classes.now) o.status) }
{
    let text = write_grammar(alloc, classes, symbols)?;
    Ok(Outcome {
        status: ending(classes),
        text,
    })
}

/// The outcome of a refusal.
fn refused(alloc: Global, refusal: &Refusal, symbols: &Symbols) -> Result<Outcome, Memory>
    requires { HasTexts symbols.now refusal.now }
    ensures text { IfOk result (λ o. IsRefusalLine symbols.now refusal.now (string_bytes o.text)) }
    ensures status { IfOk result (λ o. o.status ≡ Status.Refused) }
{
    let mut text = String::new(alloc);
    push_line(&mut text, refusal, symbols)?;
    Ok(Outcome {
        status: Status::Refused,
        text,
    })
}

/// The right status and text for a metagrammar of these bytes, under a budget for each class.
pub fn outcome_of(alloc: Global, bytes: &[u8], models: u32) -> Result<Outcome, Memory>
    ensures { IfOk result (λ o. IsOutcome bytes.now models o.status (string_bytes o.text)) }
{
    let mut symbols = Symbols::new(alloc)?;
    match compiled(alloc, bytes, models, &mut symbols) {
        Ok(classes) => written(alloc, classes.as_slice(), &symbols),
        Err(Stop::Refused(refusal)) => refused(alloc, &refusal, &symbols),
        Err(Stop::Memory) => Err(Memory),
    }
}
