//! From the bytes of a metagrammar to the trees of its valued classes.
ghost use Rattle.std.specs.Prelude.{◌≡◌, ◌<◌, ◌++◌, ◌∷◌, [], ⊤, ℕ, List, map, length, IfErr, IfOk, OnOk};
ghost use Rattle.gr_base.specs.Lists.{Each};
ghost use Rattle.gr_symbols.specs.Numbers.{first_texts};
ghost use Rattle.mg_syntax.specs.Names.{HasTexts};
ghost use Rattle.mg_scope.specs.Classes.{valued_classes};
ghost use Rattle.mg_scope.specs.Faults.{IsFirstFault, IsScoped, IsThere};
ghost use Rattle.mg_scope.specs.declared.refusal.ScopeRefusal.{ScopeRefusal as Unscoped};
ghost use Rattle.mg_compile.specs.Compiled.{IsClassFault};
ghost use Rattle.std.specs.List.{AllZip};
ghost use Rattle.mg_syntax.specs.declared.item.Item.{Item};
ghost use Rattle.mg_compile.specs.declared.refusal.CompileRefusal.{CompileRefusal as Uncompiled};
ghost use Rattle.rl_refusals.specs.Lines.{HasTexts as HasRefusalTexts};
ghost use Rattle.td_canon.specs.declared.tree_set.ClassTrees.{ClassTrees as Trees};
ghost use Rattle.tg_text.specs.GrammarText.{class_text_of};
ghost use Rattle.rl_top.specs.Outcomes.{AreClassTexts, IsFirstClassFault, IsGood, IsNumbering};
ghost use Rattle.rl_top.specs.Refusals.{IsOfCompiling, IsOfScope};
ghost use Rattle.rl_top.specs.Compiling.{IsCompiled, IsRefusedFile};
ghost use Rattle.rl_top.specs.Stops.{Stops};

use crate::refusals::{Stop, unread};
use gr_symbols::Symbols;
use gr_terms::Sym;
use gr_text::BYTE_LIMIT;
use mg_compile::compile_class;
use mg_reader::read_metagrammar;
use mg_scope::{Resolved, resolve};
use mg_syntax::Metagrammar;
use rl_refusals::{Refusal, Role};
use std::alloc::Global;
use td_canon::ClassTrees;

/// The metagrammar, where it keeps the rules of scope.
fn scoped(alloc: Global, metagrammar: Metagrammar) -> Result<Resolved, Stop>
    ensures ok { IfOk result (λ r. (r ≡ metagrammar) × IsScoped metagrammar) }
    ensures refused { IfErr result (λ s. Stops ⊤ (λ r. (e : Unscoped) × IsFirstFault metagrammar e × IsOfScope e r) s) }
{
    Ok(resolve(alloc, metagrammar)?)
}

/// The metagrammar that the bytes spell, where it keeps the rules of scope. Its names get their
/// numbers in a table that has the first texts alone.
fn resolved(alloc: Global, bytes: &[u8], symbols: &mut Symbols) -> Result<Resolved, Stop>
    requires { symbols.old ≡ first_texts }
    ensures numbered { IfOk result (λ r. IsNumbering bytes.now symbols.new) }
    ensures good { IfOk result (λ r. IsGood bytes.now symbols.new r) }
    ensures named { IfOk result (λ r. HasTexts symbols.new r) }
    ensures refused { IfErr result (λ s. Stops ⊤ (λ r. (models : ℕ) → IsRefusedFile bytes.now models symbols.new r) s) }
{
    if BYTE_LIMIT < bytes.len() {
        return Err(Stop::Refused(Refusal::TooLong(Role::Metagrammar)));
    }
    match read_metagrammar(alloc, bytes, symbols) {
        Ok(metagrammar) => scoped(alloc, metagrammar),
        Err(error) => Err(unread(error)),
    }
}

/// Appends the trees of a class.
fn push_trees(
    classes: &mut Vec<ClassTrees>,
    resolved: &Resolved,
    symbols: &Symbols,
    class: Sym,
    models: u32,
) -> Result<(), Stop>
    requires there { IsThere resolved.now class }
    requires named { class.0 < length symbols.now }
    requires texts { HasTexts symbols.now resolved.now }
    ensures pushed { OnOk result ((t : Trees) × IsCompiled symbols.now resolved.now models class t × (classes.new.items ≡ classes.old.items ++ t ∷ [])) }
    ensures refused { IfErr result (λ s. Stops ⊤ (λ r. (e : Uncompiled) × IsClassFault resolved.now class models e × IsOfCompiling e r) s) }
{
    let trees = compile_class(*classes.allocator(), resolved, symbols, class, models)?;
    match classes.push(trees) {
        Ok(()) => Ok(()),
        Err(_) => Err(Stop::Memory),
    }
}

/// The trees of the valued classes, in the order of their first valuations, or the first refusal.
fn valued_trees(
    alloc: Global,
    resolved: &Resolved,
    symbols: &Symbols,
    models: u32,
) -> Result<Vec<ClassTrees>, Stop>
    requires { HasTexts symbols.now resolved.now }
    ensures compiled { IfOk result (λ ts. AllZip (IsCompiled symbols.now resolved.now models) (valued_classes resolved.now) ts.items) }
    ensures refused { IfErr result (λ s. Stops ⊤ (λ r. (e : Uncompiled) × IsFirstClassFault resolved.now models e × IsOfCompiling e r × HasRefusalTexts symbols.now r) s) }
{
    let mut classes = Vec::new(alloc);
    for class in resolved.valued() {
        push_trees(&mut classes, resolved, symbols, *class, models)?;
    }
    Ok(classes)
}

/// The trees of the valued classes of the metagrammar that the bytes spell, or the first refusal.
pub fn compiled(
    alloc: Global,
    bytes: &[u8],
    models: u32,
    symbols: &mut Symbols,
) -> Result<Vec<ClassTrees>, Stop>
    requires { symbols.old ≡ first_texts }
    ensures numbered { IfOk result (λ cs. IsNumbering bytes.now symbols.new) }
    ensures written { IfOk result (λ cs. (m : List Item) × IsGood bytes.now symbols.new m × AreClassTexts symbols.new m models (map (class_text_of symbols.new) cs.items)) }
    ensures named { IfOk result (λ cs. Each (λ (c : Trees). c.class.0 < length symbols.new) cs.items) }
    ensures refused { IfErr result (λ s. Stops ⊤ (IsRefusedFile bytes.now models symbols.new) s) }
{
    let resolved = resolved(alloc, bytes, symbols)?;
    valued_trees(alloc, &resolved, symbols, models)
}
