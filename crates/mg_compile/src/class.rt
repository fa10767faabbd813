//! Compiles one class.
ghost use Rattle.std.specs.Prelude.{◌≡◌, ◌⊎◌, IfOk, IfErr};
ghost use Rattle.td_canon.specs.CanonicalTexts.{text_in};
ghost use Rattle.td_canon.specs.TreeSets.{IsWhole, texts_of};
ghost use Rattle.mg_syntax.specs.Names.{HasTexts};
ghost use Rattle.mg_scope.specs.Faults.{IsThere};
ghost use Rattle.gr_base.specs.Lists.{Each};
ghost use Rattle.mg_compile.specs.Compiled.{IsCompiledTree, IsRightList, IsClassFault};
ghost use Rattle.mg_compile.specs.declared.refusal.CompileRefusal.{CompileRefusal as Refused};

use crate::found::{Found, take};
use crate::refusal::CompileRefusal;
use gr_symbols::Symbols;
use gr_terms::Sym;
use gr_text::Budget;
use mg_expand::Expander;
use mg_expand::laws::{each_class_has_an_expansion, expansions_are_finite};
use mg_facts::laws::one_description;
use mg_scope::Resolved;
use std::alloc::Global;
use td_canon::{ClassTrees, TreeSet};

/// The trees of all minimal models of all expansions of a class, each text once, in byte order.
/// The budget pays one unit for each expansion and one for each forest model of its first nodes, and
/// where it is less than their number, the list may be cut. The first expansion that has more than
/// 4,096 calls and items, or else more than 24 nodes without a clash, is refused where as many as the
/// budget are gone through, also behind the place where the list is cut.
pub fn compile_class(
    alloc: Global,
    resolved: &Resolved,
    symbols: &Symbols,
    class: Sym,
    budget: u32,
) -> Result<ClassTrees, CompileRefusal>
    requires there { IsThere resolved.now class }
    requires texts { HasTexts symbols.now resolved.now }
    ensures class { IfOk result (λ t. t.class ≡ class) }
    ensures list { IfOk result (λ t. IsRightList (text_in symbols.now) resolved.now class budget (texts_of t.trees) t.cut) }
    ensures trees { IfOk result (λ t. Each (IsCompiledTree symbols.now resolved.now class) t.trees) }
    ensures whole { IfOk result (λ t. IsWhole symbols.now t.trees) }
    ensures faultless { IfOk result (λ t. (e : Refused) → IsClassFault resolved.now class budget e → ⊥) }
    ensures err { IfErr result (λ e. (e ≡ CompileRefusal.Memory) ⊎ IsClassFault resolved.now class budget e) }
{
    let mut expander = Expander::new(alloc, resolved, class)?;
    let mut looks = Budget { left: budget };
    let mut found = Found {
        trees: TreeSet::new(alloc),
        left: Budget { left: budget },
        cut: false,
    };
    resolved.valued();
    one_description();
    expansions_are_finite();
    each_class_has_an_expansion();
    loop {
        let step = expander.next(&mut looks)?;
        let more = take(alloc, symbols, class, &step, &mut found)?;
        if !more {
            return Ok(ClassTrees {
                class,
                trees: found.trees,
                cut: found.cut,
            });
        }
    }
}
