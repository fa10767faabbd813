//! Selects all instances.
ghost use Rattle.std.specs.Prelude.{◌≡◌, ◌≤◌, [], length, IfOk, OnOk};
ghost use Rattle.gr_base.specs.Lists.{Each};
ghost use Rattle.td_tree.specs.Trees.{AreTreeNodes};
ghost use Rattle.tg_model.specs.LexicalTrees.{AreLexical};
ghost use Rattle.tg_model.specs.Selections.{IsSelectionOf};
ghost use Rattle.gr_terms.specs.LiteralViews.{AreConst};
ghost use Rattle.sm_match.specs.Answers.{IsAnswer};
ghost use Rattle.sm_match.specs.Index.{IsIndex};
ghost use Rattle.sm_match.specs.Listings.{Finds};
ghost use Rattle.sm_match.specs.Tasks.{GoesOnFrom};

use crate::copy::copied_literals;
use crate::index::Index;
use crate::refusal::SelectRefusal;
use crate::search::{State, Task, extend, has_places};
use gr_base::Items;
use gr_terms::Literal;
use sm_input::Input;
use std::alloc::Global;
use td_tree::{Tree, bags_are_listed};
use tg_model::{LexicalTrees, Selection};

/// Finds all instances of the lexical tree with this number. A number that is too large for an
/// instance is want of memory.
fn select_tree(
    alloc: Global,
    tree: &Tree,
    number: usize,
    input: &[Literal],
    index: &Index,
    state: &mut State,
) -> Result<(), SelectRefusal>
    requires nodes { AreTreeNodes tree.now.nodes }
    requires ground { Each AreConst input.now }
    requires few { length input.now ≤ 24 }
    requires index { IsIndex input.now index.now }
    requires places { state.old.places.items ≡ [] }
    requires bindings { state.old.bindings.items ≡ [] }
    ensures finds { Finds (GoesOnFrom input.now tree.now number []) state.old.found state.new.found result }
    ensures places { OnOk result (state.new.places.items ≡ []) }
    ensures bindings { OnOk result (state.new.bindings.items ≡ []) }
{
    if !has_places(tree, input, index) {
        return Ok(());
    }
    let Ok(number) = u32::try_from(number) else {
        return Err(SelectRefusal::Memory);
    };
    bags_are_listed(tree);
    let task = Task {
        tree,
        number,
        input,
        index,
    };
    extend(&task, alloc, state, 0)
}

/// All instances of the lexical trees over the literals of the input, by lexical tree and then by the
/// list of places, or the answer that they are too many. The lexical trees have to be well formed and
/// to have literals and names as marks, and the input's literals have to be without variables, at most
/// 24. What else the input says isn't looked at. A tree that has more literals of one predicate than
/// the input has costs no search.
pub fn select(
    alloc: Global,
    trees: &LexicalTrees,
    input: &Input,
) -> Result<Selection, SelectRefusal>
    requires lexical { AreLexical trees.now }
    requires ground { Each AreConst input.now.literals }
    requires few { length input.now.literals ≤ 24 }
    ensures answer { IsAnswer trees.now input.now.literals result }
    ensures selection { IfOk result (IsSelectionOf trees.now) }
{
    let literals = input.literals.as_slice();
    let index = Index::new(alloc, literals)?;
    let mut state = State {
        places: Vec::new(alloc),
        bindings: Vec::new(alloc),
        found: Items::new(alloc),
    };
    for number in 0..trees.len() {
        let tree = &trees.get(number).tree;
        select_tree(alloc, tree, number, literals, &index, &mut state)?;
    }
    let literals = copied_literals(alloc, literals)?;
    Ok(Selection {
        instances: state.found,
        literals,
    })
}
