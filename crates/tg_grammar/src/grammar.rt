//! Grammars and their refusals.
ghost use Rattle.std.specs.Prelude.{◌≡◌, ◌<◌, length, slice_get, Some, IfOk, IfSome, OnOk, IfErr, MatchOption};
ghost use Rattle.tg_grammar.specs.Grammars.{IsClassNamed, IsGrammar, IsRefusalOf, IsWellFormedClass, LacksClass, IsClassRefusal};
ghost use Rattle.tg_grammar.specs.Places.{ArePlaces, PutsFirst};

use crate::refusal::GrammarRefusal;
use crate::survey::first_flaw;
use gr_base::Memory;
use gr_terms::Sym;
use std::alloc::Global;
use std::collections::HashMap;
use std::marker::Model;
use td_canon::ClassTrees;

/// Classes whose trees are all well formed, seen as the list of these classes.
#[derive(Drop)]
pub struct Grammar {
    classes: Vec<ClassTrees>,
    // The place of the first class of each name.
    places: HashMap<u32, usize>,
}

impl Model for Grammar {
    ghost use Rattle.std.specs.Prelude.{List};
    ghost use Rattle.td_canon.specs.declared.tree_set.ClassTrees.{ClassTrees};
    ghost use Rattle.tg_grammar.specs.Grammars.{IsGrammar};
    ghost use Rattle.tg_grammar.specs.Places.{ArePlaces};

    ghost Value = { List ClassTrees };

    ghost view = { λ g. g.classes.items };

    ghost invariant = { λ g. IsGrammar g.classes.items × ArePlaces g.classes.items g.places };
}

/// Tests all trees of a class, in order.
fn check_class(class: &ClassTrees) -> Result<(), GrammarRefusal>
    ensures ok { OnOk result (IsWellFormedClass class.now) }
    ensures err { IfErr result (IsClassRefusal class.now) }
{
    for at in 0..class.trees.len() {
        if let Some(flaw) = first_flaw(class.trees.get(at)) {
            return Err(GrammarRefusal::Shape {
                code: flaw.code(),
                class: class.class,
                tree: at as u32 + 1,
            });
        }
    }
    Ok(())
}

/// Tests all classes, in order.
fn check_classes(classes: &[ClassTrees]) -> Result<(), GrammarRefusal>
    ensures ok { OnOk result (IsGrammar classes.now) }
    ensures err { IfErr result (IsRefusalOf classes.now) }
{
    for class in classes {
        check_class(class)?;
    }
    Ok(())
}

/// The place of the first class of each name.
fn first_places(alloc: Global, classes: &[ClassTrees]) -> Result<HashMap<u32, usize>, Memory>
    ensures { IfOk result (ArePlaces classes.now) }
{
    let mut places = HashMap::new(alloc);
    for place in 0..classes.len() {
        note(&mut places, classes[place].class, place)?;
    }
    Ok(places)
}

/// Puts a place at a name, where none stands there.
fn note(places: &mut HashMap<u32, usize>, name: Sym, place: usize) -> Result<(), Memory>
    ensures { OnOk result (PutsFirst places.old places.new name.0 place) }
{
    if !places.contains_key(&name.0) {
        places.insert(name.0, place)?;
    }
    Ok(())
}

impl Grammar {
    /// The grammar of these classes, or else the first refusal: of the first class that has a tree
    /// which isn't well formed, the first such tree, with the code of its first flaw.
    pub fn check(alloc: Global, classes: Vec<ClassTrees>) -> Result<Grammar, GrammarRefusal>
        ensures classes { IfOk result (λ grammar. grammar ≡ classes.items) }
        ensures grammar { OnOk result (IsGrammar classes.items) }
        ensures err { IfErr result (IsRefusalOf classes.items) }
    {
        check_classes(&classes)?;
        let places = first_places(alloc, &classes)?;
        Ok(Grammar { classes, places })
    }

    /// The number of classes.
    pub fn len(&self) -> usize
        ensures number { result ≡ length self.now }
        ensures grammar { IsGrammar self.now }
    {
        self.classes.len()
    }

    /// The class at a place, counted from 0.
    pub fn at(&self, place: usize) -> &ClassTrees
        requires { place < length self.now }
        ensures class { slice_get self.now place ≡ Some result.now }
        ensures well_formed { IsWellFormedClass result.now }
        ensures grammar { IsGrammar self.now }
    {
        &self.classes[place]
    }

    /// The first class of a name, or `None` where no class has it. Takes the same time however many
    /// classes there are.
    pub fn class(&self, name: Sym) -> Option<&ClassTrees>
        ensures class { MatchOption result (LacksClass self.now name) (λ class. IsClassNamed self.now name class.now) }
        ensures well_formed { IfSome result (λ class. IsWellFormedClass class.now) }
        ensures grammar { IsGrammar self.now }
    {
        match self.places.get(&name.0) {
            Some(place) => Some(&self.classes[*place]),
            None => None,
        }
    }
}
