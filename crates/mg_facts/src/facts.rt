//! The facts that an expansion states.
ghost use Rattle.std.specs.Prelude.{◌≡◌, ◌+◌, ◌*◌, ◌<◌, ◌≤◌, [], ◌∷◌, ◌++◌, length, map, take, OnOk, OnErr, IfOk, MatchOption};
ghost use Rattle.gr_terms.specs.Networks.{variable};
ghost use Rattle.mg_facts.specs.Said.{own_of, top_of, bottom_of, block, related, one_node, identified, is_name, coloured, paired, says, slot_of, term_of};
ghost use Rattle.mg_facts.specs.Meanings.{Clashes, IsDescriptionOf};
ghost use Rattle.mg_facts.specs.Numbered.{Keeps, IsFresh, States, StatesNothing, slot_variable, variable_in, named_slot, read_term, read_terms};
ghost use Rattle.gr_base.specs.Lists.{Each, gathered};
ghost use Rattle.td_desc.specs.Conditions.{IsTermBelow};

use crate::describe::describe;
use crate::fact::{Fact, INTERFACE, bottom_slot, own_slot, top_slot};
use crate::stated::Stated;
use crate::variable::{Place, Value, Variable};
use gr_base::{Items, Memory};
use gr_terms::{Literal, SlotId, Sym, Term, Terms};
use std::alloc::Global;
use std::marker::Model;
use td_desc::{Colour, Description, Dominance};

/// The facts that an expansion stated so far. Contracts see the list of what was said, in order.
/// Where memory is wanting, nothing is stated and the list stays as it was.
#[derive(Drop)]
pub struct Facts {
    stated: Stated,
}

impl Model for Facts {
    ghost use Rattle.std.specs.Prelude.{◌≡◌, List, length};
    ghost use Rattle.mg_facts.specs.Said.{Said};

    ghost Value = { List Said };

    ghost use Rattle.mg_facts.specs.Numbered.{all_said};

    ghost view = { λ f. all_said f.stated.names f.stated.facts };

    ghost invariant = { λ f. f.stated.used ≡ length f.stated.names };
}

impl Facts {
    /// No fact.
    pub fn new(alloc: Global) -> Result<Facts, Memory>
        ensures { IfOk result (λ facts. facts ≡ []) }
    {
        Ok(Facts {
            stated: Stated::new(alloc)?,
        })
    }

    /// The number of facts.
    pub fn count(&self) -> usize
        ensures { result ≡ length self.now }
    {
        self.stated.facts().len()
    }

    /// Takes back all but the first facts.
    pub fn keep(&mut self, count: usize)
        requires { count ≤ length self.old }
        ensures { self.new ≡ take count self.old }
    {
        self.stated.keep(count);
    }

    /// A node block stands for the variable.
    pub fn state_block(&mut self, x: Variable) -> Result<(), Memory>
        ensures ok { OnOk result (self.new ≡ self.old ++ block x ∷ []) }
        ensures err { OnErr result (self.new ≡ self.old) }
    {
        let done = add_block(&mut self.stated, x);
        self.stated.forget();
        done
    }

    /// The nodes of two variables stand in the relation.
    pub fn state_relation(&mut self, x: Variable, how: Dominance, y: Variable) -> Result<(), Memory>
        ensures ok { OnOk result (self.new ≡ self.old ++ related x how y ∷ []) }
        ensures err { OnErr result (self.new ≡ self.old) }
    {
        let done = add_relation(&mut self.stated, x, how, y);
        self.stated.forget();
        done
    }

    /// The two are one node.
    pub fn state_one_node(&mut self, x: Variable, y: Variable) -> Result<(), Memory>
        ensures ok { OnOk result (self.new ≡ self.old ++ one_node x y ∷ []) }
        ensures err { OnErr result (self.new ≡ self.old) }
    {
        let done = add_one_node(&mut self.stated, x, y);
        self.stated.forget();
        done
    }

    /// The two are one variable.
    pub fn state_identity(&mut self, x: Variable, y: Variable) -> Result<(), Memory>
        ensures ok { OnOk result (self.new ≡ self.old ++ identified x y ∷ []) }
        ensures err { OnErr result (self.new ≡ self.old) }
    {
        let done = add_identity(&mut self.stated, x, y);
        self.stated.forget();
        done
    }

    /// The variable is the name.
    pub fn state_name(&mut self, x: Variable, a: Sym) -> Result<(), Memory>
        ensures ok { OnOk result (self.new ≡ self.old ++ is_name x a.0 ∷ []) }
        ensures err { OnErr result (self.new ≡ self.old) }
    {
        let done = add_name(&mut self.stated, x, a);
        self.stated.forget();
        done
    }

    /// The node of the variable has the colour.
    pub fn state_colour(&mut self, x: Variable, c: Colour) -> Result<(), Memory>
        ensures ok { OnOk result (self.new ≡ self.old ++ coloured x c ∷ []) }
        ensures err { OnErr result (self.new ≡ self.old) }
    {
        let done = add_colour(&mut self.stated, x, c);
        self.stated.forget();
        done
    }

    /// The pair stands at the place.
    pub fn state_pair(&mut self, place: Place, attr: Sym, value: Value) -> Result<(), Memory>
        ensures ok { OnOk result (self.new ≡ self.old ++ paired (slot_of place) attr.0 (term_of value) ∷ []) }
        ensures err { OnErr result (self.new ≡ self.old) }
    {
        let done = add_pair(&mut self.stated, place, attr, value);
        self.stated.forget();
        done
    }

    /// The literal is said.
    pub fn state_literal(
        &mut self,
        handle: Value,
        pred: Value,
        args: &[Value],
    ) -> Result<(), Memory>
        ensures ok { OnOk result (self.new ≡ self.old ++ says (record {
          handle = term_of handle;
          pred = term_of pred;
          args = map term_of args.now;
        }) ∷ []) }
        ensures err { OnErr result (self.new ≡ self.old) }
    {
        let done = add_literal(&mut self.stated, handle, pred, args);
        self.stated.forget();
        done
    }

    /// `None` exactly where the facts clash, else their description.
    pub fn describe(&self, alloc: Global) -> Result<Option<Description>, Memory>
        ensures { IfOk result (λ answer. MatchOption answer
            (Clashes self.now)
            (λ d. (Clashes self.now → ⊥) × IsDescriptionOf self.now d)) }
    {
        describe(&self.stated, alloc)
    }
}

/// States that a node block stands for the variable.
fn add_block(stated: &mut Stated, x: Variable) -> Result<(), Memory>
    requires { stated.old.used ≡ length stated.old.names }
    ensures ok { OnOk result (States stated.old stated.new (block x)) }
    ensures err { OnErr result (StatesNothing stated.old stated.new) }
{
    let x = stated.number(x)?;
    stated.state(Fact::Block(x))
}

/// States a relation.
fn add_relation(stated: &mut Stated, x: Variable, how: Dominance, y: Variable) -> Result<(), Memory>
    requires { stated.old.used ≡ length stated.old.names }
    ensures ok { OnOk result (States stated.old stated.new (related x how y)) }
    ensures err { OnErr result (StatesNothing stated.old stated.new) }
{
    let x = stated.number(x)?;
    let y = stated.number(y)?;
    stated.state(Fact::Related(x, how, y))
}

/// States that the two are one node.
fn add_one_node(stated: &mut Stated, x: Variable, y: Variable) -> Result<(), Memory>
    requires { stated.old.used ≡ length stated.old.names }
    ensures ok { OnOk result (States stated.old stated.new (one_node x y)) }
    ensures err { OnErr result (StatesNothing stated.old stated.new) }
{
    let x = stated.number(x)?;
    let y = stated.number(y)?;
    stated.state(Fact::OneNode(x, y))
}

/// States that the two are one variable.
fn add_identity(stated: &mut Stated, x: Variable, y: Variable) -> Result<(), Memory>
    requires { stated.old.used ≡ length stated.old.names }
    ensures ok { OnOk result (States stated.old stated.new (identified x y)) }
    ensures err { OnErr result (StatesNothing stated.old stated.new) }
{
    let x = stated.number(x)?;
    let y = stated.number(y)?;
    stated.state(Fact::Identified(x, y))
}

/// States that the variable is the name.
fn add_name(stated: &mut Stated, x: Variable, a: Sym) -> Result<(), Memory>
    requires { stated.old.used ≡ length stated.old.names }
    ensures ok { OnOk result (States stated.old stated.new (is_name x a.0)) }
    ensures err { OnErr result (StatesNothing stated.old stated.new) }
{
    let x = stated.number(x)?;
    stated.state(Fact::IsName(x, a))
}

/// States a colour.
fn add_colour(stated: &mut Stated, x: Variable, c: Colour) -> Result<(), Memory>
    requires { stated.old.used ≡ length stated.old.names }
    ensures ok { OnOk result (States stated.old stated.new (coloured x c)) }
    ensures err { OnErr result (StatesNothing stated.old stated.new) }
{
    let x = stated.number(x)?;
    stated.state(Fact::Coloured(x, c))
}

/// States a pair.
fn add_pair(stated: &mut Stated, place: Place, attr: Sym, value: Value) -> Result<(), Memory>
    requires { stated.old.used ≡ length stated.old.names }
    ensures ok { OnOk result (States stated.old stated.new (paired (slot_of place) attr.0 (term_of value))) }
    ensures err { OnErr result (StatesNothing stated.old stated.new) }
{
    let slot = slot_at(stated, place)?;
    let value = term_at(stated, value)?;
    stated.state(Fact::Paired(slot, attr, value))
}

/// States a literal.
fn add_literal(
    stated: &mut Stated,
    handle: Value,
    pred: Value,
    args: &[Value],
) -> Result<(), Memory>
    requires { stated.old.used ≡ length stated.old.names }
    ensures ok { OnOk result (States stated.old stated.new (says (record { handle = term_of handle; pred = term_of pred; args = map term_of args.now }))) }
    ensures err { OnErr result (StatesNothing stated.old stated.new) }
{
    let handle = term_at(stated, handle)?;
    let pred = term_at(stated, pred)?;
    let args = terms_at(stated, args)?;
    stated.state(Fact::Says(Literal { handle, pred, args }))
}

/// The number of the slot of a place, whose variable is numbered.
fn slot_at(stated: &mut Stated, place: Place) -> Result<SlotId, Memory>
    ensures slot { IfOk result (λ s. (s.0 < 3 * length stated.new.names + 1) × (named_slot stated.new.names s.0 ≡ slot_of place)) }
    ensures fresh { IfOk result (λ s. IsFresh stated.old stated.new (slot_variable s.0)) }
    ensures keeps { Keeps stated.old stated.new }
{
    match place {
        Place::Own(x) => own_slot_at(stated, x),
        Place::Top(x) => top_slot_at(stated, x),
        Place::Bottom(x) => bottom_slot_at(stated, x),
        Place::Interface => Ok(INTERFACE),
    }
}

/// The number of the own slot of the variable, which is numbered.
fn own_slot_at(stated: &mut Stated, x: Variable) -> Result<SlotId, Memory>
    ensures slot { IfOk result (λ s. (s.0 < 3 * length stated.new.names + 1) × (named_slot stated.new.names s.0 ≡ own_of x)) }
    ensures fresh { IfOk result (λ s. IsFresh stated.old stated.new (slot_variable s.0)) }
    ensures keeps { Keeps stated.old stated.new }
{
    let number = stated.number(x)?;
    Ok(own_slot(number))
}

/// The number of the top slot of the variable, which is numbered.
fn top_slot_at(stated: &mut Stated, x: Variable) -> Result<SlotId, Memory>
    ensures slot { IfOk result (λ s. (s.0 < 3 * length stated.new.names + 1) × (named_slot stated.new.names s.0 ≡ top_of x)) }
    ensures fresh { IfOk result (λ s. IsFresh stated.old stated.new (slot_variable s.0)) }
    ensures keeps { Keeps stated.old stated.new }
{
    let number = stated.number(x)?;
    Ok(top_slot(number))
}

/// The number of the bottom slot of the variable, which is numbered.
fn bottom_slot_at(stated: &mut Stated, x: Variable) -> Result<SlotId, Memory>
    ensures slot { IfOk result (λ s. (s.0 < 3 * length stated.new.names + 1) × (named_slot stated.new.names s.0 ≡ bottom_of x)) }
    ensures fresh { IfOk result (λ s. IsFresh stated.old stated.new (slot_variable s.0)) }
    ensures keeps { Keeps stated.old stated.new }
{
    let number = stated.number(x)?;
    Ok(bottom_slot(number))
}

/// The value as a term, whose variable is numbered.
fn term_at(stated: &mut Stated, value: Value) -> Result<Term, Memory>
    ensures term { IfOk result (λ t. IsTermBelow (length stated.new.names) t × (read_term stated.new.names t ≡ term_of value)) }
    ensures fresh { IfOk result (λ t. IsFresh stated.old stated.new (variable_in t)) }
    ensures keeps { Keeps stated.old stated.new }
{
    match value {
        Value::Variable(x) => variable_at(stated, x),
        Value::Name(a) => Ok(Term::Const(a)),
    }
}

/// The variable as a term, which is numbered.
fn variable_at(stated: &mut Stated, x: Variable) -> Result<Term, Memory>
    ensures term { IfOk result (λ t. IsTermBelow (length stated.new.names) t × (read_term stated.new.names t ≡ variable x)) }
    ensures fresh { IfOk result (λ t. IsFresh stated.old stated.new (variable_in t)) }
    ensures keeps { Keeps stated.old stated.new }
{
    let number = stated.number(x)?;
    Ok(Term::Var(number))
}

/// The values as terms, whose variables are numbered.
fn terms_at(stated: &mut Stated, values: &[Value]) -> Result<Terms, Memory>
    ensures terms { IfOk result (λ ts. Each (IsTermBelow (length stated.new.names)) ts × (read_terms stated.new.names ts ≡ map term_of values.now)) }
    ensures fresh { IfOk result (λ ts. IsFresh stated.old stated.new (gathered variable_in ts)) }
    ensures keeps { Keeps stated.old stated.new }
{
    let mut terms = Vec::with_capacity(stated.alloc(), values.len())?;
    for value in values {
        let term = term_at(stated, *value)?;
        terms.push(term)?;
    }
    Ok(Items::from_vec(terms))
}
