//! The places of an input, by the predicate of the literal there and its number of arguments.
ghost use Rattle.std.specs.Prelude.{◌≡◌, ◌≤◌, Bool, true, List, [], ◌∷◌, ◌++◌, count_by, length, IfOk, OnOk, Decides, MatchOption};
ghost use Rattle.gr_base.specs.Lists.{IsAmong};
ghost use Rattle.gr_terms.specs.declared.Literal.{Literal};
ghost use Rattle.sm_match.specs.declared.index.Row.{Row};
ghost use Rattle.sm_match.specs.Index.{wanted_name, may_be, suits, suiting, row_name, IsRow, AreRows, IsIndex};

use gr_base::Memory;
use gr_terms::{Literal, Sym, Term};
use std::alloc::Global;

/// The places of the literals with a predicate, or with any, and a number of arguments.
#[derive(Drop)]
pub struct Row {
    pub pred: Option<Sym>,
    pub arity: usize,
    /// In rising order.
    pub places: Vec<u8>,
}

/// The places of an input in rows. An input has few literals, so the rows are few, and going over
/// them is as fast as any table.
#[derive(Drop)]
pub struct Index {
    /// For each predicate and number of arguments that there is.
    pub named: Vec<Row>,
    /// For each number of arguments that there is.
    pub any: Vec<Row>,
}

/// The name that a term is; a variable may be any.
fn wanted_name(term: Term) -> Option<Sym>
    ensures { result ≡ wanted_name term }
{
    match term {
        Term::Const(name) => Some(name),
        Term::Var(_) => None,
    }
}

/// Whether a term may be this name, or any.
fn may_be(wanted: Option<Sym>, term: Term) -> bool
    ensures { result ≡ may_be wanted term }
{
    match (wanted, term) {
        (None, _) => true,
        (Some(name), Term::Const(own)) => name.0 == own.0,
        (Some(_), Term::Var(_)) => false,
    }
}

/// The places of the literals with a predicate, or with any, and a number of arguments.
fn suiting(
    alloc: Global,
    input: &[Literal],
    pred: Option<Sym>,
    arity: usize,
) -> Result<Vec<u8>, Memory>
    requires { length input.now ≤ 24 }
    ensures { IfOk result (λ places. places.items ≡ suiting 0 pred arity input.now) }
{
    let mut places = Vec::new(alloc);
    for (place, literal) in input.iter().enumerate() {
        if arity == literal.args.len() && may_be(pred, literal.pred) {
            places.push(place as u8)?;
        }
    }
    Ok(places)
}

/// Whether two names are the same, or both none.
fn is_same(one: Option<Sym>, other: Option<Sym>) -> bool
    ensures { Decides result (one ≡ other) }
{
    match (one, other) {
        (None, None) => true,
        (Some(name), Some(own)) => name.0 == own.0,
        _ => false,
    }
}

/// The row for a predicate, or for any, and a number of arguments.
fn row_of<'a>(rows: &'a [Row], pred: Option<Sym>, arity: usize) -> Option<&'a Row>
    ensures { MatchOption result
        ((r : Row) → IsAmong rows.now r → r.pred ≡ pred → r.arity ≡ arity → ⊥)
        (λ row. IsAmong rows.now row.now × (row.now.pred ≡ pred) × (row.now.arity ≡ arity)) }
{
    for row in rows {
        if row.arity == arity && is_same(row.pred, pred) {
            return Some(row);
        }
    }
    None
}

/// The predicate that the row of a literal is for: any, or its own.
fn row_name(any: bool, literal: &Literal) -> Option<Sym>
    ensures { result ≡ row_name any literal.now }
{
    if any { None } else { wanted_name(literal.pred) }
}

/// Adds the row of a literal, unless it is there.
fn add_row(
    alloc: Global,
    input: &[Literal],
    any: bool,
    literal: &Literal,
    rows: &mut Vec<Row>,
) -> Result<(), Memory>
    requires { length input.now ≤ 24 }
    ensures { OnOk result ((some : List Literal) → AreRows any input.now some rows.old.items
        → AreRows any input.now (some ++ literal.now ∷ []) rows.new.items) }
{
    let pred = row_name(any, literal);
    let arity = literal.args.len();
    match row_of(rows.as_slice(), pred, arity) {
        Some(_) => Ok(()),
        None => {
            let places = suiting(alloc, input, pred, arity)?;
            rows.push(Row {
                pred,
                arity,
                places,
            })?;
            Ok(())
        }
    }
}

/// A row for each number of arguments, with each predicate or with any.
fn rows_of(alloc: Global, input: &[Literal], any: bool) -> Result<Vec<Row>, Memory>
    requires { length input.now ≤ 24 }
    ensures { IfOk result (λ rows. AreRows any input.now input.now rows.items) }
{
    let mut rows = Vec::new(alloc);
    for literal in input {
        add_row(alloc, input, any, literal, &mut rows)?;
    }
    Ok(rows)
}

/// The places of the row for a predicate, or for any, and a number of arguments; none where there is no
/// such row.
fn places_in<'a>(rows: &'a [Row], pred: Option<Sym>, arity: usize) -> &'a [u8]
    ensures { (any : Bool) (input : List Literal) → AreRows any input input rows.now
        → ((g : Literal) → suits pred arity g ≡ true → row_name any g ≡ pred)
        → result.now ≡ suiting 0 pred arity input }
{
    match row_of(rows, pred, arity) {
        Some(row) => row.places.as_slice(),
        None => &[],
    }
}

/// How many of the literals have the predicate of this one, or any where that is a variable, and as
/// many arguments.
pub fn alike(literals: &[Literal], literal: &Literal) -> usize
    ensures { result ≡ count_by (suits (wanted_name literal.now.pred) (length literal.now.args)) literals.now }
{
    let pred = wanted_name(literal.pred);
    let arity = literal.args.len();
    literals
        .iter()
        .filter(|other| arity == other.args.len() && may_be(pred, other.pred))
        .count()
}

impl Index {
    /// The index of an input's literals.
    pub fn new(alloc: Global, input: &[Literal]) -> Result<Index, Memory>
        requires { length input.now ≤ 24 }
        ensures { IfOk result (λ index. IsIndex input.now index) }
    {
        let named = rows_of(alloc, input, false)?;
        let any = rows_of(alloc, input, true)?;
        Ok(Index { named, any })
    }

    /// The places where a literal of a tree may stand by its predicate and number of arguments, in
    /// rising order.
    pub fn places(&self, literal: &Literal) -> &[u8]
        ensures { (input : List Literal) → IsIndex input self.now
            → result.now ≡ suiting 0 (wanted_name literal.now.pred) (length literal.now.args) input }
    {
        match literal.pred {
            Term::Const(name) => places_in(self.named.as_slice(), Some(name), literal.args.len()),
            Term::Var(_) => places_in(self.any.as_slice(), None, literal.args.len()),
        }
    }
}
