//! What parts of a metagrammar are while they are read.
ghost use Rattle.std.specs.Prelude.{◌≡◌, [], ◌++◌, MatchResult, unwrap_or};
ghost use Rattle.mg_reader.specs.Values.{ref_with, literal_with, word_with, statement_with, relate_of, paint_of, descent_of, with_property, no_properties, with_feature, no_features, node_with, category_pairs};

use crate::cursor::{Stop, push};
use crate::lexeme::{Kind, Lexeme};
use gr_terms::{CAT, Sym};
use mg_syntax::{Bag, Kids, Literal, NodeBlock, Paint, Ref, Relate, Row, Side, Sides, Statement};
use std::alloc::Global;

/// An attribute, with its place, and its value.
#[derive(Clone, Copy, Debug, PartialEq, Eq)]
pub struct Keyed {
    /// The attribute.
    pub key: Lexeme,
    /// Its value.
    pub value: Side,
}

/// What a property is given.
#[derive(Clone, Copy, Debug, PartialEq, Eq)]
pub enum Given {
    /// A colour.
    Paint(Paint),
    /// A value.
    Value(Side),
}

/// A property of a node block.
#[derive(Clone, Copy, Debug, PartialEq, Eq)]
pub struct Property {
    /// The attribute.
    pub key: Lexeme,
    /// What it is given.
    pub given: Given,
}

/// The properties of a node block.
#[derive(Drop)]
pub struct Properties {
    /// The first colour.
    pub colour: Option<Paint>,
    /// The other pairs, in order.
    pub own: Bag,
}

/// A feature of a node block.
#[derive(Drop)]
pub enum Feature {
    /// `cat`.
    Category(Side),
    /// `top`.
    Top(Bag),
    /// `bot`.
    Bottom(Bag),
}

/// The features of a node block, the first of each.
#[derive(Drop)]
pub struct Features {
    /// `cat`.
    pub category: Option<Side>,
    /// `top`.
    pub top: Option<Bag>,
    /// `bot`.
    pub bottom: Option<Bag>,
}

/// What stands behind the variable that begins a statement.
#[derive(Clone, Copy, Debug, PartialEq, Eq)]
pub enum After {
    /// A dot, a second variable, `=` and a value.
    Dotted(Sym, Side),
    /// `=` and a value.
    Equals(Side),
    /// `=` and a call of a class.
    Call(Sym),
}

/// A variable, or with a second one behind a dot that one, of the first.
pub fn ref_with(first: Sym, second: Option<Sym>) -> Ref
    ensures { result ≡ ref_with first second }
{
    match second {
        None => Ref {
            of: None,
            name: first,
        },
        Some(name) => Ref {
            of: Some(first),
            name,
        },
    }
}

/// A literal whose first value is its handle where a predicate follows it, and else its predicate.
pub fn literal_with(first: Side, predicate: Option<Side>, args: Sides) -> Literal
    ensures { result ≡ literal_with first predicate args }
{
    match predicate {
        None => Literal {
            handle: None,
            pred: first,
            args,
        },
        Some(pred) => Literal {
            handle: Some(first),
            pred,
            args,
        },
    }
}

/// A word, which calls a class or is a name.
pub fn word_with(word: Sym, call: bool) -> After
    ensures { result ≡ word_with word call }
{
    if call {
        After::Call(word)
    } else {
        After::Equals(Side::Name(word))
    }
}

/// The statement of a variable and what stands behind it.
pub fn statement_with(first: Sym, after: After) -> Statement
    ensures { result ≡ statement_with first after }
{
    match after {
        After::Dotted(name, side) => {
            let left = Ref {
                of: Some(first),
                name,
            };
            Statement::Equation(left, side)
        }
        After::Equals(side) => {
            let left = Ref {
                of: None,
                name: first,
            };
            Statement::Equation(left, side)
        }
        After::Call(class) => Statement::Bind(first, class),
    }
}

/// The relation of an operator.
pub fn relate_of(kind: Kind) -> Relate
    ensures { result ≡ relate_of kind }
{
    match kind {
        Kind::Below => Relate::Parent,
        Kind::BelowPlus => Relate::Above,
        Kind::BelowStar => Relate::AboveOrSame,
        Kind::Next => Relate::Next,
        Kind::NextPlus => Relate::Left,
        Kind::NextStar => Relate::LeftOrSame,
        _ => Relate::Same,
    }
}

/// The colour of a word.
pub fn paint_of(kind: Kind) -> Paint
    ensures { result ≡ paint_of kind }
{
    match kind {
        Kind::Black => Paint::Black,
        Kind::White => Paint::White,
        _ => Paint::Red,
    }
}

/// How a kid behind `...` or `...+` stands under its block.
pub fn descent_of(kind: Kind) -> Relate
    ensures { result ≡ descent_of kind }
{
    match kind {
        Kind::Dots => Relate::AboveOrSame,
        _ => Relate::Above,
    }
}

impl Properties {
    /// No property.
    pub fn new(alloc: Global) -> Properties
        ensures { result ≡ no_properties }
    {
        Properties {
            colour: None,
            own: Row::new(alloc),
        }
    }

    /// Adds a property.
    pub fn put(&mut self, property: Property) -> Result<(), Stop>
        ensures { MatchResult result (λ u. self.new ≡ with_property self.old property) (λ e. e ≡ Stop.Memory) }
    {
        match property.given {
            Given::Paint(paint) => {
                if self.colour.is_none() {
                    self.colour = Some(paint);
                }
                Ok(())
            }
            Given::Value(value) => push(&mut self.own, (property.key.name, value)),
        }
    }
}

impl Features {
    /// No feature.
    pub fn new() -> Features
        ensures { result ≡ no_features }
    {
        Features {
            category: None,
            top: None,
            bottom: None,
        }
    }

    /// Adds a feature.
    pub fn put(&mut self, feature: Feature)
        ensures { self.new ≡ with_feature self.old feature }
    {
        match feature {
            Feature::Category(value) => {
                if self.category.is_none() {
                    self.category = Some(value);
                }
            }
            Feature::Top(bag) => {
                if self.top.is_none() {
                    self.top = Some(bag);
                }
            }
            Feature::Bottom(bag) => {
                if self.bottom.is_none() {
                    self.bottom = Some(bag);
                }
            }
        }
    }
}

/// The properties and the category, if there is one.
fn with_category(own: Bag, category: Option<Side>) -> Result<Bag, Stop>
    ensures { MatchResult result (λ b. b ≡ own ++ category_pairs category) (λ e. e ≡ Stop.Memory) }
{
    let mut pairs = own;
    match category {
        None => Ok(pairs),
        Some(side) => {
            push(&mut pairs, (CAT, side))?;
            Ok(pairs)
        }
    }
}

/// The bag, or else the empty one.
fn or_empty(alloc: Global, bag: Option<Bag>) -> Bag
    ensures { result ≡ unwrap_or bag [] }
{
    match bag {
        None => Row::new(alloc),
        Some(bag) => bag,
    }
}

/// A node block of these parts.
pub fn node_with(
    alloc: Global,
    name: Option<Ref>,
    properties: Properties,
    features: Features,
    kids: Kids,
) -> Result<NodeBlock, Stop>
    ensures { MatchResult result (λ n. n ≡ node_with name properties features kids) (λ e. e ≡ Stop.Memory) }
{
    let own = with_category(properties.own, features.category)?;
    Ok(NodeBlock {
        name,
        colour: properties.colour,
        own,
        top: or_empty(alloc, features.top),
        bot: or_empty(alloc, features.bottom),
        kids,
    })
}
