//! Where variables and classes stand in the body of a class, in the order of its spelling.
ghost use Rattle.std.specs.Prelude.{◌≡◌, List, [], ◌∷◌, ◌++◌, OnOk};
ghost use Rattle.mg_scope.specs.Uses.{ref_use, side_uses, bag_uses, properties_of, categories_of, property_uses, category_uses, block_uses, item_uses, literal_uses, statement_uses, body_uses, name_uses, handle_uses};
ghost use Rattle.gr_base.specs.Lists.{gathered};
ghost use Rattle.mg_syntax.specs.declared.body.Statement.{Statement};

use gr_base::Memory;
use gr_terms::{CAT, Sym};
use mg_syntax::{Bag, Body, Literal, NodeBlock, Ref, Side, Statement, SynItem};

/// A place in the body of a class where a variable or a class stands.
#[derive(Clone, Copy, Debug, PartialEq, Eq)]
pub enum Use {
    /// A variable alone: a node's name, a value, a side of a relation or of an equation.
    Alone(Sym),
    /// A variable left of a call, and the class that is called.
    Bound(Sym, Sym),
    /// A class that is called, with no variable left of the call.
    Called(Sym),
    /// A variable before a dot, and the name behind it.
    Dotted(Sym, Sym),
}

/// Appends the uses of a body.
pub fn push_body(body: &Body, uses: &mut Vec<Use>) -> Result<(), Memory>
    ensures { OnOk result (uses.new.items ≡ uses.old.items ++ body_uses body.now) }
{
    for alternative in body.as_slice() {
        push_statements(alternative.as_slice(), uses)?;
    }
    Ok(())
}

fn push_statements(statements: &[Statement], uses: &mut Vec<Use>) -> Result<(), Memory>
    ensures { OnOk result (uses.new.items ≡ uses.old.items ++ gathered statement_uses statements.now) }
{
    for statement in statements {
        push_statement(statement, uses)?;
    }
    Ok(())
}

fn push_statement(statement: &Statement, uses: &mut Vec<Use>) -> Result<(), Memory>
    ensures { OnOk result (uses.new.items ≡ uses.old.items ++ statement_uses statement.now) }
{
    match statement {
        Statement::Group(body) => {
            for alternative in body.as_slice() {
                for inner in alternative.as_slice() {
                    push_statement(inner, uses)?;
                }
            }
            Ok(())
        }
        Statement::Call(class) => push(Use::Called(*class), uses),
        Statement::Bind(variable, class) => push(Use::Bound(*variable, *class), uses),
        Statement::Equation(left, right) => push_equation(left, right, uses),
        Statement::Syn(items) => push_items(items.as_slice(), uses),
        Statement::Sem(literals) => push_literals(literals.as_slice(), uses),
        Statement::Iface(bag) => push_bag(bag, uses),
    }
}

fn push_equation(left: &Ref, right: &Side, uses: &mut Vec<Use>) -> Result<(), Memory>
    ensures { OnOk result (uses.new.items ≡ uses.old.items ++ ref_use left.now ∷ side_uses right.now) }
{
    push_ref(left, uses)?;
    push_side(right, uses)
}

fn push(place: Use, uses: &mut Vec<Use>) -> Result<(), Memory>
    ensures { OnOk result (uses.new.items ≡ uses.old.items ++ place ∷ []) }
{
    uses.push(place)?;
    Ok(())
}

fn push_ref(reference: &Ref, uses: &mut Vec<Use>) -> Result<(), Memory>
    ensures { OnOk result (uses.new.items ≡ uses.old.items ++ ref_use reference.now ∷ []) }
{
    match reference.of {
        Some(variable) => push(Use::Dotted(variable, reference.name), uses),
        None => push(Use::Alone(reference.name), uses),
    }
}

fn push_side(side: &Side, uses: &mut Vec<Use>) -> Result<(), Memory>
    ensures { OnOk result (uses.new.items ≡ uses.old.items ++ side_uses side.now) }
{
    match side {
        Side::Ref(reference) => push_ref(reference, uses),
        Side::Name(_) => Ok(()),
    }
}

fn push_bag(bag: &Bag, uses: &mut Vec<Use>) -> Result<(), Memory>
    ensures { OnOk result (uses.new.items ≡ uses.old.items ++ bag_uses bag.now) }
{
    for pair in bag.as_slice() {
        push_side(&pair.1, uses)?;
    }
    Ok(())
}

// The pairs but those of the category.
fn push_properties(bag: &Bag, uses: &mut Vec<Use>) -> Result<(), Memory>
    ensures { OnOk result (uses.new.items ≡ uses.old.items ++ bag_uses (properties_of bag.now)) }
{
    for pair in bag.as_slice() {
        push_property(pair, uses)?;
    }
    Ok(())
}

fn push_property(pair: &(Sym, Side), uses: &mut Vec<Use>) -> Result<(), Memory>
    ensures { OnOk result (uses.new.items ≡ uses.old.items ++ property_uses pair.now) }
{
    if pair.0.0 == CAT.0 {
        return Ok(());
    }
    push_side(&pair.1, uses)
}

// The pairs of the category alone.
fn push_categories(bag: &Bag, uses: &mut Vec<Use>) -> Result<(), Memory>
    ensures { OnOk result (uses.new.items ≡ uses.old.items ++ bag_uses (categories_of bag.now)) }
{
    for pair in bag.as_slice() {
        push_category(pair, uses)?;
    }
    Ok(())
}

fn push_category(pair: &(Sym, Side), uses: &mut Vec<Use>) -> Result<(), Memory>
    ensures { OnOk result (uses.new.items ≡ uses.old.items ++ category_uses pair.now) }
{
    if pair.0.0 != CAT.0 {
        return Ok(());
    }
    push_side(&pair.1, uses)
}

fn push_items(items: &[SynItem], uses: &mut Vec<Use>) -> Result<(), Memory>
    ensures { OnOk result (uses.new.items ≡ uses.old.items ++ gathered item_uses items.now) }
{
    for item in items {
        push_item(item, uses)?;
    }
    Ok(())
}

fn push_item(item: &SynItem, uses: &mut Vec<Use>) -> Result<(), Memory>
    ensures { OnOk result (uses.new.items ≡ uses.old.items ++ item_uses item.now) }
{
    match item {
        SynItem::Node(block) => push_block(block, uses),
        SynItem::Relation(one, _, two) => {
            push_ref(one, uses)?;
            push_ref(two, uses)
        }
    }
}

fn push_name(name: &Option<Ref>, uses: &mut Vec<Use>) -> Result<(), Memory>
    ensures { OnOk result (uses.new.items ≡ uses.old.items ++ name_uses name.now) }
{
    match name {
        Some(reference) => push_ref(reference, uses),
        None => Ok(()),
    }
}

fn push_block(block: &NodeBlock, uses: &mut Vec<Use>) -> Result<(), Memory>
    ensures { OnOk result (uses.new.items ≡ uses.old.items ++ block_uses block.now) }
{
    push_name(&block.name, uses)?;
    push_properties(&block.own, uses)?;
    push_categories(&block.own, uses)?;
    push_bag(&block.top, uses)?;
    push_bag(&block.bot, uses)?;
    for kid in block.kids.as_slice() {
        push_block(&kid.node, uses)?;
    }
    Ok(())
}

fn push_literals(literals: &[Literal], uses: &mut Vec<Use>) -> Result<(), Memory>
    ensures { OnOk result (uses.new.items ≡ uses.old.items ++ gathered literal_uses literals.now) }
{
    for literal in literals {
        push_literal(literal, uses)?;
    }
    Ok(())
}

fn push_literal(literal: &Literal, uses: &mut Vec<Use>) -> Result<(), Memory>
    ensures { OnOk result (uses.new.items ≡ uses.old.items ++ literal_uses literal.now) }
{
    push_handle(&literal.handle, uses)?;
    push_side(&literal.pred, uses)?;
    push_sides(literal.args.as_slice(), uses)?;
    Ok(())
}

fn push_handle(handle: &Option<Side>, uses: &mut Vec<Use>) -> Result<(), Memory>
    ensures { OnOk result (uses.new.items ≡ uses.old.items ++ handle_uses handle.now) }
{
    match handle {
        Some(side) => push_side(side, uses),
        None => Ok(()),
    }
}

fn push_sides(sides: &[Side], uses: &mut Vec<Use>) -> Result<(), Memory>
    ensures { OnOk result (uses.new.items ≡ uses.old.items ++ gathered side_uses sides.now) }
{
    for side in sides {
        push_side(side, uses)?;
    }
    Ok(())
}
