//! Bodies of classes: alternatives, statements and groups.
ghost use Rattle.std.specs.Prelude.{◌≡◌, ◌<◌, ◌++◌, ◌∷◌, [], length, codes, OnOk};
ghost use Rattle.gr_base.specs.Lists.{Each, gathered};
ghost use Rattle.mg_printer.specs.Pieces.{IsKnown, a_sign, a_variable, separated};
ghost use Rattle.mg_printer.specs.Printing.{spelled};
ghost use Rattle.mg_printer.specs.Values.{ref_pieces, side_pieces, bag_pieces, literal_pieces};
ghost use Rattle.mg_printer.specs.Blocks.{syn_item_pieces};
ghost use Rattle.mg_printer.specs.Bodies.{call_pieces, opened, dimension_pieces, alternative_by, statement_pieces, body_pieces, group_pieces};

use crate::blocks::syn_items;
use crate::values::{bag, key, literals, reference, side, sign, variable, word};
use gr_base::Memory;
use gr_symbols::Symbols;
use gr_texts::Writer;
use mg_syntax::{Alternative, Bag, Body, Literals, Ref, Side, Statement, Sym, SynItems};

/// Appends a call of a class.
pub fn call(out: &mut Writer, symbols: &Symbols, class: Sym) -> Result<(), Memory>
    requires { Each (IsKnown (length symbols.now)) (call_pieces class) }
    ensures { OnOk result (out.new ≡ out.old ++ spelled symbols.now (call_pieces class)) }
{
    word(out, symbols, class)?;
    sign(out, "[")?;
    sign(out, "]")
}

/// Appends a call that is bound to a variable.
fn bind(out: &mut Writer, symbols: &Symbols, name: Sym, class: Sym) -> Result<(), Memory>
    requires { Each (IsKnown (length symbols.now)) (a_variable name.0 ∷ a_sign (codes "=") ∷ call_pieces class) }
    ensures { OnOk result (out.new ≡ out.old ++ spelled symbols.now (a_variable name.0 ∷ a_sign (codes "=") ∷ call_pieces class)) }
{
    variable(out, symbols, name)?;
    sign(out, "=")?;
    call(out, symbols, class)
}

/// Appends an equation.
fn equation(out: &mut Writer, symbols: &Symbols, left: &Ref, right: &Side) -> Result<(), Memory>
    requires { Each (IsKnown (length symbols.now)) (ref_pieces left.now ++ a_sign (codes "=") ∷ side_pieces right.now) }
    ensures { OnOk result (out.new ≡ out.old ++ spelled symbols.now (ref_pieces left.now ++ a_sign (codes "=") ∷ side_pieces right.now)) }
{
    reference(out, symbols, left)?;
    sign(out, "=")?;
    side(out, symbols, right)
}

/// Appends the word of a dimension between `<` and `>`, and the brace that opens it.
fn open_dimension(out: &mut Writer, dimension: &str) -> Result<(), Memory>
    ensures { OnOk result (out.new ≡ out.old ++ spelled [] (opened dimension.now)) }
{
    sign(out, "<")?;
    key(out, dimension)?;
    sign(out, ">")?;
    sign(out, "{")
}

/// Appends a `<syn>` block.
fn syn(out: &mut Writer, symbols: &Symbols, items: &SynItems) -> Result<(), Memory>
    requires { Each (IsKnown (length symbols.now)) (dimension_pieces (codes "syn") (separated (a_sign (codes ";")) syn_item_pieces items.now)) }
    ensures { OnOk result (out.new ≡ out.old ++ spelled symbols.now (dimension_pieces (codes "syn") (separated (a_sign (codes ";")) syn_item_pieces items.now))) }
{
    open_dimension(out, "syn")?;
    syn_items(out, symbols, items)?;
    sign(out, "}")
}

/// Appends a `<sem>` block.
fn sem(out: &mut Writer, symbols: &Symbols, list: &Literals) -> Result<(), Memory>
    requires { Each (IsKnown (length symbols.now)) (dimension_pieces (codes "sem") (gathered literal_pieces list.now)) }
    ensures { OnOk result (out.new ≡ out.old ++ spelled symbols.now (dimension_pieces (codes "sem") (gathered literal_pieces list.now))) }
{
    open_dimension(out, "sem")?;
    literals(out, symbols, list)?;
    sign(out, "}")
}

/// Appends an `<iface>` block.
fn iface(out: &mut Writer, symbols: &Symbols, list: &Bag) -> Result<(), Memory>
    requires { Each (IsKnown (length symbols.now)) (dimension_pieces (codes "iface") (bag_pieces list.now)) }
    ensures { OnOk result (out.new ≡ out.old ++ spelled symbols.now (dimension_pieces (codes "iface") (bag_pieces list.now))) }
{
    open_dimension(out, "iface")?;
    bag(out, symbols, list)?;
    sign(out, "}")
}

/// Appends a statement.
#[cycle(statements)]
fn statement(out: &mut Writer, symbols: &Symbols, statement: &Statement) -> Result<(), Memory>
    requires { Each (IsKnown (length symbols.now)) (statement_pieces statement.now) }
    ensures { OnOk result (out.new ≡ out.old ++ spelled symbols.now (statement_pieces statement.now)) }
{
    match statement {
        Statement::Group(inner) => group(out, symbols, inner),
        Statement::Call(class) => call(out, symbols, *class),
        Statement::Bind(name, class) => bind(out, symbols, *name, *class),
        Statement::Equation(left, right) => equation(out, symbols, left, right),
        Statement::Syn(items) => syn(out, symbols, items),
        Statement::Sem(list) => sem(out, symbols, list),
        Statement::Iface(list) => iface(out, symbols, list),
    }
}

/// Appends a body in braces.
#[cycle(statements)]
pub fn group(out: &mut Writer, symbols: &Symbols, inner: &Body) -> Result<(), Memory>
    requires { Each (IsKnown (length symbols.now)) (group_pieces inner.now) }
    ensures { OnOk result (out.new ≡ out.old ++ spelled symbols.now (group_pieces inner.now)) }
{
    sign(out, "{")?;
    body(out, symbols, inner)?;
    sign(out, "}")
}

/// Appends the statements of an alternative, with `;` between them.
#[cycle(statements)]
fn alternative(out: &mut Writer, symbols: &Symbols, alternative: &Alternative) -> Result<(), Memory>
    requires { Each (IsKnown (length symbols.now)) (alternative_by statement_pieces alternative.now) }
    ensures { OnOk result (out.new ≡ out.old ++ spelled symbols.now (alternative_by statement_pieces alternative.now)) }
{
    if let Some((first, others)) = alternative.as_slice().split_first() {
        statement(out, symbols, first)?;
        for other in others {
            sign(out, ";")?;
            statement(out, symbols, other)?;
        }
    }
    Ok(())
}

/// Appends the alternatives of a body, with `|` between them.
#[cycle(statements)]
fn body(out: &mut Writer, symbols: &Symbols, body: &Body) -> Result<(), Memory>
    requires { Each (IsKnown (length symbols.now)) (body_pieces body.now) }
    ensures { OnOk result (out.new ≡ out.old ++ spelled symbols.now (body_pieces body.now)) }
{
    if let Some((first, others)) = body.as_slice().split_first() {
        alternative(out, symbols, first)?;
        for other in others {
            sign(out, "|")?;
            alternative(out, symbols, other)?;
        }
    }
    Ok(())
}
