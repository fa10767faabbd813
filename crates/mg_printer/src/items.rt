//! The items of a metagrammar.
ghost use Rattle.std.specs.Prelude.{◌≡◌, ◌<◌, ◌++◌, ◌∷◌, [], length, codes, map, OnOk};
ghost use Rattle.gr_base.specs.Lists.{Each, gathered};
ghost use Rattle.gr_texts.specs.Lexemes.{line_of};
ghost use Rattle.mg_printer.specs.Pieces.{IsKnown, a_sign, a_word, lexeme_of, separated};
ghost use Rattle.mg_printer.specs.Printing.{spelled};
ghost use Rattle.mg_printer.specs.Bodies.{call_pieces};
ghost use Rattle.mg_printer.specs.Items.{listed, variable_pieces, name_pieces, domain_pieces, argument_pieces, arguments_pieces, dims_pieces, principle_behind, typed_pieces, class_head, class_behind, header_key, header_behind, item_key, item_behind, item_pieces};

use crate::bodies::{call, group};
use crate::values::{key, name, sign, variable, word};
use gr_base::Memory;
use gr_symbols::Symbols;
use gr_texts::Writer;
use mg_syntax::{Args, Class, Header, Item, Sym, Syms};

/// Appends the calls of the imported classes behind their word, where there is one.
fn imports(out: &mut Writer, symbols: &Symbols, classes: &Syms) -> Result<(), Memory>
    requires { Each (IsKnown (length symbols.now)) (listed (codes "import") call_pieces classes.now) }
    ensures { OnOk result (out.new ≡ out.old ++ spelled symbols.now (listed (codes "import") call_pieces classes.now)) }
{
    if classes.len() == 0 {
        return Ok(());
    }
    key(out, "import")?;
    for class in classes.as_slice() {
        call(out, symbols, *class)?;
    }
    Ok(())
}

/// Appends variables behind a word, where there is one.
fn variables(out: &mut Writer, symbols: &Symbols, before: &str, names: &Syms) -> Result<(), Memory>
    requires { Each (IsKnown (length symbols.now)) (listed before.now variable_pieces names.now) }
    ensures { OnOk result (out.new ≡ out.old ++ spelled symbols.now (listed before.now variable_pieces names.now)) }
{
    if names.len() == 0 {
        return Ok(());
    }
    key(out, before)?;
    for name in names.as_slice() {
        variable(out, symbols, *name)?;
    }
    Ok(())
}

/// Appends what stands between the first word of a class and its body.
fn class_head(out: &mut Writer, symbols: &Symbols, class: &Class) -> Result<(), Memory>
    requires { Each (IsKnown (length symbols.now)) (class_head class.now) }
    ensures { OnOk result (out.new ≡ out.old ++ spelled symbols.now (class_head class.now)) }
{
    word(out, symbols, class.name)?;
    imports(out, symbols, &class.imports)?;
    variables(out, symbols, "export", &class.exports)?;
    variables(out, symbols, "declare", &class.declares)
}

/// Appends a class behind its first word.
fn class(out: &mut Writer, symbols: &Symbols, class: &Class) -> Result<(), Memory>
    requires { Each (IsKnown (length symbols.now)) (class_behind class.now) }
    ensures { OnOk result (out.new ≡ out.old ++ spelled symbols.now (class_behind class.now)) }
{
    class_head(out, symbols, class)?;
    group(out, symbols, &class.body)
}

/// Appends names with commas between them.
fn names(out: &mut Writer, symbols: &Symbols, names: &Syms) -> Result<(), Memory>
    requires { Each (IsKnown (length symbols.now)) (separated (a_sign (codes ",")) name_pieces names.now) }
    ensures { OnOk result (out.new ≡ out.old ++ spelled symbols.now (separated (a_sign (codes ",")) name_pieces names.now)) }
{
    if let Some((first, others)) = names.as_slice().split_first() {
        name(out, symbols, *first)?;
        for other in others {
            sign(out, ",")?;
            name(out, symbols, *other)?;
        }
    }
    Ok(())
}

/// Appends the values of a type.
fn domain(out: &mut Writer, symbols: &Symbols, domain: &Option<Syms>) -> Result<(), Memory>
    requires { Each (IsKnown (length symbols.now)) (domain_pieces domain.now) }
    ensures { OnOk result (out.new ≡ out.old ++ spelled symbols.now (domain_pieces domain.now)) }
{
    match domain {
        None => sign(out, "!"),
        Some(values) => {
            sign(out, "=")?;
            sign(out, "{")?;
            names(out, symbols, values)?;
            sign(out, "}")
        }
    }
}

/// Appends an argument of a principle.
fn argument(
    out: &mut Writer,
    symbols: &Symbols,
    argument: &(Sym, Option<Sym>),
) -> Result<(), Memory>
    requires { Each (IsKnown (length symbols.now)) (argument_pieces argument.now) }
    ensures { OnOk result (out.new ≡ out.old ++ spelled symbols.now (argument_pieces argument.now)) }
{
    word(out, symbols, argument.0)?;
    let Some(value) = argument.1 else {
        return Ok(());
    };
    sign(out, "=")?;
    name(out, symbols, value)
}

/// Appends the arguments of a principle, with commas between them.
fn arguments(out: &mut Writer, symbols: &Symbols, arguments: &Args) -> Result<(), Memory>
    requires { Each (IsKnown (length symbols.now)) (separated (a_sign (codes ",")) argument_pieces arguments.now) }
    ensures { OnOk result (out.new ≡ out.old ++ spelled symbols.now (separated (a_sign (codes ",")) argument_pieces arguments.now)) }
{
    if let Some((first, others)) = arguments.as_slice().split_first() {
        argument(out, symbols, first)?;
        for other in others {
            sign(out, ",")?;
            argument(out, symbols, other)?;
        }
    }
    Ok(())
}

/// Appends the arguments of a principle in their parentheses.
fn argument_list(out: &mut Writer, symbols: &Symbols, list: &Args) -> Result<(), Memory>
    requires { Each (IsKnown (length symbols.now)) (arguments_pieces list.now) }
    ensures { OnOk result (out.new ≡ out.old ++ spelled symbols.now (arguments_pieces list.now)) }
{
    sign(out, "(")?;
    arguments(out, symbols, list)?;
    sign(out, ")")
}

/// Appends the dimension of a principle.
fn dimension(out: &mut Writer, symbols: &Symbols, dimension: Sym) -> Result<(), Memory>
    requires { dimension.0 < length symbols.now }
    ensures { OnOk result (out.new ≡ out.old ++ spelled symbols.now (dims_pieces dimension)) }
{
    key(out, "dims")?;
    sign(out, "(")?;
    word(out, symbols, dimension)?;
    sign(out, ")")
}

/// Appends a principle behind its first word.
fn principle(
    out: &mut Writer,
    symbols: &Symbols,
    principle: Sym,
    list: &Args,
    dims: Sym,
) -> Result<(), Memory>
    requires { Each (IsKnown (length symbols.now)) (principle_behind principle list.now dims) }
    ensures { OnOk result (out.new ≡ out.old ++ spelled symbols.now (principle_behind principle list.now dims)) }
{
    word(out, symbols, principle)?;
    key(out, "with")?;
    argument_list(out, symbols, list)?;
    dimension(out, symbols, dims)
}

/// Appends a name with its type.
fn typed(out: &mut Writer, symbols: &Symbols, named: Sym, of: Sym) -> Result<(), Memory>
    requires { Each (IsKnown (length symbols.now)) (typed_pieces named of) }
    ensures { OnOk result (out.new ≡ out.old ++ spelled symbols.now (typed_pieces named of)) }
{
    word(out, symbols, named)?;
    sign(out, ":")?;
    word(out, symbols, of)
}

/// The first word of a header.
fn header_key(header: &Header) -> &'static str
    ensures { result.now ≡ header_key header.now }
{
    match header {
        Header::Domain(_, _) => "type",
        Header::Property(_, _) => "property",
        Header::Feature(_, _) => "feature",
        Header::Principle(_, _, _) => "use",
    }
}

/// Appends a header behind its first word.
fn header(out: &mut Writer, symbols: &Symbols, header: &Header) -> Result<(), Memory>
    requires { Each (IsKnown (length symbols.now)) (header_behind header.now) }
    ensures { OnOk result (out.new ≡ out.old ++ spelled symbols.now (header_behind header.now)) }
{
    match header {
        Header::Domain(named, values) => {
            word(out, symbols, *named)?;
            domain(out, symbols, values)
        }
        Header::Property(named, of) | Header::Feature(named, of) => typed(
            out, symbols, *named, *of,
        ),
        Header::Principle(named, list, dims) => principle(out, symbols, *named, list, *dims),
    }
}

/// The first word of an item.
fn item_key(item: &Item) -> &'static str
    ensures { result.now ≡ item_key item.now }
{
    match item {
        Item::Class(_) => "class",
        Item::Value(_) => "value",
        Item::Header(line) => header_key(line),
    }
}

/// Appends an item behind its first word.
fn item_behind(out: &mut Writer, symbols: &Symbols, item: &Item) -> Result<(), Memory>
    requires { Each (IsKnown (length symbols.now)) (item_behind item.now) }
    ensures { OnOk result (out.new ≡ out.old ++ spelled symbols.now (item_behind item.now)) }
{
    match item {
        Item::Class(one) => class(out, symbols, one),
        Item::Value(valued) => word(out, symbols, *valued),
        Item::Header(line) => header(out, symbols, line),
    }
}

/// Appends the line of an item.
pub fn item(out: &mut Writer, symbols: &Symbols, item: &Item) -> Result<(), Memory>
    requires { Each (IsKnown (length symbols.now)) (item_pieces item.now) }
    ensures { OnOk result (out.new ≡ out.old ++ line_of (map (lexeme_of symbols.now) (item_pieces item.now))) }
{
    out.first(item_key(item))?;
    item_behind(out, symbols, item)?;
    out.end()
}
