//! Values, bags and literals.
ghost use Rattle.std.specs.Prelude.{◌≡◌, ◌<◌, ◌++◌, ◌∷◌, [], length, codes, OnOk};
ghost use Rattle.gr_base.specs.Lists.{Each, gathered};
ghost use Rattle.mg_printer.specs.Pieces.{IsKnown, a_sign, a_key, a_word, a_name, a_variable, separated};
ghost use Rattle.mg_printer.specs.Printing.{spelled};
ghost use Rattle.mg_printer.specs.Values.{ref_pieces, side_pieces, pair_pieces, bag_pieces, handle_pieces, arguments_pieces, literal_pieces};

use gr_base::Memory;
use gr_symbols::Symbols;
use gr_texts::Writer;
use gr_tokens::Kind;
use mg_syntax::{Bag, Literal, Literals, Ref, Side, Sides, Sym};

/// Appends a sign.
pub fn sign(out: &mut Writer, text: &str) -> Result<(), Memory>
    ensures { OnOk result (out.new ≡ out.old ++ spelled [] (a_sign text.now ∷ [])) }
{
    out.lexeme(Kind::Punct, text)
}

/// Appends a word by its text.
pub fn key(out: &mut Writer, text: &str) -> Result<(), Memory>
    ensures { OnOk result (out.new ≡ out.old ++ spelled [] (a_key text.now ∷ [])) }
{
    out.lexeme(Kind::Word, text)
}

/// Appends a word by its number.
pub fn word(out: &mut Writer, symbols: &Symbols, word: Sym) -> Result<(), Memory>
    requires { word.0 < length symbols.now }
    ensures { OnOk result (out.new ≡ out.old ++ spelled symbols.now (a_word word.0 ∷ [])) }
{
    out.lexeme(Kind::Word, symbols.text(word))
}

/// Appends a name, as a word or between `"`.
pub fn name(out: &mut Writer, symbols: &Symbols, name: Sym) -> Result<(), Memory>
    requires { name.0 < length symbols.now }
    ensures { OnOk result (out.new ≡ out.old ++ spelled symbols.now (a_name name.0 ∷ [])) }
{
    out.name(symbols.text(name))
}

/// Appends a variable.
pub fn variable(out: &mut Writer, symbols: &Symbols, name: Sym) -> Result<(), Memory>
    requires { name.0 < length symbols.now }
    ensures { OnOk result (out.new ≡ out.old ++ spelled symbols.now (a_variable name.0 ∷ [])) }
{
    out.lexeme(Kind::Var, symbols.text(name))
}

/// Appends a variable, or two with a dot between them.
pub fn reference(out: &mut Writer, symbols: &Symbols, reference: &Ref) -> Result<(), Memory>
    requires { Each (IsKnown (length symbols.now)) (ref_pieces reference.now) }
    ensures { OnOk result (out.new ≡ out.old ++ spelled symbols.now (ref_pieces reference.now)) }
{
    if let Some(owner) = reference.of {
        variable(out, symbols, owner)?;
        sign(out, ".")?;
    }
    variable(out, symbols, reference.name)
}

/// Appends a value.
pub fn side(out: &mut Writer, symbols: &Symbols, side: &Side) -> Result<(), Memory>
    requires { Each (IsKnown (length symbols.now)) (side_pieces side.now) }
    ensures { OnOk result (out.new ≡ out.old ++ spelled symbols.now (side_pieces side.now)) }
{
    match side {
        Side::Ref(variable) => reference(out, symbols, variable),
        Side::Name(constant) => name(out, symbols, *constant),
    }
}

/// Appends an attribute with its value.
pub fn pair(out: &mut Writer, symbols: &Symbols, pair: &(Sym, Side)) -> Result<(), Memory>
    requires { Each (IsKnown (length symbols.now)) (pair_pieces pair.now) }
    ensures { OnOk result (out.new ≡ out.old ++ spelled symbols.now (pair_pieces pair.now)) }
{
    word(out, symbols, pair.0)?;
    sign(out, "=")?;
    side(out, symbols, &pair.1)
}

/// Appends the pairs of a bag with commas between them.
fn pairs(out: &mut Writer, symbols: &Symbols, bag: &Bag) -> Result<(), Memory>
    requires { Each (IsKnown (length symbols.now)) (separated (a_sign (codes ",")) pair_pieces bag.now) }
    ensures { OnOk result (out.new ≡ out.old ++ spelled symbols.now (separated (a_sign (codes ",")) pair_pieces bag.now)) }
{
    if let Some((first, others)) = bag.as_slice().split_first() {
        pair(out, symbols, first)?;
        for other in others {
            sign(out, ",")?;
            pair(out, symbols, other)?;
        }
    }
    Ok(())
}

/// Appends a bag in its brackets.
pub fn bag(out: &mut Writer, symbols: &Symbols, bag: &Bag) -> Result<(), Memory>
    requires { Each (IsKnown (length symbols.now)) (bag_pieces bag.now) }
    ensures { OnOk result (out.new ≡ out.old ++ spelled symbols.now (bag_pieces bag.now)) }
{
    sign(out, "[")?;
    pairs(out, symbols, bag)?;
    sign(out, "]")
}

/// Appends values with nothing between them.
fn sides(out: &mut Writer, symbols: &Symbols, sides: &Sides) -> Result<(), Memory>
    requires { Each (IsKnown (length symbols.now)) (gathered side_pieces sides.now) }
    ensures { OnOk result (out.new ≡ out.old ++ spelled symbols.now (gathered side_pieces sides.now)) }
{
    for one in sides.as_slice() {
        side(out, symbols, one)?;
    }
    Ok(())
}

/// Appends the handle of a literal, where it has one.
fn handle(out: &mut Writer, symbols: &Symbols, handle: &Option<Side>) -> Result<(), Memory>
    requires { Each (IsKnown (length symbols.now)) (handle_pieces handle.now) }
    ensures { OnOk result (out.new ≡ out.old ++ spelled symbols.now (handle_pieces handle.now)) }
{
    let Some(handle) = handle else {
        return Ok(());
    };
    side(out, symbols, handle)?;
    sign(out, ":")
}

/// Appends the arguments of a literal in their parentheses.
fn arguments(out: &mut Writer, symbols: &Symbols, arguments: &Sides) -> Result<(), Memory>
    requires { Each (IsKnown (length symbols.now)) (arguments_pieces arguments.now) }
    ensures { OnOk result (out.new ≡ out.old ++ spelled symbols.now (arguments_pieces arguments.now)) }
{
    sign(out, "(")?;
    sides(out, symbols, arguments)?;
    sign(out, ")")
}

/// Appends a literal.
#[tactic(auto, unfolding(crate::specs::Values::literal_pieces))]
fn literal(out: &mut Writer, symbols: &Symbols, literal: &Literal) -> Result<(), Memory>
    requires { Each (IsKnown (length symbols.now)) (literal_pieces literal.now) }
    ensures { OnOk result (out.new ≡ out.old ++ spelled symbols.now (literal_pieces literal.now)) }
{
    handle(out, symbols, &literal.handle)?;
    side(out, symbols, &literal.pred)?;
    arguments(out, symbols, &literal.args)
}

/// Appends literals with nothing between them.
pub fn literals(out: &mut Writer, symbols: &Symbols, literals: &Literals) -> Result<(), Memory>
    requires { Each (IsKnown (length symbols.now)) (gathered literal_pieces literals.now) }
    ensures { OnOk result (out.new ≡ out.old ++ spelled symbols.now (gathered literal_pieces literals.now)) }
{
    for one in literals.as_slice() {
        literal(out, symbols, one)?;
    }
    Ok(())
}
