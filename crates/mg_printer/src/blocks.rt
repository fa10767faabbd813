//! Node blocks and relations between nodes.
ghost use Rattle.std.specs.Prelude.{◌≡◌, ◌<◌, ◌++◌, ◌∷◌, [], length, codes, cond, true, false, not, ◌||◌, map, OnOk, List};
ghost use Rattle.std.specs.List.{filter};
ghost use Rattle.gr_base.specs.Lists.{Each, gathered};
ghost use Rattle.mg_printer.specs.Pieces.{Piece, IsKnown, a_sign, a_key, separated, enclosed};
ghost use Rattle.mg_printer.specs.Printing.{spelled};
ghost use Rattle.mg_printer.specs.Values.{ref_pieces, side_pieces, pair_pieces, bag_pieces};
ghost use Rattle.mg_printer.specs.Blocks.{relate_text, paint_text, name_pieces, colour_parts, property_parts, category_pieces, category_parts, feature_parts, loose_pieces, down_pieces, braced, block_pieces, kid_pieces, syn_item_pieces};
ghost use Rattle.mg_printer.specs.Lists.{begun_parts, has_some};

use crate::values::{bag, key, pair, reference, side, sign};
use gr_base::Memory;
use gr_symbols::Symbols;
use gr_terms::CAT;
use gr_texts::Writer;
use mg_syntax::{Bag, Kid, NodeBlock, Paint, Ref, Relate, Side, SynItem, SynItems};

/// The sign of a relation.
fn relate_text(how: Relate) -> &'static str
    ensures { result.now ≡ relate_text how }
{
    match how {
        Relate::Parent => "->",
        Relate::Above => "->+",
        Relate::AboveOrSame => "->*",
        Relate::Next => ">>",
        Relate::Left => ">>+",
        Relate::LeftOrSame => ">>*",
        Relate::Same => "=",
    }
}

/// The word of a colour.
fn paint_text(paint: Paint) -> &'static str
    ensures { result.now ≡ paint_text paint }
{
    match paint {
        Paint::Black => "black",
        Paint::White => "white",
        Paint::Red => "red",
    }
}

/// Appends what stands before a part of a list: the opening bracket before the first one, which
/// begins the list, and a comma before the others.
fn before_part(out: &mut Writer, opening: &str, begun: &mut bool) -> Result<(), Memory>
    ensures text { OnOk result (out.new ≡ out.old ++ spelled [] (a_sign (cond begun.old (codes ",") opening.now) ∷ [])) }
    ensures begun { OnOk result (begun.new ≡ true) }
{
    let mark = if *begun { "," } else { opening };
    *begun = true;
    sign(out, mark)
}

/// Appends the property of a colour.
fn colour(out: &mut Writer, colour: Option<Paint>, begun: &mut bool) -> Result<(), Memory>
    ensures text { OnOk result (out.new ≡ out.old ++ spelled [] (begun_parts begun.old (codes "(") (colour_parts colour))) }
    ensures begun { OnOk result (begun.new ≡ (begun.old || has_some (colour_parts colour))) }
{
    let Some(paint) = colour else {
        return Ok(());
    };
    before_part(out, "(", begun)?;
    key(out, "color")?;
    sign(out, "=")?;
    key(out, paint_text(paint))
}

/// Appends the pairs of a node's own list but the category, as properties.
fn properties(
    out: &mut Writer,
    symbols: &Symbols,
    own: &Bag,
    begun: &mut bool,
) -> Result<(), Memory>
    requires { Each (Each (IsKnown (length symbols.now))) (property_parts own.now) }
    ensures text { OnOk result (out.new ≡ out.old ++ spelled symbols.now (begun_parts begun.old (codes "(") (property_parts own.now))) }
    ensures begun { OnOk result (begun.new ≡ (begun.old || has_some (property_parts own.now))) }
{
    for one in own.as_slice() {
        if one.0 != CAT {
            before_part(out, "(", begun)?;
            pair(out, symbols, one)?;
        }
    }
    Ok(())
}

/// Appends the word `cat` with a value.
fn category_value(out: &mut Writer, symbols: &Symbols, value: &Side) -> Result<(), Memory>
    requires { Each (IsKnown (length symbols.now)) (a_key (codes "cat") ∷ a_sign (codes "=") ∷ side_pieces value.now) }
    ensures { OnOk result (out.new ≡ out.old ++ spelled symbols.now (a_key (codes "cat") ∷ a_sign (codes "=") ∷ side_pieces value.now)) }
{
    key(out, "cat")?;
    sign(out, "=")?;
    side(out, symbols, value)
}

/// Appends the category, as a feature.
fn category(out: &mut Writer, symbols: &Symbols, own: &Bag, begun: &mut bool) -> Result<(), Memory>
    requires { Each (Each (IsKnown (length symbols.now))) (category_parts own.now) }
    ensures text { OnOk result (out.new ≡ out.old ++ spelled symbols.now (begun_parts begun.old (codes "[") (category_parts own.now))) }
    ensures begun { OnOk result (begun.new ≡ (begun.old || has_some (category_parts own.now))) }
{
    for one in own.as_slice() {
        if one.0 == CAT {
            before_part(out, "[", begun)?;
            category_value(out, symbols, &one.1)?;
        }
    }
    Ok(())
}

/// Appends a list of features behind their word, where the list has a pair.
fn feature(
    out: &mut Writer,
    symbols: &Symbols,
    word: &str,
    list: &Bag,
    begun: &mut bool,
) -> Result<(), Memory>
    requires { Each (Each (IsKnown (length symbols.now))) (feature_parts word.now list.now) }
    ensures text { OnOk result (out.new ≡ out.old ++ spelled symbols.now (begun_parts begun.old (codes "[") (feature_parts word.now list.now))) }
    ensures begun { OnOk result (begun.new ≡ (begun.old || has_some (feature_parts word.now list.now))) }
{
    if list.len() == 0 {
        return Ok(());
    }
    before_part(out, "[", begun)?;
    key(out, word)?;
    sign(out, "=")?;
    bag(out, symbols, list)
}

/// Appends the closing bracket of a list that was begun.
fn after_parts(out: &mut Writer, closing: &str, begun: bool) -> Result<(), Memory>
    ensures { OnOk result (out.new ≡ out.old ++ spelled [] (cond begun (a_sign closing.now ∷ []) [])) }
{
    if begun {
        sign(out, closing)?;
    }
    Ok(())
}

/// Appends the properties of a block in their parentheses, the colour first.
fn all_properties(
    out: &mut Writer,
    symbols: &Symbols,
    paint: Option<Paint>,
    own: &Bag,
) -> Result<(), Memory>
    requires { Each (Each (IsKnown (length symbols.now))) (property_parts own.now) }
    ensures { OnOk result (out.new ≡ out.old ++ spelled symbols.now (enclosed (codes "(") (colour_parts paint ++ property_parts own.now) (codes ")"))) }
{
    let mut begun = false;
    colour(out, paint, &mut begun)?;
    properties(out, symbols, own, &mut begun)?;
    after_parts(out, ")", begun)
}

/// Appends the features of a block in their brackets: the category, the top and the bottom.
fn all_features(
    out: &mut Writer,
    symbols: &Symbols,
    own: &Bag,
    top: &Bag,
    bot: &Bag,
) -> Result<(), Memory>
    requires { Each (Each (IsKnown (length symbols.now)))
        (category_parts own.now ++ feature_parts (codes "top") top.now ++ feature_parts (codes "bot") bot.now) }
    ensures { OnOk result (out.new ≡ out.old ++ spelled symbols.now
        (enclosed (codes "[") (category_parts own.now ++ feature_parts (codes "top") top.now ++ feature_parts (codes "bot") bot.now) (codes "]"))) }
{
    let mut begun = false;
    category(out, symbols, own, &mut begun)?;
    feature(out, symbols, "top", top, &mut begun)?;
    feature(out, symbols, "bot", bot, &mut begun)?;
    after_parts(out, "]", begun)
}

/// Appends the word `node` and the variable of a block, where it has one.
fn node_name(out: &mut Writer, symbols: &Symbols, variable: &Option<Ref>) -> Result<(), Memory>
    requires { Each (IsKnown (length symbols.now)) (name_pieces variable.now) }
    ensures { OnOk result (out.new ≡ out.old ++ spelled symbols.now (a_key (codes "node") ∷ name_pieces variable.now)) }
{
    key(out, "node")?;
    match variable {
        Some(variable) => reference(out, symbols, variable),
        None => Ok(()),
    }
}

/// Appends a node block.
#[cycle(printing)]
fn block(out: &mut Writer, symbols: &Symbols, block: &NodeBlock) -> Result<(), Memory>
    requires { Each (IsKnown (length symbols.now)) (block_pieces block.now) }
    ensures { OnOk result (out.new ≡ out.old ++ spelled symbols.now (block_pieces block.now)) }
{
    node_name(out, symbols, &block.name)?;
    all_properties(out, symbols, block.colour, &block.own)?;
    all_features(out, symbols, &block.own, &block.top, &block.bot)?;
    kids(out, symbols, block.kids.as_slice())
}

/// Appends the kids of a block in their braces, where there is one.
#[cycle(printing)]
fn kids(out: &mut Writer, symbols: &Symbols, kids: &[Kid]) -> Result<(), Memory>
    requires { Each (IsKnown (length symbols.now)) (braced kid_pieces kids.now) }
    ensures { OnOk result (out.new ≡ out.old ++ spelled symbols.now (braced kid_pieces kids.now)) }
{
    if kids.is_empty() {
        return Ok(());
    }
    sign(out, "{")?;
    kids_in_row(out, symbols, kids)?;
    sign(out, "}")
}

/// Appends kids, one after another.
#[cycle(printing)]
fn kids_in_row(out: &mut Writer, symbols: &Symbols, kids: &[Kid]) -> Result<(), Memory>
    requires { Each (IsKnown (length symbols.now)) (gathered kid_pieces kids.now) }
    ensures { OnOk result (out.new ≡ out.old ++ spelled symbols.now (gathered kid_pieces kids.now)) }
{
    for one in kids {
        kid(out, symbols, one)?;
    }
    Ok(())
}

/// Appends a kid: its marks and its block.
#[cycle(printing)]
fn kid(out: &mut Writer, symbols: &Symbols, kid: &Kid) -> Result<(), Memory>
    requires { Each (IsKnown (length symbols.now)) (kid_pieces kid.now) }
    ensures { OnOk result (out.new ≡ out.old ++ spelled symbols.now (kid_pieces kid.now)) }
{
    kid_marks(out, kid.loose, kid.down)?;
    block(out, symbols, &kid.node)
}

/// Appends what stands before the word `node` of a kid.
fn kid_marks(out: &mut Writer, loose: bool, down: Relate) -> Result<(), Memory>
    ensures { OnOk result (out.new ≡ out.old ++ spelled [] (loose_pieces loose ++ down_pieces down)) }
{
    if loose {
        sign(out, ",,,")?;
    }
    match down {
        Relate::AboveOrSame => sign(out, "..."),
        Relate::Above => sign(out, "...+"),
        Relate::Parent | Relate::Next | Relate::Left | Relate::LeftOrSame | Relate::Same => Ok(()),
    }
}

/// Appends a relation between nodes.
fn relation(
    out: &mut Writer,
    symbols: &Symbols,
    left: &Ref,
    how: Relate,
    right: &Ref,
) -> Result<(), Memory>
    requires { Each (IsKnown (length symbols.now)) (ref_pieces left.now ++ a_sign (relate_text how) ∷ ref_pieces right.now) }
    ensures { OnOk result (out.new ≡ out.old ++ spelled symbols.now (ref_pieces left.now ++ a_sign (relate_text how) ∷ ref_pieces right.now)) }
{
    reference(out, symbols, left)?;
    sign(out, relate_text(how))?;
    reference(out, symbols, right)
}

/// Appends what stands between two semicolons of a `<syn>` block.
#[tactic(auto, unfolding(crate::specs::Blocks::syn_item_pieces))]
fn syn_item(out: &mut Writer, symbols: &Symbols, item: &SynItem) -> Result<(), Memory>
    requires { Each (IsKnown (length symbols.now)) (syn_item_pieces item.now) }
    ensures { OnOk result (out.new ≡ out.old ++ spelled symbols.now (syn_item_pieces item.now)) }
{
    match item {
        SynItem::Node(node) => block(out, symbols, node),
        SynItem::Relation(left, how, right) => relation(out, symbols, left, *how, right),
    }
}

/// Appends the blocks and relations of a `<syn>` block.
pub fn syn_items(out: &mut Writer, symbols: &Symbols, items: &SynItems) -> Result<(), Memory>
    requires { Each (IsKnown (length symbols.now)) (separated (a_sign (codes ";")) syn_item_pieces items.now) }
    ensures { OnOk result (out.new ≡ out.old ++ spelled symbols.now (separated (a_sign (codes ";")) syn_item_pieces items.now)) }
{
    if let Some((first, others)) = items.as_slice().split_first() {
        syn_item(out, symbols, first)?;
        for other in others {
            sign(out, ";")?;
            syn_item(out, symbols, other)?;
        }
    }
    Ok(())
}
