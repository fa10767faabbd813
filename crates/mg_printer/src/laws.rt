//! Laws of printed metagrammars, as contracts of functions that do nothing.
ghost use Rattle.std.specs.Prelude.{ℕ, List};
ghost use Rattle.gr_base.specs.Lists.{NoneTwice};
ghost use Rattle.gr_symbols.specs.Numbers.{Grows, first_texts};
ghost use Rattle.mg_syntax.specs.declared.item.Item.{Item as Entry};
ghost use Rattle.mg_reader.specs.Answers.{IsMetagrammar};
ghost use Rattle.mg_syntax.specs.Names.{HasTexts};
ghost use Rattle.mg_printer.specs.Printing.{spelling};

/// A metagrammar that was read can be printed, and its canonical spelling spells the same
/// metagrammar, within the limits: with the table of names as it was then, and with one that has
/// grown since.
pub fn printed_and_read()
    ensures texts { (bytes : List ℕ) (texts later : List (List ℕ)) (m : List Entry) → Grows first_texts texts → Grows texts later → NoneTwice later
        → IsMetagrammar bytes texts m → HasTexts later m }
    ensures again { (bytes : List ℕ) (texts later : List (List ℕ)) (m : List Entry) → Grows first_texts texts → Grows texts later → NoneTwice later
        → IsMetagrammar bytes texts m → IsMetagrammar (spelling later m) later m }
{}
