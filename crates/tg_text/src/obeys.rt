//! Laws of the text that is written.
ghost use Rattle.std.specs.Prelude.{◌≡◌, ℕ, ◌<◌, ◌^◌, List, length, map};
ghost use Rattle.gr_base.specs.Lists.{Each};
ghost use Rattle.td_canon.specs.declared.tree_set.ClassTrees.{ClassTrees};
ghost use Rattle.tg_reader.specs.Writable.{IsTable};
ghost use Rattle.tg_syntax.specs.Answers.{IsGrammarFile};
ghost use Rattle.tg_text.specs.Answers.{IsReadClass};
ghost use Rattle.tg_text.specs.GrammarText.{class_text_of, grammar_text};

/// What is written of classes that can be written is a text of the grammar of grammar text, in which
/// no property breaks the rule, if it has fewer than 1,000,000,000 bytes. So no number in it has more
/// than nine digits.
pub fn written_text_obeys()
    ensures { (texts : List (List ℕ)) (classes : List ClassTrees) → IsTable texts → Each (IsReadClass texts) classes
        → length (grammar_text (map (class_text_of texts) classes)) < 10 ^ 9
        → IsGrammarFile (grammar_text (map (class_text_of texts) classes)) }
{}
