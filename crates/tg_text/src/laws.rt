//! Laws of reading grammar text.
ghost use Rattle.std.specs.Prelude.{◌≡◌, ℕ, ◌<◌, ◌^◌, List, length, map, Result};
ghost use Rattle.std.specs.Str.{IsUtf8};
ghost use Rattle.gr_base.specs.Lists.{Each, NoneTwice};
ghost use Rattle.gr_tokens.specs.declared.ReadRefusal.{ReadRefusal as Refused};
ghost use Rattle.gr_tokens.specs.declared.ReadRefusal.TheVariants.{Memory as NoMemory, NotCanonical as NoCanonical};
ghost use Rattle.td_canon.specs.Spelling.{Lacks};
ghost use Rattle.td_canon.specs.declared.tree_set.ClassTrees.{ClassTrees as Trees};
ghost use Rattle.tg_reader.specs.Writable.{IsTable, IsTreeText};
ghost use Rattle.tg_text.specs.Alike.{AreAlike};
ghost use Rattle.tg_text.specs.Answers.{Classes, IsGrammarAnswer, IsGrammarReading, IsReadClass};
ghost use Rattle.tg_text.specs.GrammarText.{class_text_of, grammar_text};
ghost use Rattle.gr_text.specs.Limits.{IsShort};

/// For each text of bytes one answer is right besides want of memory, whatever the table of texts:
/// the same refusal, or classes with the same names, the same texts of trees and the same last lines,
/// in the same order.
pub fn one_answer()
    ensures { (bytes : List ℕ) (texts others : List (List ℕ)) → IsTable texts → IsTable others
        → (x y : Result Classes Refused) → (x ≡ Err NoMemory → ⊥) → (y ≡ Err NoMemory → ⊥)
        → IsGrammarReading bytes texts x → IsGrammarReading bytes others y → AreAlike texts others x y }
{}

/// Behind classes that were read the table of texts is a function of the table before them and of the
/// bytes, of which there are at most 1,048,576. It has each text once and begins with the ten first
/// texts, as the one before, so that another text can be read into it.
pub fn one_table()
    ensures same { (bytes : List ℕ) (old new others : List (List ℕ)) (x y : Classes) → IsShort bytes → IsTable old
        → IsGrammarAnswer bytes old new (Ok x) → IsGrammarAnswer bytes old others (Ok y) → new ≡ others }
    ensures table { (bytes : List ℕ) (old new : List (List ℕ)) (x : Classes) → IsTable old → IsGrammarAnswer bytes old new (Ok x) → IsTable new }
{}

/// What was written of classes that can be written, no two of which have one name, is read back. Classes
/// that are read of it are such of which the same is written, and it is refused at no line. Where it has
/// fewer than 1,000,000,000 bytes, these classes are the only right answer besides want of memory.
pub fn what_was_written_is_read()
    ensures same { (texts : List (List ℕ)) (classes : List Trees) → IsTable texts → Each (IsReadClass texts) classes
        → NoneTwice (map (λ (c : Trees). c.class) classes) → (others : List (List ℕ)) → IsTable others → (read : Classes)
        → IsGrammarReading (grammar_text (map (class_text_of texts) classes)) others (Ok read)
        → map (class_text_of others) read.items ≡ map (class_text_of texts) classes }
    ensures canonical { (texts : List (List ℕ)) (classes : List Trees) → IsTable texts → Each (IsReadClass texts) classes
        → NoneTwice (map (λ (c : Trees). c.class) classes) → (others : List (List ℕ)) (line : ℕ)
        → IsGrammarReading (grammar_text (map (class_text_of texts) classes)) others (Err (NoCanonical line)) → ⊥ }
    ensures only { (texts : List (List ℕ)) (classes : List Trees) → IsTable texts → Each (IsReadClass texts) classes
        → NoneTwice (map (λ (c : Trees). c.class) classes)
        → length (grammar_text (map (class_text_of texts) classes)) < 10 ^ 9
        → (others : List (List ℕ)) → IsTable others → (y : Result Classes Refused) → (y ≡ Err NoMemory → ⊥)
        → IsGrammarReading (grammar_text (map (class_text_of texts) classes)) others y
        → (read : Classes) × (y ≡ Ok read) × (map (class_text_of others) read.items ≡ map (class_text_of texts) classes) }
{}

/// The canonical text of a tree that can be written has no LF, so that it stands in one line, and it is
/// UTF-8.
pub fn a_tree_is_one_line()
    ensures line { (text : List ℕ) → IsTreeText text → Lacks 10 text }
    ensures utf8 { (text : List ℕ) → IsTreeText text → IsUtf8 text }
{}
