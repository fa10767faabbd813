//! Laws of compiled lists, as contracts of functions that do nothing.
ghost use Rattle.std.specs.Prelude.{◌≡◌, ◌<◌, ◌^◌, ℕ, List, length, map, Result};
ghost use Rattle.gr_base.specs.Lists.{Each, NoneTwice};
ghost use Rattle.gr_symbols.specs.Numbers.{Grows};
ghost use Rattle.gr_tokens.specs.declared.ReadRefusal.{ReadRefusal as Refused};
ghost use Rattle.gr_tokens.specs.declared.ReadRefusal.TheVariants.{Memory as NoMemory};
ghost use Rattle.mg_syntax.specs.declared.item.Item.{Item as Entry};
ghost use Rattle.mg_reader.specs.Answers.{IsMetagrammar};
ghost use Rattle.mg_scope.specs.Classes.{valued_classes};
ghost use Rattle.td_canon.specs.declared.tree_set.ClassTrees.{ClassTrees as Trees};
ghost use Rattle.tg_reader.specs.Writable.{IsTable};
ghost use Rattle.tg_syntax.specs.Answers.{IsGrammarFile};
ghost use Rattle.tg_text.specs.Answers.{Classes, IsGrammarReading, IsReadClass};
ghost use Rattle.tg_text.specs.GrammarText.{class_text_of, grammar_text};
ghost use Rattle.mg_lists.specs.CompiledClasses.{AreCompiled, IsCompiledClass};
ghost use Rattle.tg_grammar.specs.NamedMarks.{HaveNamedMarks};

/// A compiled class of a metagrammar that was read can be written: its name and all attributes of its
/// trees are words, each name can be spelled, no property is named `color`, and each mark is one of
/// the six. So for the table of names as it was read with, and for one that has grown since. And no
/// class is valued twice.
pub fn compiled_lists_can_be_written()
    ensures class { (bytes : List ℕ) (texts later : List (List ℕ)) (m : List Entry) (t : Trees) → IsTable later → Grows texts later
        → IsMetagrammar bytes texts m → IsCompiledClass later m t → IsReadClass later t }
    ensures once { (m : List Entry) → NoneTwice (valued_classes m) }
{}

/// No node of a tree that was read of grammar text has a variable as its mark.
pub fn read_trees_have_words_as_marks()
    ensures { (texts : List (List ℕ)) (classes : List Trees) → Each (IsReadClass texts) classes → HaveNamedMarks classes }
{}

/// And no node of a tree that was compiled.
pub fn compiled_trees_have_words_as_marks()
    ensures { (bytes : List ℕ) (texts later : List (List ℕ)) (m : List Entry) (classes : List Trees) → IsTable later
        → Grows texts later → IsMetagrammar bytes texts m → Each (IsCompiledClass later m) classes → HaveNamedMarks classes }
{}

/// What is written of the valued classes of a metagrammar is a text of the grammar of grammar text,
/// and it is read back: by the table that it was written with the classes themselves are a right
/// answer, and with any table the only right answers besides want of memory are classes of which the
/// same is written. All this where it has fewer than 1,000,000,000 bytes.
pub fn compiled_lists_are_read_back()
    ensures file { (bytes : List ℕ) (texts later : List (List ℕ)) (m : List Entry) (classes : List Trees) → IsTable later
        → Grows texts later → IsMetagrammar bytes texts m → AreCompiled later m classes
        → length (grammar_text (map (class_text_of later) classes)) < 10 ^ 9
        → IsGrammarFile (grammar_text (map (class_text_of later) classes)) }
    ensures right { (bytes : List ℕ) (texts later : List (List ℕ)) (m : List Entry) (classes : Classes) → IsTable later
        → Grows texts later → IsMetagrammar bytes texts m → AreCompiled later m classes.items
        → length (grammar_text (map (class_text_of later) classes.items)) < 10 ^ 9
        → IsGrammarReading (grammar_text (map (class_text_of later) classes.items)) later (Ok classes) }
    ensures answer { (bytes : List ℕ) (texts later : List (List ℕ)) (m : List Entry) (classes : List Trees) → IsTable later
        → Grows texts later → IsMetagrammar bytes texts m → AreCompiled later m classes
        → length (grammar_text (map (class_text_of later) classes)) < 10 ^ 9
        → (others : List (List ℕ)) → IsTable others → (y : Result Classes Refused) → (y ≡ Err NoMemory → ⊥)
        → IsGrammarReading (grammar_text (map (class_text_of later) classes)) others y
        → (read : Classes) × (y ≡ Ok read) × (map (class_text_of others) read.items ≡ map (class_text_of later) classes) }
{}
