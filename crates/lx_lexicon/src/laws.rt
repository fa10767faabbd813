//! Laws of lexicons, as contracts of functions that do nothing.
ghost use Rattle.std.specs.Prelude.{◌≡◌, ℕ, List, Result};
ghost use Rattle.gr_base.specs.Lists.{Each, NoneTwice};
ghost use Rattle.gr_symbols.specs.Numbers.{Grows};
ghost use Rattle.gr_tokens.specs.declared.ReadRefusal.{ReadRefusal as Refused};
ghost use Rattle.gr_tokens.specs.declared.ReadRefusal.TheVariants.{Memory as NoMemory};
ghost use Rattle.lx_lexicon.specs.Answers.{IsLexiconAnswer, IsLexiconReading};
ghost use Rattle.lx_lexicon.specs.Entries.{KeepsLimits};
ghost use Rattle.lx_lexicon.specs.declared.entry.Entry.{Entry as Listed};

/// Behind one table in which no text stands twice, at most one answer is right for a text besides want
/// of memory, and at most one new table where it is a lexicon. In the new table no text stands twice,
/// and it begins with the old one.
pub fn one_answer()
    ensures answer { (bytes : List ℕ) (old : List (List ℕ)) → NoneTwice old
        → (new later : List (List ℕ)) (x y : Result (List Listed) Refused) → (x ≡ Err NoMemory → ⊥) → (y ≡ Err NoMemory → ⊥)
        → IsLexiconAnswer bytes old new x → IsLexiconAnswer bytes old later y → x ≡ y }
    ensures table { (bytes : List ℕ) (old new later : List (List ℕ)) (es fs : List Listed)
        → IsLexiconAnswer bytes old new (Ok es) → IsLexiconAnswer bytes old later (Ok fs) → new ≡ later }
    ensures once { (bytes : List ℕ) (old new : List (List ℕ)) (es : List Listed) → NoneTwice old
        → IsLexiconAnswer bytes old new (Ok es) → NoneTwice new }
    ensures grows { (bytes : List ℕ) (old new : List (List ℕ)) (es : List Listed)
        → IsLexiconAnswer bytes old new (Ok es) → Grows old new }
{}

/// By one table of texts, at most one answer is right besides want of memory. An answer that is right
/// by the tables before and behind the reading is right by the one behind it.
pub fn one_reading()
    ensures one { (bytes : List ℕ) (texts : List (List ℕ)) → NoneTwice texts
        → (x y : Result (List Listed) Refused) → (x ≡ Err NoMemory → ⊥) → (y ≡ Err NoMemory → ⊥)
        → IsLexiconReading bytes texts x → IsLexiconReading bytes texts y → x ≡ y }
    ensures behind { (bytes : List ℕ) (old new : List (List ℕ)) (x : Result (List Listed) Refused)
        → IsLexiconAnswer bytes old new x → IsLexiconReading bytes new x }
{}

/// What was right stays right as the table of texts grows.
pub fn answers_stay()
    ensures { (texts later : List (List ℕ)) → Grows texts later
        → (bytes : List ℕ) (x : Result (List Listed) Refused)
        → IsLexiconReading bytes texts x → IsLexiconReading bytes later x }
{}

/// An entry that was read has at most 4 literals, its co-anchors have different names, and no lemma
/// of it is empty.
pub fn entries_keep_limits()
    ensures { (bytes : List ℕ) (texts : List (List ℕ)) (es : List Listed)
        → IsLexiconReading bytes texts (Ok es) → Each (KeepsLimits texts) es }
{}
