//! Laws of the grammar and of spelling, as contracts of functions that do nothing.
ghost use Rattle.std.specs.Prelude.{◌≡◌, ◌≤◌, ℕ, List, [], Result};
ghost use Rattle.gr_base.specs.Lists.{NoneTwice};
ghost use Rattle.gr_tokens.specs.declared.ReadRefusal.{ReadRefusal as Refused};
ghost use Rattle.mg_syntax.specs.declared.item.Item.{Item as Entry};
ghost use Rattle.gr_grammar.specs.Grammars.{IsText};
ghost use Rattle.gr_symbols.specs.Numbers.{Grows, first_texts};
ghost use Rattle.mg_syntax.specs.Names.{HasTexts};
ghost use Rattle.mg_reader.specs.Answers.{IsMetagrammar, IsRight, class_count};
ghost use Rattle.mg_reader.specs.Complaints.{metagrammar_bad};
ghost use Rattle.mg_reader.specs.Grammar.{system, metagrammar_text};
ghost use Rattle.mg_reader.specs.Spelling.{Spells};
ghost use Rattle.mg_reader.specs.Tables.{IsTable};
ghost use Rattle.mg_reader.specs.Values.{metagrammar_of};
ghost use Rattle.mg_reader.specs.declared.lexeme.Lexeme.{Lexeme as Read};

/// A text of the grammar without complaints spells the value of its tree, which has at most 4,096
/// classes.
pub fn texts_spell()
    ensures spelled { (ts : List Read) (m : IsText system metagrammar_text ts) → metagrammar_bad m ≡ [] → Spells (metagrammar_of m) ts }
    ensures few { (ts : List Read) (m : IsText system metagrammar_text ts) → metagrammar_bad m ≡ [] → class_count (metagrammar_of m) ≤ 4096 }
{}

/// What spells a metagrammar of at most 4,096 classes is a text of the grammar without complaints,
/// and its tree has the metagrammar as value.
pub fn spellings_are_texts()
    ensures { (m : List Entry) (ts : List Read) → Spells m ts → class_count m ≤ 4096
        → (tree : IsText system metagrammar_text ts) × (metagrammar_of tree ≡ m) × (metagrammar_bad tree ≡ []) }
{}

/// For a text and a table in which no text stands twice, at most one answer is right. So where a text
/// spells a metagrammar within the limits, nothing but it is read, and where none is read there is
/// one place and one reason.
pub fn one_answer()
    ensures { (bytes : List ℕ) (texts : List (List ℕ)) (a b : Result (List Entry) Refused) → NoneTwice texts
        → IsRight bytes texts a → IsRight bytes texts b → a ≡ b }
{}

/// For a text and the table that reading begins with, just one table is right behind it. No text
/// stands twice in it, where none did before: so with [`one_answer`] the text and the table before
/// say which answer is right, and which table.
pub fn one_table()
    ensures some { (bytes : List ℕ) (old : List (List ℕ)) → (new : List (List ℕ)) × IsTable bytes old new }
    ensures one { (bytes : List ℕ) (old a b : List (List ℕ)) → IsTable bytes old a → IsTable bytes old b → a ≡ b }
    ensures apart { (bytes : List ℕ) (old new : List (List ℕ)) → NoneTwice old → IsTable bytes old new → NoneTwice new }
{}

/// For a text and the table behind it an answer is right: a metagrammar, or a refusal that isn't want
/// of memory.
pub fn some_answer()
    ensures { (bytes : List ℕ) (old new : List (List ℕ)) → IsTable bytes old new
        → (answer : Result (List Entry) Refused) × IsRight bytes new answer }
{}

/// Each name of a metagrammar that was read has a text: in the table that its text belongs to, and
/// in one that has grown since.
pub fn names_have_texts()
    ensures { (bytes : List ℕ) (texts later : List (List ℕ)) (m : List Entry) → Grows first_texts texts → Grows texts later
        → IsMetagrammar bytes texts m → HasTexts later m }
{}
