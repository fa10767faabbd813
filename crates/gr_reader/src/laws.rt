//! Laws of lexemes, classes, readings and complaints, as contracts of functions that do nothing.
ghost use Rattle.std.specs.Prelude.{◌≡◌, ◌↔◌, ◌+◌, ℕ, List, [], ◌++◌, Option, None, Some, length, drop, true, Result};
ghost use Rattle.gr_base.specs.Lists.{Each};
ghost use Rattle.gr_grammar.specs.Depths.{IsShallow, IsShallowFault};
ghost use Rattle.gr_grammar.specs.Grammars.{Grammar, Info, System, IsSystem, IsFault, IsText, Matches, Runs, took, failed, goes, is_clear, tree_of};
ghost use Rattle.gr_text.specs.declared.Place.{Place as Spot};
ghost use Rattle.gr_tokens.specs.Answers.{AreTokens};
ghost use Rattle.gr_tokens.specs.Spans.{slice_of};
ghost use Rattle.gr_tokens.specs.Tokens.{Writes};
ghost use Rattle.gr_tokens.specs.declared.Token.{Token as Cut};
ghost use Rattle.gr_reader.specs.declared.complaints.Complaint.{Complaint as Noted};
ghost use Rattle.gr_reader.specs.Brackets.{turn};
ghost use Rattle.gr_reader.specs.Classes.{Class as Meant, apart, flat, system_of, test};
ghost use Rattle.gr_reader.specs.Complaints.{IsFirst, all_noted};
ghost use Rattle.gr_reader.specs.Fronts.{IsFront, IsFrontReading, IsNoFront};
ghost use Rattle.gr_reader.specs.Files.{BreaksOff, IsFile};
ghost use Rattle.gr_reader.specs.Levels.{level_behind};
ghost use Rattle.gr_reader.specs.Lexemes.{Lexeme, lexeme_of};

/// The text of a token's lexeme is the one that the token writes, and lexemes form a set, so the
/// laws of grammars hold of them.
pub fn lexemes_are_written()
    ensures written { (bytes : List ℕ) (tokens : List Cut) → AreTokens bytes tokens
        → Each (λ t. Writes t.kind (lexeme_of bytes t).text (slice_of bytes t)) tokens }
    ensures set { IsSet Lexeme }
{}

/// Classes that are called apart share no lexeme, each class has one, and the system without
/// numbered parts is one.
pub fn classes_are_right()
    ensures are_apart { (c d : Meant) (t : Lexeme) → apart c d ≡ true → test c t ≡ true → test d t ≡ true → ⊥ }
    ensures shown { (c : Meant) → (t : Lexeme) × (test c t ≡ true) }
    ensures system { IsSystem flat }
{}

/// One answer of a reader of a front is right for each list of tokens, and there is one.
pub fn one_front_reading<C, T, A>()
    ensures one { IsSet T → (S : System C T) → IsSystem S → (g : Grammar C) → is_clear S g ≡ true
        → (value : (ts rest : List T) → Matches S g ts rest → A)
        → (ts : List T) (x y : Result (A × ℕ) ℕ)
        → IsFrontReading S g value ts x → IsFrontReading S g value ts y → x ≡ y }
    ensures some { (S : System C T) → IsSystem S → (g : Grammar C) → is_clear S g ≡ true
        → (value : (ts rest : List T) → Matches S g ts rest → A)
        → (ts : List T) → (x : Result (A × ℕ) ℕ) × IsFrontReading S g value ts x }
{}

/// A run gives it: the value of its tree and the number of the tokens that it took, or of those
/// before the place where it failed.
pub fn run_reads_front<C, T, A>()
    ensures taken { (S : System C T) → IsSystem S → (g : Grammar C) → is_clear S g ≡ true
        → (value : (ts rest : List T) → Matches S g ts rest → A)
        → (ts rest : List T) (n : ℕ) → n + length rest ≡ length ts → (r : Runs S g ts (took rest))
        → IsFront S g value ts (value ts rest (tree_of r)) n }
    ensures stopped { (S : System C T) → IsSystem S → (g : Grammar C) → is_clear S g ≡ true
        → (ts rest : List T) (n : ℕ) → n + length rest ≡ length ts → Runs S g ts (failed rest)
        → IsNoFront S g ts n }
{}

/// Where nothing goes on behind a text, tokens begin with one text at most, and with none where the
/// answer is a place.
pub fn fronts_are_texts<C, T>()
    ensures one { (S : System C T) → IsSystem S → (g : Grammar C) → is_clear S g ≡ true → goes S g ≡ []
        → (ts r s : List T) → Matches S g ts r → Matches S g ts s → r ≡ s }
    ensures none { (S : System C T) → IsSystem S → (g : Grammar C) → is_clear S g ≡ true → goes S g ≡ []
        → (ts rest : List T) (n : ℕ) → IsNoFront S g ts n → Matches S g ts rest → ⊥ }
{}

/// A reading of a front is a run, for the reader around it.
pub fn fronts_are_runs<C, T, A>()
    ensures taken { IsSet T → (S : System C T) → IsSystem S → (g : Grammar C) → is_clear S g ≡ true
        → (value : (ts rest : List T) → Matches S g ts rest → A)
        → (ts : List T) (a : A) (n : ℕ) → IsFront S g value ts a n
        → (r : Runs S g ts (took (drop n ts))) × (a ≡ value ts (drop n ts) (tree_of r)) }
    ensures stopped { (S : System C T) → IsSystem S → (g : Grammar C) → is_clear S g ≡ true
        → (ts : List T) (n : ℕ) → IsNoFront S g ts n → Runs S g ts (failed (drop n ts)) }
{}

/// Where no text of a grammar opens a bracket too deep, as it is computed, the limit says nothing:
/// each text is inside it, and the places with it and without are the same.
pub fn shallow_grammars()
    ensures inside { (parts : ℕ → Grammar Meant) (info : ℕ → Info Meant) (g : Grammar Meant) (limit m : ℕ)
        → level_behind limit 0 g ≡ Some m → (ts : List Lexeme) → IsText (system_of parts info) g ts
        → IsShallow turn limit 0 ts }
    ensures place { (parts : ℕ → Grammar Meant) (info : ℕ → Info Meant) (g : Grammar Meant) (limit m : ℕ)
        → level_behind limit 0 g ≡ Some m → (ts rest : List Lexeme)
        → (IsShallowFault (system_of parts info) turn limit g ts rest ↔ IsFault (system_of parts info) g ts rest) }
{}

/// The tokens of a file break off at one place, and only where they are no text. A text has one tree,
/// and a tree one first complaint, so for each file one refusal is right besides want of memory, or
/// none.
pub fn files_break_off_once()
    ensures one { (S : System Meant Lexeme) (g : Grammar Meant) (bytes : List ℕ) (tokens : List Cut) (p q : Spot)
        → BreaksOff S g bytes tokens p → BreaksOff S g bytes tokens q → p ≡ q }
    ensures none { (S : System Meant Lexeme) (g : Grammar Meant) (bytes : List ℕ) (tokens : List Cut) (p : Spot)
        → IsFile S g bytes tokens → BreaksOff S g bytes tokens p → ⊥ }
    ensures tree { (S : System Meant Lexeme) → IsSystem S → (g : Grammar Meant) → is_clear S g ≡ true
        → (ts rest : List Lexeme) (m n : Matches S g ts rest) → m ≡ n }
{}

/// The complaint that is kept is the first of all, none is kept just where there is none, and parts
/// of a text can be gone over one after another.
pub fn first_complaint()
    ensures first { (cs : List Noted) (c : Noted) → all_noted None cs ≡ Some c → IsFirst cs c }
    ensures none { (cs : List Noted) → all_noted None cs ≡ None → cs ≡ [] }
    ensures parts { (b : Option Noted) (cs ds : List Noted) → all_noted b (cs ++ ds) ≡ all_noted (all_noted b cs) ds }
{}
