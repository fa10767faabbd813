//! Laws of printed texts, as contracts of functions that do nothing.
ghost use Rattle.std.specs.Prelude.{◌≡◌, ℕ, List};
ghost use Rattle.gr_base.specs.Lists.{Each, joined};
ghost use Rattle.gr_text.specs.Words.{Spells};
ghost use Rattle.gr_tokens.specs.Answers.{AreTokens};
ghost use Rattle.gr_tokens.specs.declared.Token.{Token as Cut};
ghost use Rattle.gr_reader.specs.Lexemes.{Lexeme, lexemes};
ghost use Rattle.gr_texts.specs.Lexemes.{IsLexeme, IsNameText, SayAll, name_lexeme, printed, spelling};

/// What is printed from items of lexemes has a token for each lexeme, in order, and no other.
pub fn printed_texts_have_their_lexemes()
    ensures { (items : List (List Lexeme)) → Each (Each IsLexeme) items → (found : List Cut) × AreTokens (printed items) found
        × SayAll (printed items) found (joined items) × (lexemes (printed items) found ≡ joined items) }
{}

/// A name is a lexeme, and its one spelling is that of the lexeme.
pub fn names_are_lexemes()
    ensures lexeme { (t : List ℕ) → IsNameText t → IsLexeme (name_lexeme t) }
    ensures spelling { (t s : List ℕ) → Spells s t → s ≡ spelling (name_lexeme t) }
{}
