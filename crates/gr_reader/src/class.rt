//! Classes of tokens.
ghost use Rattle.std.specs.Prelude.{◌≡◌, map};
ghost use Rattle.gr_reader.specs.Classes.{class_of, is_one_of, kind_number, takes_kind, takes_text};

use gr_tokens::Kind;

/// A class of tokens, as a grammar has them.
#[derive(Clone, Copy)]
pub enum Class<'c> {
    /// This sign.
    Sign(&'c str),
    /// This word.
    Keyword(&'c str),
    /// Any word.
    AnyWord,
    /// A word that is none of these.
    WordBut(&'c [&'c str]),
    /// A word that is the first or one of the others.
    WordAmong(&'c str, &'c [&'c str]),
    /// A string.
    AnyString,
    /// A word or a string.
    AnyName,
    /// A variable.
    Variable,
}

/// The number of a kind: 0 of words, 1 of strings, 2 of variables, 3 of signs.
pub fn number(kind: Kind) -> usize
    ensures { result ≡ kind_number kind }
{
    match kind {
        Kind::Word => 0,
        Kind::Str => 1,
        Kind::Var => 2,
        Kind::Punct => 3,
    }
}

/// Whether the text is one of these.
pub fn is_among(texts: &[&str], text: &[u8]) -> bool
    ensures { result ≡ is_one_of (map (λ t. t.now) texts.now) text.now }
{
    match texts.split_first() {
        None => false,
        Some((first, more)) => first.as_bytes() == text || is_among(more, text),
    }
}

impl<'c> Class<'c> {
    /// Whether tokens of the class may have this kind.
    pub fn has_kind(self, kind: Kind) -> bool
        ensures { result ≡ takes_kind (class_of self.entry) (kind_number kind) }
    {
        let k = number(kind);
        match self {
            Class::Sign(_) => k == 3,
            Class::Keyword(_) => k == 0,
            Class::AnyWord => k == 0,
            Class::WordBut(_) => k == 0,
            Class::WordAmong(_, _) => k == 0,
            Class::AnyString => k == 1,
            Class::AnyName => k == 0 || k == 1,
            Class::Variable => k == 2,
        }
    }

    /// Whether tokens of the class may have this text.
    pub fn has_text(self, text: &[u8]) -> bool
        ensures { result ≡ takes_text (class_of self.entry) text.now }
    {
        match self {
            Class::Sign(sign) => sign.as_bytes() == text,
            Class::Keyword(word) => word.as_bytes() == text,
            Class::AnyWord => true,
            Class::WordBut(words) => !is_among(words, text),
            Class::WordAmong(word, words) => word.as_bytes() == text || is_among(words, text),
            Class::AnyString => true,
            Class::AnyName => true,
            Class::Variable => true,
        }
    }
}
