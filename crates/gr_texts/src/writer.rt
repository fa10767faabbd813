//! Appends lexemes to a text.
ghost use Rattle.std.specs.Prelude.{◌≡◌, [], ◌∷◌, ◌++◌, length, string_bytes, OnOk, OnErr};
ghost use Rattle.gr_texts.specs.Lexemes.{name_kind, name_lexeme, spaced};

use gr_base::Memory;
use gr_text::is_bare;
use gr_tokens::Kind;
use std::alloc::Global;
use std::marker::Model;

/// A text to which lexemes are appended, which contracts see as its bytes.
///
/// Each item begins with [`first`](Writer::first), goes on with lexemes, each behind one space, and
/// ends with [`end`](Writer::end). For want of memory each call leaves the text as it was.
#[derive(Drop)]
pub struct Writer {
    text: String,
}

impl Model for Writer {
    ghost use Rattle.std.specs.Prelude.{List, ℕ, string_bytes};

    ghost Value = { List ℕ };

    ghost view = { λ w. string_bytes w.text };
}

// The kind of the lexeme that a name is.
fn name_kind(text: &str) -> Kind
    ensures { result ≡ name_kind text.now }
{
    if is_bare(text) { Kind::Word } else { Kind::Str }
}

impl Writer {
    /// A writer of the empty text, which takes no memory.
    pub fn new(alloc: Global) -> Writer
        ensures { result ≡ [] }
    {
        Writer {
            text: String::new(alloc),
        }
    }

    /// Appends the first word of an item.
    pub fn first(&mut self, word: &str) -> Result<(), Memory>
        ensures ok { OnOk result (self.new ≡ self.old ++ word.now) }
        ensures err { OnErr result (self.new ≡ self.old) }
    {
        self.text.push_str(word)?;
        Ok(())
    }

    /// Appends a lexeme of this kind and text, behind a space.
    pub fn lexeme(&mut self, kind: Kind, text: &str) -> Result<(), Memory>
        ensures ok { OnOk result (self.new ≡ self.old ++ spaced (record { kind = kind; text = text.now } ∷ [])) }
        ensures err { OnErr result (self.new ≡ self.old) }
    {
        self.text.reserve(text.len() + 3)?;
        self.text.push(' ')?;
        match kind {
            Kind::Word | Kind::Punct => self.text.push_str(text)?,
            Kind::Var => {
                self.text.push('?')?;
                self.text.push_str(text)?;
            }
            Kind::Str => {
                self.text.push('"')?;
                self.text.push_str(text)?;
                self.text.push('"')?;
            }
        }
        Ok(())
    }

    /// Appends a name behind a space: as a word where its text is one, else as a string.
    pub fn name(&mut self, text: &str) -> Result<(), Memory>
        ensures ok { OnOk result (self.new ≡ self.old ++ spaced (name_lexeme text.now ∷ [])) }
        ensures err { OnErr result (self.new ≡ self.old) }
    {
        self.lexeme(name_kind(text), text)
    }

    /// Appends LF, which ends an item.
    pub fn end(&mut self) -> Result<(), Memory>
        ensures ok { OnOk result (self.new ≡ self.old ++ 10 ∷ []) }
        ensures err { OnErr result (self.new ≡ self.old) }
    {
        self.text.push('\n')?;
        Ok(())
    }

    /// The text.
    pub fn into_text(self) -> String
        ensures { string_bytes result ≡ self }
    {
        self.text
    }
}
