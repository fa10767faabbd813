//! Reads a lexicon from its bytes.
ghost use Rattle.std.specs.Prelude.{◌≡◌, ◌+◌, ◌≤◌, [], length, OnOk};
ghost use Rattle.gr_reader.specs.Classes.{flat};
ghost use Rattle.gr_reader.specs.Complaints.{all_noted};
ghost use Rattle.gr_reader.specs.Parts.{Reads};
ghost use Rattle.gr_feats.specs.Passing.{Later, PassesTexts};
ghost use Rattle.gr_feats.specs.Tables.{PutsNames};
ghost use Rattle.gr_reader.specs.Lexemes.{lexemes};
ghost use Rattle.gr_symbols.specs.Numbers.{Grows};
ghost use Rattle.gr_tokens.specs.Answers.{AreTokens};
ghost use Rattle.lx_lexicon.specs.Answers.{IsTokensAnswer, IsLexiconAnswer};
ghost use Rattle.lx_lexicon.specs.Complaints.{entry_bad, lexicon_bad};
ghost use Rattle.lx_lexicon.specs.Entries.{IsEntry, AreEntries};
ghost use Rattle.lx_lexicon.specs.Grammars.{entry_text, entry_of, lexicon_text, lexicon_of};
ghost use Rattle.gr_text.specs.Limits.{IsShort};

use crate::entry::{Entry, Lexicon};
use crate::notes::accepted;
use crate::parts::entry;
use gr_base::Items;
use gr_reader::class::Class;
use gr_reader::complaints::Complaints;
use gr_reader::reader::{Reader, Stop};
use gr_reader::whole::whole_file;
use gr_symbols::Symbols;
use gr_tokens::{ReadRefusal, Token, tokens};
use std::alloc::Global;

/// An entry. Its complaints are noted.
fn next_entry(
    alloc: Global,
    reader: &mut Reader<'_>,
    symbols: &mut Symbols,
    complaints: &mut Complaints,
) -> Result<Entry, Stop>
    ensures reads { Reads flat entry_text (λ ts rest m x. Later symbols.new (λ texts. IsEntry texts (entry_of m) x)
        × (complaints.new ≡ all_noted complaints.old (entry_bad (entry_of m)))) reader.old reader.new result }
    ensures passes { PassesTexts symbols.old symbols.new reader.old reader.new }
    ensures table { OnOk result (PutsNames entry_text symbols.old symbols.new reader.old reader.new) }
{
    let found = entry(alloc, reader, symbols)?;
    let next = accepted(alloc, found, symbols, complaints)?;
    Ok(next)
}

/// The entries of a lexicon. Their complaints are noted.
fn entries(
    alloc: Global,
    reader: &mut Reader<'_>,
    symbols: &mut Symbols,
    complaints: &mut Complaints,
) -> Result<Lexicon, Stop>
    ensures reads { Reads flat lexicon_text (λ ts rest m x. Later symbols.new (λ texts. AreEntries texts (lexicon_of m) x)
        × (complaints.new ≡ all_noted complaints.old (lexicon_bad (lexicon_of m)))) reader.old reader.new result }
    ensures passes { PassesTexts symbols.old symbols.new reader.old reader.new }
    ensures table { OnOk result (PutsNames lexicon_text symbols.old symbols.new reader.old reader.new) }
{
    let mut lexicon = Items::new(alloc);
    'row: while reader.sees(Class::Keyword("entry")) {
        let next = next_entry(alloc, reader, symbols, complaints)?;
        let _next = lexicon.push(next)?;
    }
    Ok(lexicon)
}

/// The lexicon of the tokens of some bytes.
fn read_tokens(
    alloc: Global,
    bytes: &[u8],
    tokens: &[Token],
    symbols: &mut Symbols,
) -> Result<Lexicon, ReadRefusal>
    requires bytes { IsShort bytes.now }
    requires tokens { AreTokens bytes.now tokens.now }
    ensures answer { IsTokensAnswer bytes.now tokens.now symbols.new result }
    ensures table { OnOk result (PutsNames lexicon_text symbols.old symbols.new (lexemes bytes.now tokens.now) []) }
    ensures grows { Grows symbols.old symbols.new }
    ensures few { length symbols.new ≤ length symbols.old + length tokens.now }
{
    let mut reader = Reader::between(bytes, tokens, 0, tokens.len());
    let mut complaints = Complaints::new();
    let read = entries(alloc, &mut reader, symbols, &mut complaints);
    whole_file(bytes, tokens, &reader, read, &complaints)
}

/// The lexicon that the bytes spell, at most 1,048,576 of them: its entries, in the order of the text.
/// Names are numbers of the table. It keeps all of its texts and gets the names and variables of the
/// lexicon, which are taken in the order of the text, and nothing more; where the text is refused, at
/// most as many as there are bytes. Variables are numbered from 0 in each entry, by first meeting in
/// the interface, the anchor's features and the literals; a literal without a handle has the next
/// variable as handle.
///
/// A text that isn't UTF-8 is refused as `NotUtf8`. It is refused as `Syntax` at the first byte that
/// begins no token, or else at the first token after which no lexicon goes on, or at the end. Then the
/// first complaint counts: `Duplicate` where an attribute stands a second time in a bag or the name of
/// a co-anchor a second time in an entry, `EmptyWord` at the lemma of an entry or of a co-anchor that
/// is the empty text, or `EntryLiterals` at the word `entry` of an entry with more than 4 literals.
/// Want of memory may stand in place of any answer.
pub fn read_lexicon(
    alloc: Global,
    bytes: &[u8],
    symbols: &mut Symbols,
) -> Result<Lexicon, ReadRefusal>
    requires { IsShort bytes.now }
    ensures answer { IsLexiconAnswer bytes.now symbols.old symbols.new result }
    ensures grows { Grows symbols.old symbols.new }
    ensures few { length symbols.new ≤ length symbols.old + length bytes.now }
{
    let cut = tokens(alloc, bytes)?;
    read_tokens(alloc, bytes, cut.as_slice(), symbols)
}
