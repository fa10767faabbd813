//! Reads a metagrammar from its bytes: tokens, lexemes, the grammar, complaints.
ghost use Rattle.std.specs.Prelude.{◌≡◌, ◌+◌, ◌≤◌, ◌⊎◌, [], ◌∷◌, length, drop, IfOk, IfErr, OnOk};
ghost use Rattle.gr_base.specs.Lists.{Each};
ghost use Rattle.gr_grammar.specs.Depths.{shallow_len};
ghost use Rattle.gr_grammar.specs.Readings.{IsReading};
ghost use Rattle.gr_reader.specs.Lexemes.{HasText, lexeme_of};
ghost use Rattle.gr_symbols.specs.Numbers.{Grows, Names};
ghost use Rattle.gr_tokens.specs.Answers.{AreTokens};
ghost use Rattle.gr_tokens.specs.Spans.{slice_of};
ghost use Rattle.gr_tokens.specs.Tokens.{Writes};
ghost use Rattle.mg_reader.specs.Answers.{IsMetagrammar, IsRefusal, place_of, reading_of};
ghost use Rattle.mg_reader.specs.Grammar.{system, metagrammar_text};
ghost use Rattle.mg_reader.specs.Keywords.{AreKeywords};
ghost use Rattle.mg_reader.specs.Kinds.{turn, word_kind};
ghost use Rattle.mg_reader.specs.Reading.{accepted};
ghost use Rattle.mg_reader.specs.Lexemes.{EachIs, IsLexeme, kind_of, HasName};
ghost use Rattle.mg_reader.specs.Tables.{AreNumbered, IsBehind, IsNamed, IsTable};
ghost use Rattle.gr_text.specs.Limits.{IsShort};

use crate::cursor::{Cursor, Stop};
use crate::lexeme::{Kind, Lexeme};
use crate::notes::{Attributes, Complaint};
use crate::reader::Reader;
use gr_base::Memory;
use gr_grammar::brackets::depth_behind;
use gr_reader::brackets::BRACKET_LIMIT;
use gr_reader::places::end_place;
use gr_reader::reader::text_of;
use gr_symbols::Symbols;
use gr_terms::{EMPTY, Sym};
use gr_text::Place;
use gr_tokens::{Kind as Cut, ReadRefusal, Token, tokens};
use mg_syntax::Metagrammar;
use std::alloc::Global;
use std::str;

/// The kind of a token with this text.
fn kind_with(cut: Cut, text: &str) -> Kind
    ensures { result ≡ kind_of cut text.now }
{
    match cut {
        Cut::Word => Kind::of_word(text),
        Cut::Str => Kind::Str,
        Cut::Var => Kind::Var,
        Cut::Punct => Kind::of_sign(text),
    }
}

/// The name of a word of this kind, which may be new to the table. The table is asked for that of a
/// word of the grammar just once, and then it stands in the list of those, at the number of its kind.
fn name_of_word(
    kind: Kind,
    text: &str,
    symbols: &mut Symbols,
    keywords: &mut [Option<Sym>; 256],
) -> Result<Sym, Memory>
    requires kind { kind ≡ word_kind text.now }
    requires keywords { AreKeywords symbols.now keywords.now }
    ensures named { IfOk result (λ name. Names symbols.new name.0 text.now) }
    ensures numbered { OnOk result (IsNamed text.now symbols.old symbols.new) }
    ensures grows { Grows symbols.old symbols.new }
    ensures few { length symbols.new ≤ length symbols.old + 1 }
    ensures keywords { OnOk result (AreKeywords symbols.new keywords.new) }
{
    if let Kind::Word = kind {
        return symbols.intern(text);
    }
    let number = usize::from(kind.number());
    if let Some(name) = keywords[number] {
        return Ok(name);
    }
    let name = symbols.intern(text)?;
    keywords[number] = Some(name);
    Ok(name)
}

/// The name of a token of this kind with this text, which may be new to the table.
fn name_with(
    cut: Cut,
    kind: Kind,
    text: &str,
    symbols: &mut Symbols,
    keywords: &mut [Option<Sym>; 256],
) -> Result<Sym, Memory>
    requires kind { kind ≡ kind_of cut text.now }
    requires keywords { AreKeywords symbols.now keywords.now }
    ensures named { IfOk result (λ name. HasName symbols.new cut text.now name) }
    ensures numbered { OnOk result (IsBehind cut text.now symbols.old symbols.new) }
    ensures grows { Grows symbols.old symbols.new }
    ensures few { length symbols.new ≤ length symbols.old + 1 }
    ensures keywords { OnOk result (AreKeywords symbols.new keywords.new) }
{
    match cut {
        Cut::Punct => Ok(EMPTY),
        Cut::Word => name_of_word(kind, text, symbols, keywords),
        Cut::Str => symbols.intern(text),
        Cut::Var => symbols.intern(text),
    }
}

/// The lexeme of a token.
fn lexeme(
    bytes: &[u8],
    token: &Token,
    symbols: &mut Symbols,
    keywords: &mut [Option<Sym>; 256],
) -> Result<Lexeme, Memory>
    requires text { HasText bytes.now token.now }
    requires written { Writes token.now.kind (lexeme_of bytes.now token.now).text (slice_of bytes.now token.now) }
    requires keywords { AreKeywords symbols.now keywords.now }
    ensures is { IfOk result (λ l. IsLexeme bytes.now symbols.new token.now l) }
    ensures numbered { OnOk result (AreNumbered bytes.now symbols.old (token.now ∷ []) symbols.new) }
    ensures grows { Grows symbols.old symbols.new }
    ensures few { length symbols.new ≤ length symbols.old + 1 }
    ensures keywords { OnOk result (AreKeywords symbols.new keywords.new) }
{
    // The text of a token is UTF-8, which its bytes needn't be looked through for.
    let text = unsafe { str::from_utf8_unchecked(text_of(bytes, token)) };
    let kind = kind_with(token.kind, text);
    let name = name_with(token.kind, kind, text, symbols, keywords)?;
    Ok(Lexeme {
        kind,
        name,
        place: token.place,
    })
}

/// The lexemes of the tokens of a text.
fn lexemes(
    alloc: Global,
    bytes: &[u8],
    tokens: &[Token],
    symbols: &mut Symbols,
) -> Result<Vec<Lexeme>, Memory>
    requires text { Each (HasText bytes.now) tokens.now }
    requires written { Each (λ t. Writes t.kind (lexeme_of bytes.now t).text (slice_of bytes.now t)) tokens.now }
    ensures are { IfOk result (λ ls. EachIs bytes.now symbols.new tokens.now ls.items) }
    ensures numbered { OnOk result (AreNumbered bytes.now symbols.old tokens.now symbols.new) }
    ensures grows { Grows symbols.old symbols.new }
    ensures few { length symbols.new ≤ length symbols.old + length tokens.now }
{
    let mut found = Vec::with_capacity(alloc, tokens.len())?;
    let mut keywords = [None; 256];
    let mut rest = tokens;
    'cut: while let Some((token, more)) = rest.split_first() {
        let next = lexeme(bytes, token, symbols, &mut keywords)?;
        let _pushed = found.push(next)?;
        rest = more;
    }
    Ok(found)
}

/// How many lexemes stand before the first bracket that opens inside as many open ones as the limit.
fn shallow(lexemes: &[Lexeme]) -> usize
    ensures { result ≡ shallow_len turn 200 0 lexemes.now }
{
    let mut rest = lexemes;
    let mut level = 0;
    let mut count = 0;
    'cut: while let Some((lexeme, more)) = rest.split_first() {
        let Some(next) = depth_behind(level, lexeme.kind.turn(), BRACKET_LIMIT) else {
            return count;
        };
        level = next;
        count += 1;
        rest = more;
    }
    count
}

/// The metagrammar that the lexemes spell, with the first complaint, or the number of lexemes
/// before the place where they break off.
fn reading(
    alloc: Global,
    lexemes: &[Lexeme],
) -> Result<Result<(Metagrammar, Option<Complaint>), usize>, Memory>
    ensures { IfOk result (λ r. IsReading system turn 200 metagrammar_text (λ ts rest m. reading_of m) lexemes.now r) }
{
    let room = shallow(lexemes);
    let (part, deep) = lexemes.split_at(room);
    let mut reader = Reader {
        cursor: Cursor { rest: part },
        complaint: None,
        attributes: Attributes::new(alloc),
    };
    match reader.items(alloc) {
        Ok(found) => {
            if reader.cursor.rest.len() > 0 {
                return Ok(Err(part.len() - reader.cursor.rest.len()));
            }
            if deep.len() > 0 {
                return Ok(Err(part.len()));
            }
            Ok(Ok((found, reader.complaint)))
        }
        Err(Stop::Syntax) => Ok(Err(part.len() - reader.cursor.rest.len())),
        Err(Stop::Memory) => Err(Memory),
    }
}

/// The metagrammar, or the refusal for its first complaint.
fn accepted(whole: (Metagrammar, Option<Complaint>)) -> Result<Metagrammar, ReadRefusal>
    ensures { result ≡ accepted whole.0 whole.1 }
{
    let (metagrammar, complaint) = whole;
    match complaint {
        None => Ok(metagrammar),
        Some(complaint) => Err(complaint.refusal()),
    }
}

/// The place of the lexeme with this number, counted from 0, or that of the end of the bytes.
fn place_at(bytes: &[u8], lexemes: &[Lexeme], number: usize) -> Place
    requires { IsShort bytes.now }
    ensures { result ≡ place_of bytes.now (drop number lexemes.now) }
{
    match lexemes.get(number) {
        Some(lexeme) => lexeme.place,
        None => end_place(bytes),
    }
}

/// The metagrammar that the bytes spell, at most 1,048,576 of them. Its names are numbers of the
/// table, which keeps all of its texts and gets those of the text that are new, also where the text
/// is refused, and no more new ones than the text has bytes.
///
/// The new ones are the texts of words, strings and variables, in the order in which they first
/// stand in the bytes, and signs give none. A text that isn't cut into tokens gives none at all. So
/// for the bytes and the table before just one table is right, for each answer but want of memory.
///
/// A text that isn't UTF-8 is refused as `NotUtf8`. It is refused as `Syntax` at the first byte that
/// begins no token, or else at the first token after which no metagrammar goes on, or which opens a
/// bracket inside 200 open ones, or at the end. Then the first complaint counts: `Duplicate` where an
/// attribute stands a second time in a list of properties, a list of features or a bag, or
/// `TooManyClasses` at the word `class` of the 4,097th class. Want of memory may stand in place of
/// any answer.
pub fn read_metagrammar(
    alloc: Global,
    bytes: &[u8],
    symbols: &mut Symbols,
) -> Result<Metagrammar, ReadRefusal>
    requires { IsShort bytes.now }
    ensures ok { IfOk result (λ m. IsMetagrammar bytes.now symbols.new m) }
    ensures err { IfErr result (λ refusal. (refusal ≡ ReadRefusal.Memory) ⊎ IsRefusal bytes.now symbols.new refusal) }
    ensures table { OnOk result (IsTable bytes.now symbols.old symbols.new) }
    ensures refused_table { IfErr result (λ refusal. (refusal ≡ ReadRefusal.Memory) ⊎ IsTable bytes.now symbols.old symbols.new) }
    ensures grows { Grows symbols.old symbols.new }
    ensures few { length symbols.new ≤ length symbols.old + length bytes.now }
{
    let cut = tokens(alloc, bytes)?;
    let found = lexemes(alloc, bytes, cut.as_slice(), symbols)?;
    drop(cut);
    let read = reading(alloc, found.as_slice())?;
    match read {
        Ok(whole) => accepted(whole),
        Err(number) => Err(ReadRefusal::Syntax(place_at(bytes, found.as_slice(), number))),
    }
}
