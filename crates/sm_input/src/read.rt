//! Reads a file of inputs from its bytes.
ghost use Rattle.std.specs.Prelude.{◌≡◌, ◌+◌, ◌≤◌, ℕ, List, length, OnOk};
ghost use Rattle.gr_base.specs.Lists.{NoneTwice};
ghost use Rattle.gr_symbols.specs.Numbers.{Grows};
ghost use Rattle.gr_tokens.specs.Answers.{AreTokens};
ghost use Rattle.gr_reader.specs.Complaints.{noted};
ghost use Rattle.gr_reader.specs.Classes.{test, variable};
ghost use Rattle.gr_reader.specs.Lexemes.{lexeme_of, lexemes};
ghost use Rattle.sm_input.specs.Answers.{IsInputsAnswer, IsTokensAnswer, PutsTokens, noted_at};
ghost use Rattle.sm_input.specs.Complaints.{variable_left};
ghost use Rattle.gr_text.specs.Limits.{IsShort};

use crate::input::Input;
use crate::inputs::inputs;
use gr_reader::class::number;
use gr_reader::complaints::{Complaint, Complaints, Fault};
use gr_reader::reader::Reader;
use gr_reader::whole::whole_file;
use gr_symbols::Symbols;
use gr_tokens::{ReadRefusal, Token, tokens};
use std::alloc::Global;

/// Whether the token is a variable.
fn is_variable(token: &Token) -> bool
    ensures { (bytes : List ℕ) → result ≡ test variable (lexeme_of bytes token.now) }
{
    number(token.kind) == 2
}

/// How many tokens are left at the first variable, itself among them.
fn first_variable(tokens: &[Token]) -> Option<usize>
    ensures { (bytes : List ℕ) → result ≡ variable_left (lexemes bytes tokens.now) }
{
    let mut rest = tokens;
    'rest: while let Some((token, more)) = rest.split_first() {
        if is_variable(token) {
            return Some(rest.len());
        }
        rest = more;
    }
    None
}

/// Notes the first variable.
fn complain_of_variables(complaints: &mut Complaints, tokens: &[Token])
    ensures { (bytes : List ℕ) → complaints.new ≡ noted_at complaints.old (variable_left (lexemes bytes tokens.now)) }
{
    if let Some(left) = first_variable(tokens) {
        let fault = Fault::Variable;
        complaints.note(Complaint { fault, left });
    }
}

/// No text of the table stands twice, which its length tells.
fn are_apart(symbols: &Symbols)
    ensures { NoneTwice symbols.now }
{
    let _count = symbols.len();
}

/// The inputs of the tokens of some bytes.
fn read_tokens(
    alloc: Global,
    bytes: &[u8],
    tokens: &[Token],
    symbols: &mut Symbols,
) -> Result<Vec<Input>, ReadRefusal>
    requires bytes { IsShort bytes.now }
    requires tokens { AreTokens bytes.now tokens.now }
    ensures answer { IsTokensAnswer bytes.now tokens.now symbols.new result }
    ensures table { OnOk result (PutsTokens bytes.now tokens.now symbols.old symbols.new) }
    ensures grows { Grows symbols.old symbols.new }
    ensures few { length symbols.new ≤ length symbols.old + length tokens.now }
{
    let mut reader = Reader::between(bytes, tokens, 0, tokens.len());
    let mut complaints = Complaints::new();
    let read = inputs(alloc, &mut reader, symbols, &mut complaints);
    are_apart(symbols);
    complain_of_variables(&mut complaints, tokens);
    whole_file(bytes, tokens, &reader, read, &complaints)
}

/// The inputs that the bytes spell, at most 1,048,576 of them, in the order of the text. Names are
/// numbers of the table. It keeps all of its texts and gets, for one input after another, the names
/// and variables as they stand in it and then the names of the handles that were left out, and nothing
/// more; where the text is refused, at most as many as there are bytes.
///
/// Literals of an input that are equal as they are written count once, at the first place; a handle
/// that is left out is equal to another one that is left out. Then they are numbered from 1, and a
/// handle that was left out is the name of a line feed and the number, which no file can spell. So the
/// literals of an input are at most 24, different, and without variables. Inputs may have the same
/// name.
///
/// A text that isn't UTF-8 is refused as `NotUtf8`. It is refused as `Syntax` at the first byte that
/// begins no token, or else at the first token after which no inputs go on, or at the end. Then the
/// complaint that stands first counts: `InputLiterals` at the word `input` of an input with more than
/// 24 different literals, `TooManyInputs` at the word of the 4,097th input, `Duplicate` where an
/// attribute stands a second time in a bag, or `Variable` at a variable. At one word `InputLiterals`
/// comes before `TooManyInputs`. Want of memory may stand in place of any answer.
pub fn read_inputs(
    alloc: Global,
    bytes: &[u8],
    symbols: &mut Symbols,
) -> Result<Vec<Input>, ReadRefusal>
    requires { IsShort bytes.now }
    ensures answer { IsInputsAnswer bytes.now symbols.old symbols.new result }
    ensures grows { Grows symbols.old symbols.new }
    ensures few { length symbols.new ≤ length symbols.old + length bytes.now }
{
    let cut = tokens(alloc, bytes)?;
    read_tokens(alloc, bytes, cut.as_slice(), symbols)
}
