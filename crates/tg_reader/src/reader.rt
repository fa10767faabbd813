//! The bytes that are left to read.
ghost use Rattle.std.specs.Prelude.{◌≡◌, ℕ, List, ◌≤◌, ◌++◌, true, length, take, drop, IfOk, OnOk};
ghost use Rattle.std.specs.Bool.{OnTrue, OnFalse};
ghost use Rattle.gr_base.specs.Lists.{Each};
ghost use Rattle.tg_reader.specs.Writable.{IsName};
ghost use Rattle.tg_reader.specs.Reading.{Differs, Ends, IsRun, Reads, Undoes, is_of};

use gr_base::Memory;
use gr_text::is_word_byte;
use std::str;

/// The most bytes of a name.
const NAME_LIMIT: usize = 255;

/// Why reading ends early.
#[derive(Clone, Copy, Debug, PartialEq, Eq)]
pub enum Stop {
    /// The text is that of no tree.
    NoTree,
    /// Want of memory.
    Memory,
}

impl From<Memory> for Stop {
    ghost use Rattle.tg_reader.specs.declared.reader.Stop.TheVariants.{Memory as NoMemory};

    ghost from_gives = { λ _ e. e ≡ NoMemory };

    fn from(_memory: Memory) -> Stop {
        Stop::Memory
    }
}

/// Where bytes stand that are taken together.
#[derive(Clone, Copy)]
pub enum Run {
    /// In words and numbers.
    Word,
    /// Between `"` and `"`.
    Inside,
}

impl Run {
    /// Whether the byte may stand there.
    fn has(self, byte: u8) -> bool
        ensures { result ≡ is_of self byte }
    {
        match self {
            Run::Word => is_word_byte(byte) || byte == b'-',
            Run::Inside => byte >= 0x20 && (byte != b'"' && (byte != b'\\' && byte != 0x7f)),
        }
    }
}

/// How many bytes in front may stand there.
fn run_len(bytes: &[u8], run: Run) -> usize
    ensures within { result ≤ length bytes.now }
    ensures each { Each (λ b. is_of run b ≡ true) (take result bytes.now) }
    ensures ends { Ends run (drop result bytes.now) }
{
    let mut len = 0;
    while len < bytes.len() && run.has(bytes[len]) {
        len += 1;
    }
    len
}

/// The bytes that are left to read.
#[derive(Clone, Copy)]
pub struct Reader<'a> {
    pub rest: &'a [u8],
}

impl<'a> Reader<'a> {
    /// Takes these bytes if they come next, and says whether they do.
    pub fn eat(&mut self, bytes: &[u8]) -> bool
        ensures yes { OnTrue result (self.old.rest.now ≡ bytes.now ++ self.new.rest.now) }
        ensures no { OnFalse result (Differs bytes.now self.old.rest.now) }
        ensures same { OnFalse result (self.new.rest.now ≡ self.old.rest.now) }
    {
        if self.rest.len() < bytes.len() {
            return false;
        }
        let (front, rest) = self.rest.split_at(bytes.len());
        if front != bytes {
            return false;
        }
        self.rest = rest;
        true
    }

    /// Takes these bytes.
    pub fn expect(&mut self, bytes: &[u8]) -> Result<(), Stop>
        ensures ok { OnOk result (self.old.rest.now ≡ bytes.now ++ self.new.rest.now) }
        ensures takes { (rest : List ℕ) → self.old.rest.now ≡ bytes.now ++ rest → Reads result (λ _. self.new.rest.now ≡ rest) }
        ensures shorter { length self.new.rest.now ≤ length self.old.rest.now }
    {
        if self.eat(bytes) {
            Ok(())
        } else {
            Err(Stop::NoTree)
        }
    }

    /// Takes all bytes in front that may stand there.
    pub fn text(&mut self, run: Run) -> Result<&'a str, Stop>
        ensures front { IfOk result (λ text. self.old.rest.now ≡ text.now ++ self.new.rest.now) }
        ensures name { IfOk result (λ text. IsName text.now) }
        ensures takes { Undoes (λ t. t) (IsRun run) (Ends run) self.old.rest.now self.new.rest.now result (λ t found. found.now ≡ t) }
        ensures shorter { length self.new.rest.now ≤ length self.old.rest.now }
    {
        let len = run_len(self.rest, run);
        if len > NAME_LIMIT {
            return Err(Stop::NoTree);
        }
        let (front, rest) = self.rest.split_at(len);
        match str::from_utf8(front) {
            Ok(text) => {
                self.rest = rest;
                Ok(text)
            }
            Err(_) => Err(Stop::NoTree),
        }
    }
}
