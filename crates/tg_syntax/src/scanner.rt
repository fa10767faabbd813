//! Takes names, numbers, variables and pairs from the front of some bytes.
ghost use Rattle.std.specs.Prelude.{◌≡◌, ◌∷◌, [], ◌≤◌, length};
ghost use Rattle.gr_grammar.specs.Grammars.{tok, part, seq, is_next};
ghost use Rattle.tg_syntax.specs.declared.class.Class.TheVariants.{Byte};
ghost use Rattle.tg_syntax.specs.Families.{word_part, string_part};
ghost use Rattle.tg_syntax.specs.Files.{system};
ghost use Rattle.tg_syntax.specs.Names.{bag, digits, keyword, number, pair, pairs, string, term, variable, word};
ghost use Rattle.tg_syntax.specs.Reading.{Ends, WordStep};

use crate::class::Class;

/// The most bytes of a name.
const NAME_LIMIT: usize = 255;

/// No text goes on behind what was taken.
#[derive(Clone, Copy, Debug, PartialEq, Eq)]
pub struct Fault;

/// The bytes that are left to read.
#[derive(Clone, Copy)]
pub struct Scanner<'a> {
    pub rest: &'a [u8],
}

impl<'a> Scanner<'a> {
    /// Whether the next byte is of the class.
    pub fn sees(&self, class: Class) -> bool
        ensures { result ≡ is_next system (class ∷ []) self.now.rest.now }
    {
        match self.rest.first() {
            Some(byte) => class.has(*byte),
            None => false,
        }
    }

    /// Takes a byte of the class.
    pub fn take(&mut self, class: Class) -> Result<(), Fault>
        ensures { Ends (tok class) self.old.rest.now self.new.rest.now result }
    {
        let Some((byte, rest)) = self.rest.split_first() else {
            return Err(Fault);
        };
        if !class.has(*byte) {
            return Err(Fault);
        }
        self.rest = rest;
        Ok(())
    }

    /// Takes these bytes.
    pub fn keyword(&mut self, bytes: &[u8]) -> Result<(), Fault>
        ensures { Ends (keyword bytes.now) self.old.rest.now self.new.rest.now result }
    {
        let mut more = bytes;
        'bytes: while let Some((byte, behind)) = more.split_first() {
            self.take(Class::Byte(*byte))?;
            more = behind;
        }
        Ok(())
    }

    /// Goes on in a word with this many bytes left: takes a word byte, or a dash and a word byte,
    /// or nothing, and says how many bytes it took.
    fn word_step(&mut self, left: usize) -> Result<usize, Fault>
        ensures { WordStep left self.old.rest.now self.new.rest.now result }
    {
        if left == 0 {
            return Ok(0);
        }
        if self.sees(Class::WordByte) {
            let _byte = self.take(Class::WordByte)?;
            return Ok(1);
        }
        if left == 1 {
            return Ok(0);
        }
        if self.sees(Class::Byte(b'-')) {
            let _dash = self.take(Class::Byte(b'-'))?;
            let _after = self.take(Class::WordByte)?;
            return Ok(2);
        }
        Ok(0)
    }

    /// Takes the rest of a word with this many bytes left.
    fn word_rest(&mut self, room: usize) -> Result<(), Fault>
        ensures { Ends (part (word_part room)) self.old.rest.now self.new.rest.now result }
    {
        let mut left = room;
        'word: loop {
            let step = self.word_step(left)?;
            if step == 0 {
                return Ok(());
            }
            left -= step;
        }
    }

    /// Takes a word.
    pub fn word(&mut self) -> Result<(), Fault>
        ensures { Ends word self.old.rest.now self.new.rest.now result }
    {
        let _first = self.take(Class::WordByte)?;
        let _rest = self.word_rest(NAME_LIMIT - 1)?;
        Ok(())
    }

    /// Takes what stands inside a string with this many bytes left.
    fn string_rest(&mut self, room: usize) -> Result<(), Fault>
        ensures { Ends (part (string_part room)) self.old.rest.now self.new.rest.now result }
    {
        let mut left = room;
        'string: while left > 0 {
            if !self.sees(Class::StringByte) {
                return Ok(());
            }
            let _byte = self.take(Class::StringByte)?;
            left -= 1;
        }
        Ok(())
    }

    /// Takes a string.
    pub fn string(&mut self) -> Result<(), Fault>
        ensures { Ends string self.old.rest.now self.new.rest.now result }
    {
        let _opening = self.take(Class::Byte(b'"'))?;
        let _inside = self.string_rest(NAME_LIMIT)?;
        let _closing = self.take(Class::Byte(b'"'))?;
        Ok(())
    }

    /// Takes at most this many digits.
    fn digits(&mut self, room: usize) -> Result<(), Fault>
        ensures { Ends (digits room) self.old.rest.now self.new.rest.now result }
    {
        let mut left = room;
        'digits: while left > 0 {
            if !self.sees(Class::Digit) {
                return Ok(());
            }
            let _digit = self.take(Class::Digit)?;
            left -= 1;
        }
        Ok(())
    }

    /// Takes a number.
    pub fn number(&mut self) -> Result<(), Fault>
        ensures { Ends number self.old.rest.now self.new.rest.now result }
    {
        if self.sees(Class::Byte(b'0')) {
            let _zero = self.take(Class::Byte(b'0'))?;
            Ok(())
        } else {
            let _first = self.take(Class::HighDigit)?;
            let _more = self.digits(8)?;
            Ok(())
        }
    }

    /// Takes a variable.
    pub fn variable(&mut self) -> Result<(), Fault>
        ensures { Ends variable self.old.rest.now self.new.rest.now result }
    {
        let _sign = self.take(Class::Byte(b'?'))?;
        let _number = self.number()?;
        Ok(())
    }

    /// Takes a name or a variable.
    pub fn term(&mut self) -> Result<(), Fault>
        ensures { Ends term self.old.rest.now self.new.rest.now result }
    {
        if self.sees(Class::WordByte) {
            let _word = self.word()?;
            Ok(())
        } else if self.sees(Class::Byte(b'"')) {
            let _string = self.string()?;
            Ok(())
        } else {
            let _variable = self.variable()?;
            Ok(())
        }
    }

    /// Takes an attribute and its value.
    pub fn pair(&mut self) -> Result<(), Fault>
        ensures { Ends pair self.old.rest.now self.new.rest.now result }
    {
        let _attribute = self.word()?;
        let _equals = self.take(Class::Byte(b'='))?;
        let _value = self.term()?;
        Ok(())
    }

    /// Takes a comma and a pair.
    fn next_pair(&mut self) -> Result<(), Fault>
        ensures { Ends (seq (tok (Byte 44)) pair) self.old.rest.now self.new.rest.now result }
    {
        let _comma = self.take(Class::Byte(b','))?;
        let _pair = self.pair()?;
        Ok(())
    }

    /// Takes pairs with commas between them.
    fn pairs(&mut self) -> Result<(), Fault>
        ensures { Ends pairs self.old.rest.now self.new.rest.now result }
    {
        let _first = self.pair()?;
        'row: while self.sees(Class::Byte(b',')) {
            let _next = self.next_pair()?;
        }
        Ok(())
    }

    /// Takes pairs in brackets.
    pub fn bag(&mut self) -> Result<(), Fault>
        ensures { Ends bag self.old.rest.now self.new.rest.now result }
    {
        let _opening = self.take(Class::Byte(b'['))?;
        let _pairs = self.pairs()?;
        let _closing = self.take(Class::Byte(b']'))?;
        Ok(())
    }
}
