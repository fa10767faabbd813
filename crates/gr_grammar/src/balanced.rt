//! An example of a reader on this layer: lowercase letters and balanced round brackets, over bytes.
ghost use Rattle.std.specs.Prelude.{◌≡◌, [], ◌∷◌};
ghost use Rattle.gr_grammar.specs.Grammars.{tok, is_next};
ghost use Rattle.gr_grammar.specs.Depths.{shallow_len};
ghost use Rattle.gr_grammar.specs.Readings.{IsReading};
ghost use Rattle.gr_grammar.specs.Balanced.{test, turn, system, body, item, has_letter, item_has, Takes, Ends};

use crate::brackets::{Turn, depth_behind};

/// How many brackets may be open.
const LIMIT: usize = 200;

/// A class of bytes.
#[derive(Clone, Copy, Debug, PartialEq, Eq)]
pub enum Class {
    /// A lowercase letter.
    Letter,
    /// An opening bracket.
    Opening,
    /// A closing bracket.
    Closing,
}

impl Class {
    /// Whether the byte is of the class.
    fn has(self, byte: u8) -> bool
        ensures { result ≡ test self byte }
    {
        match self {
            Class::Letter => 96 < byte && byte < 123,
            Class::Opening => byte == 40,
            Class::Closing => byte == 41,
        }
    }
}

/// No text goes on behind what was taken.
#[derive(Clone, Copy, Debug, PartialEq, Eq)]
struct Fault;

/// What is left to read.
#[derive(Clone, Copy)]
struct Reader<'a> {
    rest: &'a [u8],
}

impl<'a> Reader<'a> {
    /// Whether the next byte is of the class.
    fn sees(&self, class: Class) -> bool
        ensures { result ≡ is_next system (class ∷ []) self.now.rest.now }
    {
        match self.rest.first() {
            Some(byte) => class.has(*byte),
            None => false,
        }
    }

    /// Whether the next byte begins an item.
    fn sees_item(&self) -> bool
        ensures { result ≡ is_next system (Class.Letter ∷ Class.Opening ∷ []) self.now.rest.now }
    {
        self.sees(Class::Letter) || self.sees(Class::Opening)
    }

    /// Takes a byte of the class.
    fn take(&mut self, class: Class) -> Result<(), Fault>
        ensures { Ends (tok class) self.old.rest.now self.new.rest.now result }
    {
        let Some((byte, rest)) = self.rest.split_first() else {
            return Err(Fault);
        };
        if !class.has(*byte) {
            return Err(Fault);
        }
        self.rest = rest;
        Ok(())
    }

    /// Takes items, and says whether they have a letter.
    #[cycle(items)]
    fn body(&mut self) -> Result<bool, Fault>
        ensures { Takes body (λ ts rest m. has_letter m) self.old.rest.now self.new.rest.now result }
    {
        let mut found = false;
        'row: while self.sees_item() {
            let more = self.item()?;
            found = found || more;
        }
        Ok(found)
    }

    /// Takes a letter or a body in brackets, and says whether it has a letter.
    #[cycle(items)]
    fn item(&mut self) -> Result<bool, Fault>
        ensures { Takes item (λ ts rest m. item_has m) self.old.rest.now self.new.rest.now result }
    {
        if self.sees(Class::Letter) {
            let _letter = self.take(Class::Letter)?;
            Ok(true)
        } else {
            let _opening = self.take(Class::Opening)?;
            let inner = self.body()?;
            let _closing = self.take(Class::Closing)?;
            Ok(inner)
        }
    }
}

/// What a byte does to the brackets that are open.
fn turn_of(byte: u8) -> Turn
    ensures { result ≡ turn byte }
{
    if byte == 40 {
        Turn::Opens
    } else if byte == 41 {
        Turn::Closes
    } else {
        Turn::Neither
    }
}

/// How many bytes stand before the first bracket that opens too deep.
fn shallow(bytes: &[u8]) -> usize
    ensures { result ≡ shallow_len turn LIMIT 0 bytes.now }
{
    let mut rest = bytes;
    let mut level = 0;
    let mut count = 0;
    'cut: while let Some((byte, more)) = rest.split_first() {
        let Some(next) = depth_behind(level, turn_of(*byte), LIMIT) else {
            return count;
        };
        level = next;
        count += 1;
        rest = more;
    }
    count
}

/// Reads the bytes. The answer is whether they have a letter, where they are letters and balanced
/// brackets, at most 200 of them inside each other. Otherwise it is the number of bytes before the
/// first place after which no such text goes on.
pub fn read(bytes: &[u8]) -> Result<bool, usize>
    ensures { IsReading system turn 200 body (λ ts rest m. has_letter m) bytes.now result }
{
    let room = shallow(bytes);
    let (part, deep) = bytes.split_at(room);
    let mut reader = Reader { rest: part };
    match reader.body() {
        Ok(found) => {
            if reader.rest.len() > 0 {
                return Err(part.len() - reader.rest.len());
            }
            if deep.len() > 0 {
                return Err(part.len());
            }
            Ok(found)
        }
        Err(_) => Err(part.len() - reader.rest.len()),
    }
}
