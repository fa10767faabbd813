//! The end of the reading of a whole file: what is left of it, and the refusal for a stop or for the
//! first complaint.
ghost use Rattle.std.specs.Prelude.{◌≤◌, length};
ghost use Rattle.gr_reader.specs.Files.{IsEnd};

use crate::complaints::Complaints;
use crate::places::breaks_off;
use crate::reader::{Reader, Stop};
use gr_tokens::{ReadRefusal, Token};

/// The answer for a file of which a reader of all of its tokens has read what it could: what was
/// `read`, where nothing is left and nothing was complained of. Else the refusal is `Syntax` where
/// reading stopped or where something is left, or that of the first complaint; want of memory stays
/// what it is.
pub fn whole_file<T: Drop>(
    bytes: &[u8],
    tokens: &[Token],
    reader: &Reader<'_>,
    read: Result<T, Stop>,
    complaints: &Complaints,
) -> Result<T, ReadRefusal>
    requires { length bytes.now ≤ 1048576 }
    ensures { IsEnd bytes.now tokens.now reader.now complaints.now read result }
{
    let left = reader.left();
    let number = tokens.len().saturating_sub(left);
    match read {
        Ok(_) if left > 0 => Err(breaks_off(bytes, tokens, number)),
        Ok(value) => match complaints.first() {
            None => Ok(value),
            Some(complaint) => Err(complaint.refusal(bytes, tokens)),
        },
        Err(Stop::Syntax) => Err(breaks_off(bytes, tokens, number)),
        Err(Stop::Memory) => Err(ReadRefusal::Memory),
    }
}
