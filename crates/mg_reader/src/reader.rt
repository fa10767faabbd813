//! What is left to read, and what is known of the complaints so far.
use crate::cursor::Cursor;
use crate::notes::{Attributes, Complaint};

/// A reader of lexemes that keeps the first complaint.
#[derive(Drop)]
pub struct Reader<'a> {
    /// The lexemes that are left.
    pub cursor: Cursor<'a>,
    /// The first complaint so far.
    pub complaint: Option<Complaint>,
    /// The attributes of the list that is being read.
    pub attributes: Attributes,
}
