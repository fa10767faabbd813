//! How a run ends.

/// How a run of the program ends.
#[derive(Clone, Copy, Debug, PartialEq, Eq)]
pub enum Status {
    /// The whole text was written.
    Done,
    /// The whole text was written, and says that a list of it was cut.
    Shortened,
    /// The words ask for nothing that there is. Nothing was written, and nothing fetched.
    WordsRefused,
    /// A file was refused. Its line was written, and nothing else.
    Refused,
    /// A file couldn't be read. Nothing was written.
    ReadFault,
    /// A write failed. A front of the text was written.
    WriteFault,
    /// Want of memory. Nothing was written.
    Memory,
}
