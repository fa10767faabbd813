//! The outside: where files are fetched from, and where text is written to.
//!
//! A [`Shelf`] has files under names, a [`Sink`] takes bytes. Both are traits with a meaning that
//! contracts cite: what a shelf holds and what a sink has taken, where they tell that, and counts
//! of faults that never fall. A call answers `Failed` only where its count rose in the call or
//! stands at its last value, so code that is generic over the traits can't make up a fault; and
//! where it answers otherwise its count stays as it was, so such code can't pass over one.
//! The layer above writes a whole text by [`write_all_of`].
//!
//! [`MemoryShelf`] and [`MemorySink`] tell all that they hold, and their contracts say when a call
//! fails. [`FileShelf`] and [`StdoutSink`] are the trusted edge over the system: they meet their
//! traits and tell nothing of content, which their tests show alone.
#![tactic(auto)]

mod counts;
mod file_shelf;
mod memory_shelf;
mod memory_sink;
mod reading;
mod shelf;
mod sink;
mod stdout_sink;

pub use file_shelf::FileShelf;
pub use gr_base::Memory;
pub use memory_shelf::MemoryShelf;
pub use memory_sink::MemorySink;
pub use shelf::{FetchFault, Shelf};
pub use sink::{Failed, Sink, WriteFault, write_all_of};
pub use stdout_sink::StdoutSink;
