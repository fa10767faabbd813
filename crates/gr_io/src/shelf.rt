//! Where files are fetched from.
ghost use Rattle.std.specs.Prelude.{◌≡◌, ◌≢◌, ℕ, List, Bool, Option, ◌+◌, ◌<◌, ◌≤◌, IsTrue, IfOk, IsErrOf, OnOk, vec_len};
ghost use Rattle.gr_io.specs.Outside.{IsFetched, Rose};

use std::alloc::{AllocError, Global};

/// Why a fetch gave no bytes.
#[derive(Clone, Copy, Debug, PartialEq, Eq)]
pub enum FetchFault {
    /// The file isn't there or can't be read. The shelf has counted it, unless its count stands at
    /// its last value.
    Failed,
    /// Want of memory.
    Memory,
}

impl From<AllocError> for FetchFault {
    ghost use Rattle.gr_io.specs.declared.shelf.FetchFault.TheVariants.{Memory};

    ghost from_gives = { λ _ fault. fault ≡ Memory };

    fn from(_error: AllocError) -> FetchFault {
        FetchFault::Memory
    }
}

/// A shelf of files.
///
/// `files` is what it holds, as a map from names to bytes, or `None` where it doesn't tell.
/// `serves` says which names may be fetched at which file number. `faults` counts the failed
/// fetches of each file number; a count never falls.
pub trait Shelf {
    ghost files: { Self → Option (List ℕ → Option (List ℕ)) };

    ghost serves: { Self → ℕ → List ℕ → Bool };

    ghost faults: { Self → ℕ → ℕ };

    /// The bytes under a name, cut after `limit + 1` bytes.
    ///
    /// The file number is 0 to 4, the shelf serves the name at this number, and the limit is below
    /// the greatest `usize`. `Failed` comes only where the count of this number rose in this
    /// call or stands at its last value; a name that is served and absent is such a fault. Where
    /// bytes are given or memory is wanting, no fault was passed over: the count stays as it was. So
    /// do what the shelf holds and serves, and the counts of the other numbers, whatever the answer
    /// is.
    fn fetch(
        &mut self,
        alloc: Global,
        file: u8,
        name: &str,
        limit: usize,
    ) -> Result<Vec<u8>, FetchFault>
        requires numbered { file < 5 }
        requires served { IsTrue (serves self.old file name.now) }
        requires bounded { limit < usize.MAX }
        ensures within { IfOk result (λ bytes. vec_len bytes ≤ limit + 1) }
        ensures given { IfOk result (λ bytes. IsFetched (files self.old) name.now limit bytes.items) }
        ensures failed { IsErrOf result FetchFault.Failed → Rose (faults self.old file) (faults self.new file) }
        ensures kept { OnOk result (faults self.new file ≡ faults self.old file) }
        ensures spared { IsErrOf result FetchFault.Memory → faults self.new file ≡ faults self.old file }
        ensures never_falls { faults self.old file ≤ faults self.new file }
        ensures other_counts { (n : ℕ) → n < 5 → n ≢ file → faults self.new n ≡ faults self.old n }
        ensures same_files { files self.new ≡ files self.old }
        ensures same_names { serves self.new ≡ serves self.old };
}
