//! The files of the system as a shelf: a part of the trusted edge.
ghost use Rattle.std.specs.Prelude.{◌≡◌, ◌≢◌, ℕ, ◌+◌, ◌<◌, ◌≤◌, None, true, IfOk, IsErrOf, OnOk, vec_len, slice_index, slice_set};
ghost use Rattle.gr_io.specs.Outside.{IsFetched, Rose};
ghost use Rattle.gr_io.specs.Counts.{one_more};

use crate::counts::raise;
use crate::reading::read_up_to;
use crate::{FetchFault, Shelf};
use std::alloc::Global;
use std::fs;
use std::rt::Files;

/// The files of the system. A name is a path.
///
/// It doesn't tell what it holds, and serves every name at every file number.
#[derive(Drop)]
pub struct FileShelf<'a, R: Files> {
    /// The runtime that opens files.
    pub runtime: &'a R,
    /// The errors at each file number. A count stays at its last value.
    pub faults: [u64; 5],
}

impl<'a, R: Files> FileShelf<'a, R> {
    /// A shelf that has met no error.
    pub fn new(runtime: &'a R) -> FileShelf<'a, R>
        ensures { (n : ℕ) → slice_index result.faults n ≡ 0 }
    {
        FileShelf {
            runtime,
            faults: [0; 5],
        }
    }
}

impl<'a, R: Files> Shelf for FileShelf<'a, R> {
    ghost files = { λ _. None };

    ghost serves = { λ _ _ _. true };

    ghost faults = { λ s n. slice_index s.faults n };

    fn fetch(
        &mut self,
        alloc: Global,
        file: u8,
        name: &str,
        limit: usize,
    ) -> Result<Vec<u8>, FetchFault>
        requires numbered { file < 5 }
        requires bounded { limit < usize.MAX }
        ensures within { IfOk result (λ bytes. vec_len bytes ≤ limit + 1) }
        ensures given { IfOk result (λ bytes. IsFetched None name.now limit bytes.items) }
        ensures failed { IsErrOf result FetchFault.Failed → Rose (slice_index self.old.faults file) (slice_index self.new.faults file) }
        ensures kept { OnOk result (slice_index self.new.faults file ≡ slice_index self.old.faults file) }
        ensures spared { IsErrOf result FetchFault.Memory → slice_index self.new.faults file ≡ slice_index self.old.faults file }
        ensures never_falls { slice_index self.old.faults file ≤ slice_index self.new.faults file }
        ensures other_counts { (n : ℕ) → n < 5 → n ≢ file → slice_index self.new.faults n ≡ slice_index self.old.faults n }

        // Each error is counted, and nothing else is.
        ensures counted { IsErrOf result FetchFault.Failed
            → self.new.faults ≡ slice_set self.old.faults file (one_more (slice_index self.old.faults file)) }
        ensures uncounted { OnOk result (self.new.faults ≡ self.old.faults) }
        ensures no_memory { IsErrOf result FetchFault.Memory → self.new.faults ≡ self.old.faults }
    {
        match read_file(self.runtime, alloc, name, limit) {
            Ok(bytes) => Ok(bytes),
            Err(FetchFault::Memory) => Err(FetchFault::Memory),
            Err(FetchFault::Failed) => {
                raise(&mut self.faults, file);
                Err(FetchFault::Failed)
            }
        }
    }
}

/// The first `limit + 1` bytes of a file, or all where it has fewer. It reads no byte more.
fn read_file<R: Files>(
    runtime: &R,
    alloc: Global,
    name: &str,
    limit: usize,
) -> Result<Vec<u8>, FetchFault>
    requires { limit < usize.MAX }
    ensures { IfOk result (λ bytes. vec_len bytes ≤ limit + 1) }
{
    let Ok(mut file) = fs::open(runtime, name) else {
        return Err(FetchFault::Failed);
    };
    read_up_to(&mut file, alloc, limit)
}
