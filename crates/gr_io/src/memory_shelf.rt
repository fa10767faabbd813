//! A shelf in memory.
ghost use Rattle.std.specs.Prelude.{◌≡◌, ◌≢◌, ℕ, ◌+◌, ◌<◌, ◌≤◌, ◌⊎◌, ◌↔◌, Some, None, true, IsTrue, IfOk, IfErr, IsErrOf, MatchOption, Contains, vec_len, take, slice_index, slice_set, OnOk};
ghost use Rattle.gr_io.specs.Outside.{IsFetched, Rose};
ghost use Rattle.gr_io.specs.Counts.{one_more};
ghost use Rattle.gr_io.specs.MemoryShelf.{file_named};

use crate::counts::{is_listed, one_more, raise};
use crate::{FetchFault, Shelf};
use std::alloc::Global;

/// A shelf in memory, which fails at the calls that it is told to fail at.
///
/// It tells what it holds, and serves every name at every file number.
#[derive(Drop)]
pub struct MemoryShelf {
    /// Names with the bytes under them. The first pair of a name counts.
    pub files: Vec<(String, Vec<u8>)>,
    /// The numbers of the calls that fail. The first call has the number 1.
    pub failing: Vec<u64>,
    /// The failed fetches of each file number. A count stays at its last value.
    pub faults: [u64; 5],
    /// The number of the last call, which stays at its last value.
    pub calls: u64,
}

impl MemoryShelf {
    /// A shelf with these files that nobody has called. It takes no memory.
    pub fn new(files: Vec<(String, Vec<u8>)>, failing: Vec<u64>) -> MemoryShelf
        ensures files { result.files ≡ files }
        ensures failing { result.failing ≡ failing }
        ensures counts { (n : ℕ) → slice_index result.faults n ≡ 0 }
        ensures calls { result.calls ≡ 0 }
    {
        MemoryShelf {
            files,
            failing,
            faults: [0; 5],
            calls: 0,
        }
    }
}

impl Shelf for MemoryShelf {
    ghost files = { λ s. Some (file_named s.files.items) };

    ghost serves = { λ _ _ _. true };

    ghost faults = { λ s n. slice_index s.faults n };

    fn fetch(
        &mut self,
        alloc: Global,
        file: u8,
        name: &str,
        limit: usize,
    ) -> Result<Vec<u8>, FetchFault>
        requires numbered { file < 5 }
        requires bounded { limit < usize.MAX }
        ensures within { IfOk result (λ bytes. vec_len bytes ≤ limit + 1) }
        ensures given { IfOk result (λ bytes. IsFetched (Some (file_named self.old.files.items)) name.now limit bytes.items) }
        ensures failed { IsErrOf result FetchFault.Failed → Rose (slice_index self.old.faults file) (slice_index self.new.faults file) }
        ensures kept { OnOk result (slice_index self.new.faults file ≡ slice_index self.old.faults file) }
        ensures spared { IsErrOf result FetchFault.Memory → slice_index self.new.faults file ≡ slice_index self.old.faults file }
        ensures never_falls { slice_index self.old.faults file ≤ slice_index self.new.faults file }
        ensures other_counts { (n : ℕ) → n < 5 → n ≢ file → slice_index self.new.faults n ≡ slice_index self.old.faults n }
        ensures same_files { Some (file_named self.new.files.items) ≡ Some (file_named self.old.files.items) }

        // The call fails exactly where its number is listed or the name is absent.
        ensures called { self.new.calls ≡ one_more self.old.calls }
        ensures failed_when { IsErrOf result FetchFault.Failed
            ↔ (Contains self.old.failing.items self.new.calls ⊎ (file_named self.old.files.items name.now ≡ None)) }
        ensures counted { IsErrOf result FetchFault.Failed
            → self.new.faults ≡ slice_set self.old.faults file (one_more (slice_index self.old.faults file)) }
        ensures uncounted { OnOk result (self.new.faults ≡ self.old.faults) }
        ensures no_memory { IsErrOf result FetchFault.Memory → self.new.faults ≡ self.old.faults }
        ensures settings { (self.new.files ≡ self.old.files) × (self.new.failing ≡ self.old.failing) }
    {
        self.calls = one_more(self.calls);
        if is_listed(&self.failing, self.calls) {
            raise(&mut self.faults, file);
            return Err(FetchFault::Failed);
        }
        let Some(whole) = find(&self.files, name) else {
            raise(&mut self.faults, file);
            return Err(FetchFault::Failed);
        };
        let end = whole.len().min(limit + 1);
        match Vec::from_slice(alloc, &whole[..end]) {
            Ok(bytes) => Ok(bytes),
            Err(_) => Err(FetchFault::Memory),
        }
    }
}

/// The bytes of the first pair of a name.
fn find<'a>(files: &'a [(String, Vec<u8>)], name: &str) -> Option<&'a Vec<u8>>
    ensures { MatchOption result (file_named files.now name.now ≡ None) (λ v. file_named files.now name.now ≡ Some v.now.items) }
{
    for file in files {
        if file.0.as_str() == name {
            return Some(&file.1);
        }
    }
    None
}
