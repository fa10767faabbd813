//! Counts that stay at their last value.
ghost use Rattle.std.specs.Prelude.{◌≡◌, ◌↔◌, ◌<◌, ◌≤◌, length, slice_index, slice_set, Contains, IsTrue};
ghost use Rattle.gr_io.specs.Counts.{one_more};

/// One more, or the last value where the count stands there.
pub(crate) fn one_more(count: u64) -> u64
    ensures { result ≡ one_more count }
{
    count.saturating_add(1)
}

/// Raises the count of a file number by one.
pub(crate) fn raise(counts: &mut [u64; 5], file: u8)
    requires { file < 5 }
    ensures same_length { length counts.new ≡ 5 }
    ensures never_falls { slice_index counts.old file ≤ slice_index counts.new file }
    ensures raised { counts.new ≡ slice_set counts.old file (one_more (slice_index counts.old file)) }
{
    let at = usize::from(file);
    counts[at] = one_more(counts[at]);
}

/// Whether a call's number is listed.
pub(crate) fn is_listed(calls: &[u64], call: u64) -> bool
    ensures { IsTrue result ↔ Contains calls.now call }
{
    calls.contains(&call)
}
