//! The standard output as a sink: a part of the trusted edge.
ghost use Rattle.std.specs.Prelude.{◌≡◌, ◌<◌, ◌≤◌, IfOk, OnOk, OnErr, length, take};
ghost use Rattle.gr_io.specs.Outside.{appended, untold, Rose};
ghost use Rattle.gr_io.specs.Counts.{one_more};

use crate::counts::one_more;
use crate::{Failed, Sink};
use std::io::ErrorKind;

/// How often a write is tried that the system interrupts.
const TRIES: u32 = 100;

/// The standard output. It doesn't tell what it has taken.
#[derive(Drop)]
pub struct StdoutSink<'a, R: Print> {
    /// The runtime that prints.
    pub runtime: &'a R,
    /// The errors. The count stays at its last value.
    pub faults: u64,
}

impl<'a, R: Print> StdoutSink<'a, R> {
    /// A sink that has met no error.
    pub fn new(runtime: &'a R) -> StdoutSink<'a, R>
        ensures { result.faults ≡ 0 }
    {
        StdoutSink { runtime, faults: 0 }
    }
}

impl<'a, R: Print> Sink for StdoutSink<'a, R> {
    ghost written = { λ _. untold };

    ghost faults = { λ s. s.faults };

    fn write(&mut self, bytes: &[u8]) -> Result<usize, Failed>
        requires { 0 < length bytes.now }
        ensures count { IfOk result (λ n. (0 < n) × (n ≤ length bytes.now)) }
        ensures taken { IfOk result (λ n. untold ≡ appended untold (take n bytes.now)) }
        ensures nothing { OnErr result (untold ≡ untold) }
        ensures failed { OnErr result (Rose self.old.faults self.new.faults) }
        ensures kept { OnOk result (self.new.faults ≡ self.old.faults) }
        ensures never_falls { self.old.faults ≤ self.new.faults }
        ensures counted { OnErr result (self.new.faults ≡ one_more self.old.faults) }
    {
        match print_some(self.runtime, bytes) {
            Ok(count) => Ok(count),
            Err(Failed) => {
                self.faults = one_more(self.faults);
                Err(Failed)
            }
        }
    }
}

/// Prints some of the bytes and says how many. To take none is an error.
fn print_some<R: Print>(runtime: &R, bytes: &[u8]) -> Result<usize, Failed>
    ensures { IfOk result (λ n. (0 < n) × (n ≤ length bytes.now)) }
{
    for _ in 0..TRIES {
        match runtime.write_some(bytes) {
            Ok(0) => return Err(Failed),
            Ok(count) => return Ok(count),
            Err(error) => {
                if error.kind() != ErrorKind::Interrupted {
                    return Err(Failed);
                }
            }
        }
    }
    Err(Failed)
}
