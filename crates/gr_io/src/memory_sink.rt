//! A sink in memory.
ghost use Rattle.std.specs.Prelude.{◌≡◌, ◌+◌, ◌-◌, ◌<◌, ◌≤◌, ◌⊎◌, ◌↔◌, [], Some, min, IfOk, IsErr, OnOk, OnErr, Contains, vec_len, vec_capacity, length, take};
ghost use Rattle.gr_io.specs.Outside.{appended, Rose};
ghost use Rattle.gr_io.specs.Counts.{one_more};

use crate::counts::{is_listed, one_more};
use crate::{Failed, Memory, Sink};
use std::alloc::Global;

/// A sink in memory with a limit, which fails at the calls that it is told to fail at.
///
/// It tells what it has taken. Its room is reserved when it is made, so no write takes memory.
#[derive(Drop)]
pub struct MemorySink {
    /// What it has taken.
    pub bytes: Vec<u8>,
    /// How many bytes it takes in all.
    pub limit: usize,
    /// How many bytes it takes at most in one call, at least 1.
    pub piece: usize,
    /// The numbers of the calls that fail. The first call has the number 1.
    pub failing: Vec<u64>,
    /// The failed writes. The count stays at its last value.
    pub faults: u64,
    /// The number of the last call, which stays at its last value.
    pub calls: u64,
    pub ghost takes_some: { 0 < piece },
    pub ghost within: { vec_len bytes ≤ limit },
    pub ghost reserved: { limit ≤ vec_capacity bytes },
}

impl MemorySink {
    /// An empty sink with its room that nobody has called.
    pub fn with_room(
        alloc: Global,
        limit: usize,
        piece: usize,
        failing: Vec<u64>,
    ) -> Result<MemorySink, Memory>
        requires { 0 < piece }
        ensures empty { IfOk result (λ s. s.bytes.items ≡ []) }
        ensures room { IfOk result (λ s. (s.limit ≡ limit) × (s.piece ≡ piece)) }
        ensures failing { IfOk result (λ s. s.failing ≡ failing) }
        ensures counts { IfOk result (λ s. (s.faults ≡ 0) × (s.calls ≡ 0)) }
    {
        let bytes = Vec::with_capacity(alloc, limit)?;
        Ok(MemorySink {
            bytes,
            limit,
            piece,
            failing,
            faults: 0,
            calls: 0,
        })
    }
}

impl Sink for MemorySink {
    ghost written = { λ s. Some s.bytes.items };

    ghost faults = { λ s. s.faults };

    fn write(&mut self, bytes: &[u8]) -> Result<usize, Failed>
        requires { 0 < length bytes.now }
        ensures count { IfOk result (λ n. (0 < n) × (n ≤ length bytes.now)) }
        ensures taken { IfOk result (λ n. Some self.new.bytes.items ≡ appended (Some self.old.bytes.items) (take n bytes.now)) }
        ensures nothing { OnErr result (Some self.new.bytes.items ≡ Some self.old.bytes.items) }
        ensures failed { OnErr result (Rose self.old.faults self.new.faults) }
        ensures kept { OnOk result (self.new.faults ≡ self.old.faults) }
        ensures never_falls { self.old.faults ≤ self.new.faults }

        // The call fails exactly where its number is listed or the sink is full, and takes all
        // that a piece and the room allow.
        ensures called { self.new.calls ≡ one_more self.old.calls }
        ensures failed_when { IsErr result
            ↔ (Contains self.old.failing.items self.new.calls ⊎ (vec_len self.old.bytes ≡ self.old.limit)) }
        ensures as_much { IfOk result (λ n. n ≡ min (min (length bytes.now) self.old.piece) (self.old.limit - vec_len self.old.bytes)) }
        ensures counted { OnErr result (self.new.faults ≡ one_more self.old.faults) }
        ensures settings { (self.new.limit ≡ self.old.limit) × (self.new.piece ≡ self.old.piece) × (self.new.failing ≡ self.old.failing) }
    {
        self.calls = one_more(self.calls);
        let room = self.limit - self.bytes.len();
        if room == 0 || is_listed(&self.failing, self.calls) {
            self.faults = one_more(self.faults);
            return Err(Failed);
        }
        let taken = bytes.len().min(self.piece).min(room);
        self.bytes.extend_from_slice(&bytes[..taken]).unwrap();
        Ok(taken)
    }
}
