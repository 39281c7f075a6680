//! A sink that keeps its bytes in memory.

ghost use Rattle.std.specs.Prelude.{◌≡◌, ◌+◌, ◌-◌, Some, [], IfOk, vec_len, vec_capacity};
ghost use Rattle.mem_ports.specs.Failing.{schedule_of};
ghost use Rattle.mem_ports.specs.Schedules.{coming};

use crate::schedules::FaultSchedule;
use hd_base::{Failed, Sink};
use std::alloc::{AllocError, Global};

/// Keeps the bytes that are written to it, and fails at the calls of its list.
#[derive(Debug, Drop)]
pub struct MemSink {
    bytes: Vec<u8>,
    /// How many writes failed for want of memory.
    starved: u64,
    pub(crate) schedule: FaultSchedule,
}

impl MemSink {
    /// An empty sink that fails at the writes with these numbers, counting from 1.
    pub fn new(alloc: Global, failing: &[u64]) -> Result<MemSink, AllocError>
        ensures written { IfOk result (λ s. ⟦<MemSink as Sink>⟧.written s ≡ Some []) }
        ensures sound { IfOk result (λ s. ⟦<MemSink as Sink>⟧.faults s ≡ 0) }
        ensures schedule { IfOk result (λ s. ⟦<MemSink as Sink>⟧.schedule s ≡ Some (schedule_of failing.now)) }
    {
        Ok(MemSink {
            bytes: Vec::new(alloc),
            starved: 0,
            schedule: FaultSchedule::new(alloc, failing)?,
        })
    }

    /// The bytes written so far.
    pub fn bytes(&self) -> &[u8]
        ensures { ⟦<MemSink as Sink>⟧.written self.now ≡ Some result.now }
    {
        &self.bytes
    }
}

impl Sink for MemSink {
    ghost written = { λ s. Some s.bytes.items };

    ghost room = { λ s. vec_capacity s.bytes + 1 - vec_len s.bytes };

    ghost faults = { λ s. s.schedule.faults + s.starved };

    ghost schedule = { λ s. coming s.schedule };

    fn room(&mut self, _alloc: Global, len: u64) -> Result<(), AllocError> {
        self.bytes.reserve(len as usize)
    }

    /// Writes the whole piece.
    fn write(&mut self, piece: &[u8]) -> Result<usize, Failed> {
        if self.schedule.next() {
            return Err(Failed);
        }
        if self.bytes.extend_from_slice(piece).is_err() {
            self.starved = self.starved.saturating_add(1);
            return Err(Failed);
        }
        Ok(piece.len())
    }
}
