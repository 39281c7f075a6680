//! A source over bytes in memory.

ghost use Rattle.std.specs.Prelude.{◌≡◌, ◌≤◌, Some, IfOk, drop, vec_len};
ghost use Rattle.mem_ports.specs.Failing.{schedule_of};
ghost use Rattle.mem_ports.specs.Schedules.{coming};

use crate::copies::copy_front;
use crate::schedules::FaultSchedule;
use hd_base::{Failed, Source};
use std::alloc::{AllocError, Global};

/// Reads from bytes in memory, and fails at the calls of its list.
#[derive(Debug, Drop)]
pub struct MemSource {
    bytes: Vec<u8>,
    taken: usize,
    pub(crate) schedule: FaultSchedule,
    ghost within: { taken ≤ vec_len bytes },
}

impl MemSource {
    /// A source of these bytes that fails at the calls with these numbers, counting from 1.
    pub fn new(alloc: Global, bytes: &[u8], failing: &[u64]) -> Result<MemSource, AllocError>
        ensures left { IfOk result (λ s. ⟦<MemSource as Source>⟧.left s ≡ Some bytes.now) }
        ensures sound { IfOk result (λ s. ⟦<MemSource as Source>⟧.faults s ≡ 0) }
        ensures schedule { IfOk result (λ s.
            ⟦<MemSource as Source>⟧.schedule s ≡ Some (schedule_of failing.now)) }
    {
        Ok(MemSource {
            bytes: Vec::from_slice(alloc, bytes)?,
            taken: 0,
            schedule: FaultSchedule::new(alloc, failing)?,
        })
    }
}

impl Source for MemSource {
    ghost left = { λ s. Some (drop s.taken s.bytes.items) };

    ghost faults = { λ s. s.schedule.faults };

    ghost schedule = { λ s. coming s.schedule };

    fn read(&mut self, into: &mut [u8]) -> Result<usize, Failed> {
        if self.schedule.next() {
            return Err(Failed);
        }
        let count = copy_front(self.bytes.split_at(self.taken).1, into);
        self.taken += count;
        Ok(count)
    }
}
