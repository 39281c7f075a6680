//! Which of the coming calls are to fail, and how many have failed.

ghost use Rattle.std.specs.Prelude.{◌≡◌, ◌+◌, ◌^◌, ◌<◌, IfOk, if◌then◌else◌, vec_len};
ghost use Rattle.mem_ports.specs.Failing.{schedule_of, counted_on};
ghost use Rattle.hd_base.specs.Faults.{after_one_call};

use std::alloc::{AllocError, Global};

/// The numbers of the coming calls that are to fail, counting from 1, and the count of the calls
/// that have failed.
#[derive(Debug, Drop)]
pub struct FaultSchedule {
    pub coming: Vec<u64>,
    pub faults: u64,
    ghost fits: { faults + vec_len coming < 2 ^ 64 },
}

impl FaultSchedule {
    /// No call has been made.
    pub fn new(alloc: Global, failing: &[u64]) -> Result<FaultSchedule, AllocError>
        ensures coming { IfOk result (λ s. s.coming.items ≡ failing.now) }
        ensures sound { IfOk result (λ s. s.faults ≡ 0) }
    {
        let coming = Vec::from_slice(alloc, failing)?;
        Ok(FaultSchedule { coming, faults: 0 })
    }

    /// Another schedule of the same coming calls, whose count is 0.
    pub fn renewed(&self, alloc: Global) -> Result<FaultSchedule, AllocError>
        ensures coming { IfOk result (λ s. s.coming.items ≡ self.now.coming.items) }
        ensures sound { IfOk result (λ s. s.faults ≡ 0) }
    {
        FaultSchedule::new(alloc, &self.coming)
    }

    /// Counts one call, and answers whether it is to fail.
    pub fn next(&mut self) -> bool
        ensures due { result ≡ schedule_of self.old.coming.items 0 }
        ensures schedule { schedule_of self.new.coming.items ≡ after_one_call (schedule_of self.old.coming.items) }
        ensures faults { self.new.faults ≡ self.old.faults + (if result then 1 else 0) }
    {
        let due = self.coming.contains(&1);
        count_on(&mut self.coming);
        if due {
            self.faults += 1;
        }
        due
    }
}

/// Counts the numbers from the call after the next, and drops those that are past.
fn count_on(numbers: &mut Vec<u64>)
    ensures { numbers.new.items ≡ counted_on numbers.old.items }
{
    for number in numbers.iter_mut() {
        *number = number.saturating_sub(1);
    }
    numbers.retain(|number| *number > 0);
}
