//! Where bytes come from and go to: sources and sinks.

ghost use Rattle.std.specs.Prelude.{◌≡◌, ℕ, ◌+◌, ◌<◌, ◌≤◌, List, length, take, Option, option_map, IfOk, OnOk, OnErr};
ghost use Rattle.hd_base.specs.Faults.{HasCause, FaultSchedule, after_one_call, FollowsSchedule, KeepsSchedule};
ghost use Rattle.hd_base.specs.Streams.{Took, Wrote, EndsAtZero};

use std::alloc::{AllocError, Global};

/// A call failed, and the object's count of faults rose in it.
#[derive(Clone, Copy, Debug, PartialEq, Eq)]
pub struct Failed;

/// What bytes are read from. Its meaning is the bytes that are left, where the implementation
/// shows them; its count of faults never falls.
pub trait Source: Drop {
    ghost left: { Self → Option (List ℕ) };

    ghost faults: { Self → ℕ };

    ghost schedule: { Self → Option FaultSchedule };

    /// Reads into the front of the buffer and answers how many bytes. 0 for a buffer that isn't
    /// empty is the end. A failed read takes nothing.
    fn read(&mut self, into: &mut [u8]) -> Result<usize, Failed>
        ensures within { IfOk result (λ n. n ≤ length into.new) }
        ensures taken { IfOk result (λ n. Took (left self.old) (left self.new) (take n into.new)) }
        ensures ended { IfOk result (λ n. EndsAtZero (left self.old) n into.new) }
        ensures err { OnErr result (left self.new ≡ left self.old) }
        ensures cause { HasCause (faults self.old) (faults self.new) result }
        ensures schedule { FollowsSchedule
            (schedule self.old) (schedule self.new) (faults self.old) (faults self.new) result };
}

/// What bytes are written to. Its meaning is the bytes written, where the implementation shows
/// them; its room is a bound below which a piece's length needs no memory (0 is none); its count
/// of faults never falls.
pub trait Sink: Drop {
    ghost written: { Self → Option (List ℕ) };

    ghost room: { Self → ℕ };

    ghost faults: { Self → ℕ };

    ghost schedule: { Self → Option FaultSchedule };

    /// Secures that so many bytes can be written without memory. Its only error is want of memory,
    /// which changes nothing.
    fn room(&mut self, alloc: Global, len: u64) -> Result<(), AllocError>
        ensures covers { OnOk result (len < room self.new) }
        ensures room { room self.old ≤ room self.new }
        ensures written { written self.new ≡ written self.old }
        ensures faults { faults self.old ≤ faults self.new }
        ensures schedule { KeepsSchedule (schedule self.old) (schedule self.new) (faults self.old) (faults self.new) };

    /// Writes a front of the piece and answers how many bytes, at least 1 for a piece that isn't
    /// empty. A failed write writes nothing. A sink that has to grow and finds no memory fails: a
    /// caller that is to tell the two apart secures the room first.
    fn write(&mut self, piece: &[u8]) -> Result<usize, Failed>
        ensures within { IfOk result (λ n. n ≤ length piece.now) }
        ensures some { IfOk result (λ n. 0 < length piece.now → 0 < n) }
        ensures wrote { IfOk result (λ n. Wrote (written self.old) (written self.new) (take n piece.now)) }
        ensures room { IfOk result (λ n. room self.old ≤ room self.new + n) }
        ensures err { OnErr result (written self.new ≡ written self.old) }
        ensures cause { HasCause (faults self.old) (faults self.new) result }
        ensures goes_on { schedule self.new ≡ option_map after_one_call (schedule self.old) }
        ensures ok_schedule { OnOk result (FollowsSchedule
            (schedule self.old) (schedule self.new) (faults self.old) (faults self.new) result) }
        ensures schedule { length piece.now < room self.old → FollowsSchedule
            (schedule self.old) (schedule self.new) (faults self.old) (faults self.new) result };
}
