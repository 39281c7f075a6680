//! Files that can be made to refuse the writes on data files.

ghost use Rattle.std.specs.Prelude.{◌≡◌, Bool, [], false, true, option_map, IsSome, IfSome, OnOk, OnErr};
ghost use Rattle.refusing_files.specs.Refusals.{TellsRefusals};

use hd_base::Files;
use std::alloc::{AllocError, Global};

/// Files that can be made to refuse the writes on data files: each such write then fails, keeps nothing and is counted,
/// until they take writes again. While they refuse, their log is that of this time, where they are observable; a refused
/// write stands in it as a write of nothing.
pub trait Refusing: Files {
    // Whether a write was refused since they began to refuse.
    ghost refused: { Self → Bool };

    /// From now on writes on data files are refused. Its only error is want of memory, which changes nothing that is
    /// observable of the files.
    fn refuse_writes(&mut self, alloc: Global) -> Result<(), AllocError>
        ensures begins { OnOk result
            (Self.log self.new ≡ option_map (λ m. record { start = m; calls = [] }) (Self.files self.old)) }
        ensures none { OnOk result (refused self.new ≡ false) }
        ensures kept { OnErr result (Self.log self.new ≡ Self.log self.old) }
        ensures files { Self.files self.new ≡ Self.files self.old }
        ensures faults { Self.faults self.new ≡ Self.faults self.old };

    /// From now on writes are made. Answers whether one was refused; those refusals don't count any more.
    fn take_writes(&mut self) -> bool
        ensures refused { result ≡ refused self.old }
        ensures ends { refused self.new ≡ false }
        ensures files { Self.files self.new ≡ Self.files self.old }
        ensures faults { refused self.old ≡ false → Self.faults self.new ≡ Self.faults self.old };

    // Where a log is observable, it tells just the refusals, and the files are as they were at its start.
    ghost tells_refusals: { (f : Self) → IfSome (Self.log f) (TellsRefusals (refused f) (Self.files f)) };

    // Where a write was refused, and the files are observable, the log is.
    ghost logs_refusals: { (f : Self) → refused f ≡ true → IfSome (Self.files f) (λ _. IsSome (Self.log f)) };
}
