//! A node's files, lent block by block.

ghost use Rattle.std.specs.Prelude.{◌≡◌, ℕ, ◌≤◌, Bool, true, false, Option, option_map, IfSome, IfOk, OnOk, OnErr, IsErrOf};
ghost use Rattle.hd_base.specs.Faults.{CarriesFaults, FaultSchedule, FollowsSchedule};
ghost use Rattle.hd_base.specs.FileMaps.{FileMap, part_of, rest_of, both_observable, Becomes, OnlyOf, KeepsOthers, AreNamesOf, marked};
ghost use Rattle.hd_base.specs.FileCauses.{MemoryCause};

use crate::file_name::FileName;
use crate::files::{FileError, Files};
use crate::numbers::BlockId;
use std::alloc::Global;

/// All files of a node. Their meaning is the map of the files that aren't lent, where the
/// implementation shows it; which blocks are lent is always observable. A drawer holds the files of one
/// block, and one owner has it.
pub trait Shelf: Drop {
    type Drawer: Files + Send;

    ghost files: { Self → Option FileMap };

    ghost lent: { Self → ℕ → Bool };

    ghost faults: { Self → ℕ };

    ghost schedule: { Self → Option FaultSchedule };

    /// The names of the files that aren't lent, in ascending order.
    fn list(&mut self, alloc: Global) -> Result<Vec<FileName>, FileError>
        ensures names { IfOk result (λ v. IfSome (files self.old) (λ m. AreNamesOf m v.items)) }
        ensures files { files self.new ≡ files self.old }
        ensures lent { lent self.new ≡ lent self.old }
        ensures cause { MemoryCause (faults self.old) (faults self.new) result }
        ensures schedule { FollowsSchedule
            (schedule self.old) (schedule self.new) (faults self.old) (faults self.new) result };

    /// Moves all files of a block into a drawer that nobody else holds. Of a block that is lent
    /// already it moves those that the shelf still holds, which may be none. Makes no file call:
    /// its only error is `Memory`, which changes nothing.
    fn lend(&mut self, alloc: Global, block: BlockId) -> Result<Self::Drawer, FileError>
        ensures drawer { IfOk result (λ drawer.
            Self.Drawer.files drawer ≡ option_map (part_of block.0) (files self.old)) }
        ensures fresh { IfOk result (λ drawer. Self.Drawer.faults drawer ≡ 0) }
        ensures drawer_schedule { IfOk result (λ drawer. Self.Drawer.schedule drawer ≡ schedule self.old) }
        ensures rest { OnOk result (Becomes (files self.old) (files self.new) (rest_of block.0)) }
        ensures lent { OnOk result (lent self.new ≡ marked (lent self.old) block.0 true) }
        ensures err { OnErr result (files self.new ≡ files self.old) }
        ensures err_lent { OnErr result (lent self.new ≡ lent self.old) }
        ensures faults { faults self.new ≡ faults self.old }
        ensures schedule { schedule self.new ≡ schedule self.old }
        ensures no_failure { IsErrOf result FileError.Failed → ⊥ }
        ensures no_absent { IsErrOf result FileError.Absent → ⊥ };

    /// Takes a drawer back. The block then isn't lent, and where the drawer holds files of that
    /// block alone, the shelf holds these beside what it held; in any case the files of other
    /// blocks are as they were. Takes no memory and never fails; the drawer's count of faults is
    /// added to the shelf's.
    fn give_back(&mut self, block: BlockId, drawer: Self::Drawer)
        requires { lent self.old block.0 ≡ true }
        ensures files { OnlyOf block.0 (Self.Drawer.files drawer) →
            files self.new ≡ both_observable (files self.old) (Self.Drawer.files drawer) }
        ensures others { KeepsOthers block.0 (files self.old) (files self.new) }
        ensures lent { lent self.new ≡ marked (lent self.old) block.0 false }
        ensures count { CarriesFaults (faults self.old) (Self.Drawer.faults drawer) (faults self.new) }
        ensures still { Self.Drawer.faults drawer ≡ 0 →
            IfSome (schedule self.old) (λ _. faults self.new ≡ faults self.old) }
        ensures schedule { schedule self.new ≡ schedule self.old };
}
