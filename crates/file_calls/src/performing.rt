//! Lists of calls on files, made in their order.

ghost use Rattle.std.specs.Prelude.{◌≡◌, [], ◌∷◌, length, None, IfSome, OnOk, OnErr, IsErrOf};
ghost use Rattle.hd_base.specs.Calls.{MakesCalls, MakesPartOf, StopsWithin, IsUnchanged};
ghost use Rattle.hd_base.specs.Faults.{HasCause, FollowsSchedule};
ghost use Rattle.file_calls.specs.Plans.{FindFiles, HasRoomFor, HasRoom, StaysWithoutFaults, GoesOnBy};
ghost use Rattle.file_calls.specs.CallCauses.{HasPlaceFor, CauseOf, RoomAfter};
ghost use Rattle.file_calls.specs.FileCalls.{meant, plan};

use crate::calls::FileCall;
use hd_base::{FileError, Files};

/// Makes the calls in their order. Each finds its file, where observable, and has its room, which
/// calls of `room` secure. At the first call that fails it stops: what was done then is the calls
/// before that one, and of it what may be done of a call that failed.
pub fn perform<F: Files>(files: &mut F, calls: &[FileCall]) -> Result<(), FileError>
    requires found { IfSome (F.files files.old) (λ m. FindFiles m (plan calls.now)) }
    requires room { HasRoom (F.room files.old) (plan calls.now) }
    ensures ok { OnOk result (MakesCalls
        (F.files files.old) (F.files files.new) (F.log files.old) (F.log files.new) (plan calls.now)) }
    ensures stopped { OnErr result (StopsWithin
        (F.files files.old) (F.files files.new) (F.log files.old) (F.log files.new) (plan calls.now)) }
    ensures cause { HasCause (F.faults files.old) (F.faults files.new) result }
    ensures absent { IsErrOf result FileError.Absent → F.files files.old ≡ None }
    ensures no_memory { IsErrOf result FileError.Memory → ⊥ }
    ensures no_faults { StaysWithoutFaults
        (F.schedule files.old) (length calls.now) (F.faults files.old) (F.faults files.new) }
    ensures schedule { OnOk result (GoesOnBy
        (length calls.now) (F.schedule files.old) (F.schedule files.new)) }
{
    for call in calls {
        make_call(files, call)?;
    }
    Ok(())
}

/// Makes one call, and answers as that call does. It has its room, and where observable its place
/// is within its file.
pub fn make_call<F: Files>(files: &mut F, call: &FileCall) -> Result<(), FileError>
    requires room { HasRoomFor (F.room files.old) (meant call.now) }
    requires place { HasPlaceFor (F.files files.old) (meant call.now) }
    ensures ok { OnOk result (MakesCalls
        (F.files files.old) (F.files files.new) (F.log files.old) (F.log files.new) (meant call.now ∷ [])) }
    ensures in_part { OnErr result (MakesPartOf
        (F.files files.old) (F.files files.new) (F.log files.old) (F.log files.new) (meant call.now)) }
    ensures absent { IsErrOf result FileError.Absent → IsUnchanged
        (F.files files.old) (F.files files.new) (F.log files.old) (F.log files.new) }
    ensures room { RoomAfter (F.room files.old) (F.room files.new) (meant call.now) result }
    ensures cause { CauseOf (F.files files.old) (meant call.now) (F.faults files.old) (F.faults files.new) result }
    ensures schedule { FollowsSchedule
        (F.schedule files.old) (F.schedule files.new) (F.faults files.old) (F.faults files.new) result }
{
    match call {
        FileCall::Make(name) => files.make(name),
        FileCall::Write(name, place, bytes) => files.write_at(name, *place, bytes),
        FileCall::Cut(name, len) => files.cut(name, *len),
        FileCall::Sync(name) => files.sync(name),
        FileCall::Rename(from, to) => files.rename(from, to),
        FileCall::Remove(name) => files.remove(name),
    }
}
