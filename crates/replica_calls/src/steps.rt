//! Calls on files, one after another.

ghost use Rattle.std.specs.Prelude.{[], ◌∷◌};
ghost use Rattle.file_calls.specs.FileCalls.{meant};
ghost use Rattle.replica_calls.specs.Performed.{IsReady, Performs};
ghost use Rattle.replica_calls.specs.CallLists.{only, all_if, sync_list};

use crate::names::FileNames;
use file_calls::{FileCall, make_call};
use hd_base::{FileError, Files};

/// Makes a call.
pub fn step<F: Files>(files: &mut F, call: &FileCall) -> Result<(), FileError>
    requires { IsReady F.Files files.old (meant call.now ∷ []) }
    ensures { Performs F.Files files.old files.new (meant call.now ∷ []) result }
{
    make_call(files, call)
}

/// Makes a call, where the test holds.
pub fn step_if<F: Files>(files: &mut F, test: bool, call: &FileCall) -> Result<(), FileError>
    requires { IsReady F.Files files.old (only test (meant call.now)) }
    ensures { Performs F.Files files.old files.new (only test (meant call.now)) result }
{
    if test { step(files, call) } else { Ok(()) }
}

/// Syncs both files, where the test holds.
pub fn sync_if<F: Files>(files: &mut F, test: bool, names: &FileNames) -> Result<(), FileError>
    requires { IsReady F.Files files.old (all_if test (sync_list names.now)) }
    ensures { Performs F.Files files.old files.new (all_if test (sync_list names.now)) result }
{
    if test { sync(files, names) } else { Ok(()) }
}

/// Syncs both files, the data file first.
fn sync<F: Files>(files: &mut F, names: &FileNames) -> Result<(), FileError>
    requires { IsReady F.Files files.old (sync_list names.now) }
    ensures { Performs F.Files files.old files.new (sync_list names.now) result }
{
    step(files, &FileCall::Sync(&names.data))?;
    step(files, &FileCall::Sync(&names.meta))
}
