//! The files of a new replica.

ghost use Rattle.std.specs.Prelude.{◌≡◌};
ghost use Rattle.meta_file.specs.Headers.{header_of};
ghost use Rattle.replica_calls.specs.Performed.{IsReady, Performs};
ghost use Rattle.replica_calls.specs.CallLists.{remove_list, new_list, create_list};

use crate::names::FileNames;
use crate::steps::step;
use file_calls::FileCall;
use hd_base::{FileError, FileName, Files, SumRule};
use meta_file::header;

/// Removes each of these files, and makes those of a new replica under this rule, which have no bytes
/// and the header alone.
pub fn create<F: Files>(
    files: &mut F,
    strays: &[FileName],
    names: &FileNames,
    rule: SumRule,
) -> Result<(), FileError>
    requires { IsReady F.Files files.old (create_list strays.now names.now (header_of rule)) }
    ensures { Performs F.Files files.old files.new (create_list strays.now names.now (header_of rule)) result }
{
    let front = header(rule);
    remove(files, strays)?;
    make(files, names, &front)
}

/// Removes each of these files.
fn remove<F: Files>(files: &mut F, strays: &[FileName]) -> Result<(), FileError>
    requires { IsReady F.Files files.old (remove_list strays.now) }
    ensures { Performs F.Files files.old files.new (remove_list strays.now) result }
{
    for name in strays {
        step(files, &FileCall::Remove(name))?;
    }
    Ok(())
}

/// Makes both files, and writes the header.
fn make<F: Files>(files: &mut F, names: &FileNames, header: &[u8]) -> Result<(), FileError>
    requires { IsReady F.Files files.old (new_list names.now header.now) }
    ensures { Performs F.Files files.old files.new (new_list names.now header.now) result }
{
    step(files, &FileCall::Make(&names.data))?;
    step(files, &FileCall::Make(&names.meta))?;
    step(files, &FileCall::Write(&names.meta, 0, header))
}
