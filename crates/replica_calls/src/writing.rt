//! The bytes that a packet brings.

ghost use Rattle.std.specs.Prelude.{length, nat_lt};
ghost use Rattle.replica_calls.specs.Performed.{IsReady, Performs};
ghost use Rattle.replica_calls.specs.CallLists.{all_if, grow_list, packet_list};

use crate::names::FileNames;
use crate::steps::{step, step_if, sync_if};
use file_calls::FileCall;
use hd_base::{FileError, Files, SumRule};
use replica_model::{has_sums, sum_place};

/// Writes bytes behind the `written` ones of a replica's data file, with their sums from the chunk on
/// that was the last one, and syncs both files where `sync` asks for that. No bytes are no write.
pub fn grow<F: Files>(
    files: &mut F,
    names: &FileNames,
    rule: SumRule,
    written: u64,
    more: &[u8],
    sums: &[u8],
    sync: bool,
) -> Result<(), FileError>
    requires { IsReady F.Files files.old (packet_list names.now rule written more.now sums.now sync) }
    ensures { Performs F.Files files.old files.new (packet_list names.now rule written more.now sums.now sync) result }
{
    write_any(files, names, rule, written, more, sums)?;
    sync_if(files, sync, names)
}

/// Writes the bytes, and then the sums, where there are any.
fn write_any<F: Files>(
    files: &mut F,
    names: &FileNames,
    rule: SumRule,
    written: u64,
    more: &[u8],
    sums: &[u8],
) -> Result<(), FileError>
    requires { IsReady F.Files files.old
        (all_if (nat_lt 0 (length more.now)) (grow_list names.now rule written more.now sums.now)) }
    ensures { Performs F.Files files.old files.new
        (all_if (nat_lt 0 (length more.now)) (grow_list names.now rule written more.now sums.now)) result }
{
    if more.is_empty() {
        return Ok(());
    }
    write(files, names, rule, written, more, sums)
}

/// Writes the bytes, and then the sums.
fn write<F: Files>(
    files: &mut F,
    names: &FileNames,
    rule: SumRule,
    written: u64,
    more: &[u8],
    sums: &[u8],
) -> Result<(), FileError>
    requires { IsReady F.Files files.old (grow_list names.now rule written more.now sums.now) }
    ensures { Performs F.Files files.old files.new (grow_list names.now rule written more.now sums.now) result }
{
    let place = sum_place(rule, written);
    step(files, &FileCall::Write(&names.data, written, more))?;
    step_if(
        files,
        has_sums(rule.kind()),
        &FileCall::Write(&names.meta, place, sums),
    )
}
