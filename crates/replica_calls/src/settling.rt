//! What a recovery or an ack makes of a replica's files.

ghost use Rattle.std.specs.Prelude.{◌≡◌, ◌==◌, ◌%◌, ◌&&◌, not};
ghost use Rattle.replica_model.specs.Plans.{folder_of, has_sums, same_folder, leaves_temporary};
ghost use Rattle.replica_calls.specs.Performed.{IsReady, Performs};
ghost use Rattle.replica_calls.specs.CallLists.{shorter_list, cut_list, move_list, settle_list};

use crate::names::FileNames;
use crate::steps::{step, step_if, sync_if};
use file_calls::FileCall;
use hd_base::{FileError, Files, ReplicaState, SumRule};
use replica_core::ReplicaInfo;
use replica_model::{folder_of, has_sums, meta_len, sum_place};

/// Makes of the files of a replica those of what it holds next: a TEMPORARY replica that becomes another
/// is synced, bytes past the next length are cut off, and the files get their next names. `last_sum`
/// is the sum of the bytes that are left in the last chunk, where it is short.
pub fn settle<F: Files>(
    files: &mut F,
    before: &FileNames,
    after: &FileNames,
    held: &ReplicaInfo,
    next: &ReplicaInfo,
    last_sum: u32,
) -> Result<(), FileError>
    requires { IsReady F.Files files.old (settle_list before.now after.now held.now next.now last_sum) }
    ensures { Performs F.Files files.old files.new
        (settle_list before.now after.now held.now next.now last_sum) result }
{
    let sum = last_sum.to_be_bytes();
    sync_if(files, leaves_temporary(held, next), before)?;
    cut(files, before, held, next.written, &sum)?;
    rename(files, before, after, held, next)
}

/// Whether a TEMPORARY replica becomes another.
fn leaves_temporary(held: &ReplicaInfo, next: &ReplicaInfo) -> bool
    ensures { result ≡ leaves_temporary held.now next.now }
{
    held.original == ReplicaState::Temporary && next.original != ReplicaState::Temporary
}

/// Cuts the bytes past `len` off, and their sums. `sum` is that of the bytes that are left in the last
/// chunk, four bytes big-endian.
fn cut<F: Files>(
    files: &mut F,
    names: &FileNames,
    held: &ReplicaInfo,
    len: u64,
    sum: &[u8],
) -> Result<(), FileError>
    requires { IsReady F.Files files.old (cut_list names.now held.now.sums held.now.written len sum.now) }
    ensures { Performs F.Files files.old files.new
        (cut_list names.now held.now.sums held.now.written len sum.now) result }
{
    if held.written <= len {
        return Ok(());
    }
    cut_to(files, names, held, len, sum)
}

/// Cuts the bytes past `len`, which is less than what is written, and their sums.
fn cut_to<F: Files>(
    files: &mut F,
    names: &FileNames,
    held: &ReplicaInfo,
    len: u64,
    sum: &[u8],
) -> Result<(), FileError>
    requires { IsReady F.Files files.old (shorter_list names.now held.now.sums held.now.written len sum.now) }
    ensures { Performs F.Files files.old files.new
        (shorter_list names.now held.now.sums held.now.written len sum.now) result }
{
    let rule = held.sums;
    let left = meta_len(rule, len);
    let is_longer = left < meta_len(rule, held.written);
    step(files, &FileCall::Cut(&names.data, len))?;
    step_if(
        files,
        is_summed(rule, len),
        &FileCall::Write(&names.meta, sum_place(rule, len), sum),
    )?;
    step_if(files, is_longer, &FileCall::Cut(&names.meta, left))
}

/// Whether chunks have sums, and the last one of so many bytes is short.
fn is_summed(rule: SumRule, len: u64) -> bool
    ensures { result ≡ (has_sums rule.kind && not (len % rule.chunk == 0)) }
{
    has_sums(rule.kind()) && len % u64::from(rule.chunk()) != 0
}

/// Gives the files another folder or stamp, the metadata file first.
fn rename<F: Files>(
    files: &mut F,
    before: &FileNames,
    after: &FileNames,
    held: &ReplicaInfo,
    next: &ReplicaInfo,
) -> Result<(), FileError>
    requires { IsReady F.Files files.old (move_list before.now after.now
        (folder_of held.now.original) held.now.stamp.0 (folder_of next.now.original) next.now.stamp.0) }
    ensures { Performs F.Files files.old files.new (move_list before.now after.now
        (folder_of held.now.original) held.now.stamp.0 (folder_of next.now.original) next.now.stamp.0) result }
{
    let moves = !keeps_folder(held, next);
    let is_renamed = !keeps_name(held, next);
    step_if(
        files,
        is_renamed,
        &FileCall::Rename(&before.meta, &after.meta),
    )?;
    step_if(files, moves, &FileCall::Rename(&before.data, &after.data))
}

/// Whether the files lie in one folder before and after.
fn keeps_folder(held: &ReplicaInfo, next: &ReplicaInfo) -> bool
    ensures { result ≡ same_folder (folder_of held.now.original) (folder_of next.now.original) }
{
    folder_of(held.original) == folder_of(next.original)
}

/// Whether the metadata file has one name before and after.
fn keeps_name(held: &ReplicaInfo, next: &ReplicaInfo) -> bool
    ensures { result ≡ (same_folder (folder_of held.now.original) (folder_of next.now.original)
        && held.now.stamp.0 == next.now.stamp.0) }
{
    keeps_folder(held, next) && held.stamp == next.stamp
}
