//! The calls by which a scan settles a block's files.

ghost use Rattle.std.specs.Prelude.{◌≡◌, ◌++◌, ◌&&◌, not, OnOk, true};
ghost use Rattle.file_calls.specs.FileCalls.{meant, plan};
ghost use Rattle.replica_calls.specs.CallLists.{only, remove_list};
ghost use Rattle.replica_model.specs.Plans.{same_folder};
ghost use Rattle.restart_scan.specs.Blocks.{move_list, cut_list};

use crate::pairs::PairPlaces;
use crate::reading::ReadPair;
use file_calls::FileCall;
use hd_base::FileName;
use replica_calls::FileNames;
use replica_model::meta_len;
use std::alloc::AllocError;

/// Adds a call, where the test holds.
fn push_if<'n, 'b>(
    calls: &mut Vec<FileCall<'n, 'b>>,
    test: bool,
    call: FileCall<'n, 'b>,
) -> Result<(), AllocError>
    ensures { OnOk result (plan calls.new.items ≡ plan calls.old.items ++ only test (meant call.entry)) }
{
    if test {
        calls.push(call)?;
    }
    Ok(())
}

/// Adds the removal of each file.
pub(crate) fn push_removals<'n, 'b>(
    calls: &mut Vec<FileCall<'n, 'b>>,
    names: &'n [FileName],
) -> Result<(), AllocError>
    ensures { OnOk result (plan calls.new.items ≡ plan calls.old.items ++ remove_list names.now) }
{
    for name in names {
        calls.push(FileCall::Remove(name))?;
    }
    Ok(())
}

/// Adds the calls that give both files other folders, the metadata file first.
pub(crate) fn push_moves<'n, 'b>(
    calls: &mut Vec<FileCall<'n, 'b>>,
    from: &'n FileNames,
    to: &'n FileNames,
    before: &PairPlaces,
    after: &PairPlaces,
) -> Result<(), AllocError>
    ensures { OnOk result (plan calls.new.items ≡ plan calls.old.items
        ++ move_list from.now to.now before.now after.now) }
{
    let moves_meta = before.meta_folder != after.meta_folder;
    let moves_data = before.folder != after.folder;
    push_if(calls, moves_meta, FileCall::Rename(&from.meta, &to.meta))?;
    push_if(calls, moves_data, FileCall::Rename(&from.data, &to.data))
}

/// Adds the calls that cut both files to what is kept of a pair.
pub(crate) fn push_cuts<'n, 'b>(
    calls: &mut Vec<FileCall<'n, 'b>>,
    names: &'n FileNames,
    pair: &ReadPair,
) -> Result<(), AllocError>
    ensures { OnOk result (plan calls.new.items ≡ plan calls.old.items
        ++ cut_list names.now pair.now.rule pair.now.data_len pair.now.meta_len pair.now.kept) }
{
    let left = meta_len(pair.rule, pair.kept);
    let cuts_data = pair.kept < pair.data_len;
    let cuts_meta = left < pair.meta_len;
    push_if(calls, cuts_data, FileCall::Cut(&names.data, pair.kept))?;
    push_if(calls, cuts_meta, FileCall::Cut(&names.meta, left))
}
