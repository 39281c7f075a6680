//! Room for what a replica's files are to hold.

ghost use Rattle.std.specs.Prelude.{◌≡◌, OnOk};
ghost use Rattle.replica_calls.specs.Performed.{KeepsAll, RoomCause, Covers};

use crate::names::FileNames;
use hd_base::{FileError, Files};
use std::alloc::Global;

/// Secures that the data file and the metadata file may grow to these lengths, or be made and grow to
/// them, without memory. No file changes.
pub fn secure<F: Files>(
    alloc: Global,
    files: &mut F,
    names: &FileNames,
    data_len: u64,
    meta_len: u64,
) -> Result<(), FileError>
    ensures covers { OnOk result (Covers (F.room files.new) names.now data_len meta_len) }
    ensures kept { KeepsAll F.Files files.old files.new }
    ensures cause { RoomCause (F.faults files.old) (F.faults files.new) result }
{
    files.room(alloc, &names.data, data_len)?;
    files.room(alloc, &names.meta, meta_len)
}
