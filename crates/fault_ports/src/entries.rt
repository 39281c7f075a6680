//! Files by their names, as lists of entries of which the first of a name tells.

ghost use Rattle.std.specs.Prelude.{◌≡◌, ◌+◌, ◌<◌, ◌≤◌, option_map, option_copied, IfOk, vec_len, vec_capacity};
ghost use Rattle.std.specs.Str.{bytes_eq};
ghost use Rattle.std.specs.Map.{update};
ghost use Rattle.file_calls.specs.Disks.{made_file};
ghost use Rattle.fault_ports.specs.StoredFiles.{disk_file_of, disk_by};

use crate::stored_files::StoredFile;
use hd_base::FileName;
use std::alloc::{AllocError, Global};

/// A name with its file on the disk, or with none.
#[derive(Debug, Drop)]
pub struct DiskEntry {
    pub name: FileName,
    pub file: Option<StoredFile>,
}

/// A name with the bytes of its file, or with none.
#[derive(Debug, Drop)]
pub struct StartEntry {
    pub name: FileName,
    pub bytes: Option<Vec<u8>>,
}

/// The file of a name.
pub fn find_file<'a>(entries: &'a [DiskEntry], name: &FileName) -> Option<&'a StoredFile>
    ensures { option_map disk_file_of (option_copied result) ≡ disk_by entries.now name.now }
{
    for entry in entries {
        if entry.name == *name {
            return entry.file.as_ref();
        }
    }
    None
}

/// Puts an entry before all others, in room that there is.
pub fn put_first(entries: &mut Vec<DiskEntry>, name: &FileName, file: Option<StoredFile>)
    requires { vec_len entries.old < vec_capacity entries.old }
    ensures disk { disk_by entries.new.items
        ≡ update bytes_eq (disk_by entries.old.items) name.now (option_map disk_file_of file) }
    ensures len { vec_len entries.new ≡ vec_len entries.old + 1 }
    ensures capacity { vec_capacity entries.old ≤ vec_capacity entries.new }
{
    let entry = DiskEntry {
        name: name.duplicate(),
        file,
    };
    if entries.insert(0, entry).is_err() {
        unreachable!();
    }
}

/// The file that a name has after it was made: empty, and one that was there cut to nothing.
pub fn made(alloc: Global, entries: &[DiskEntry], name: &FileName) -> Result<StoredFile, AllocError>
    ensures { IfOk result (λ f. disk_file_of f ≡ made_file (disk_by entries.now name.now)) }
{
    match find_file(entries, name) {
        Some(file) => file.cut(alloc, 0),
        None => StoredFile::synced(alloc, &[]),
    }
}
