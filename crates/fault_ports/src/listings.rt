//! Lists of names.

ghost use Rattle.std.specs.Prelude.{◌≡◌, ℕ, List, ◌++◌, ◌↔◌, true, OnOk, IfOk, Contains, AllPairs};
ghost use Rattle.std.specs.Ordering.{nat_cmp, is_lt};
ghost use Rattle.std.specs.Cmp.Lexicographic.{slice_cmp};
ghost use Rattle.hd_base.specs.FileMaps.{AreNamesOf};
ghost use Rattle.file_calls.specs.Disks.{files_on};
ghost use Rattle.fault_ports.specs.StoredFiles.{disk_by, present};

use crate::entries::{DiskEntry, find_file};
use hd_base::FileName;
use std::alloc::{AllocError, Global};

/// The names of all files, in ascending order.
pub fn listed(alloc: Global, entries: &[DiskEntry]) -> Result<Vec<FileName>, AllocError>
    ensures { IfOk result (λ v. AreNamesOf (files_on (disk_by entries.now)) v.items) }
{
    let mut names = Vec::new(alloc);
    for entry in entries {
        if find_file(entries, &entry.name).is_some() {
            names.push(entry.name.duplicate())?;
        }
    }
    in_order(names)
}

/// The names in ascending order, each once.
fn in_order(mut names: Vec<FileName>) -> Result<Vec<FileName>, AllocError>
    ensures each { IfOk result (λ v. (name : List ℕ) → Contains v.items name ↔ Contains names.items name) }
    ensures ascending { IfOk result (λ v. AllPairs (λ a b. is_lt (slice_cmp nat_cmp a b) ≡ true) v.items) }
{
    names.sort()?;
    names.dedup();
    Ok(names)
}
