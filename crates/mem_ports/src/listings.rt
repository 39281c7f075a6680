//! Lists of names.

ghost use Rattle.std.specs.Prelude.{◌≡◌, ℕ, List, ◌++◌, ◌↔◌, true, OnOk, IfOk, Contains, AllPairs};
ghost use Rattle.std.specs.Ordering.{nat_cmp, is_lt};
ghost use Rattle.std.specs.Cmp.Lexicographic.{slice_cmp};
ghost use Rattle.mem_ports.specs.Entries.{present};

use crate::entries::Entry;
use hd_base::FileName;
use std::alloc::AllocError;

/// Puts the names of the files behind those that are listed.
pub fn push_names(names: &mut Vec<FileName>, entries: &[Entry]) -> Result<(), AllocError>
    ensures { OnOk result (names.new.items ≡ names.old.items ++ present entries.now) }
{
    for entry in entries {
        if entry.there {
            names.push(entry.name.duplicate())?;
        }
    }
    Ok(())
}

/// The names in ascending order, each once.
pub fn in_order(mut names: Vec<FileName>) -> Result<Vec<FileName>, AllocError>
    ensures each { IfOk result (λ v. (name : List ℕ) → Contains v.items name ↔ Contains names.items name) }
    ensures ascending { IfOk result (λ v. AllPairs (λ a b. is_lt (slice_cmp nat_cmp a b) ≡ true) v.items) }
{
    names.sort()?;
    names.dedup();
    Ok(names)
}
