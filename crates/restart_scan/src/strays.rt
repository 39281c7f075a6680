//! The files that belong to no replica.

ghost use Rattle.std.specs.Prelude.{◌≡◌, IfOk, filter};
ghost use Rattle.std.specs.List.Sorted.{IsStrictlyIncreasing};
ghost use Rattle.restart_scan.specs.Shelves.{numbers_of, is_among, is_stray};

use crate::found::Seen;
use crate::pairs::is_temporary;
use hd_base::FileName;
use std::alloc::{AllocError, Global};

/// The numbers of the replicas' blocks, in their order.
fn numbers_of(alloc: Global, replicas: &[Seen]) -> Result<Vec<u64>, AllocError>
    ensures { IfOk result (λ v. v.items ≡ numbers_of replicas.now) }
{
    let mut numbers = Vec::new(alloc);
    for seen in replicas {
        numbers.push(seen.block.0)?;
    }
    Ok(numbers)
}

/// Whether a number is among these, which ascend.
fn is_among(numbers: &[u64], number: u64) -> bool
    ensures { IsStrictlyIncreasing numbers.now → result ≡ is_among numbers.now number }
{
    numbers.binary_search(&number).is_ok()
}

/// Whether a file belongs to no replica of the blocks with these numbers, which ascend, and to none in tmp.
fn is_stray(name: &FileName, numbers: &[u64]) -> bool
    ensures { IsStrictlyIncreasing numbers.now → result ≡ is_stray numbers.now name.now }
{
    match name.block() {
        Some(block) => !is_temporary(name) && !is_among(numbers, block.0),
        None => true,
    }
}

/// The names of the files that belong to no replica.
pub(crate) fn strays_among(
    alloc: Global,
    names: Vec<FileName>,
    replicas: &[Seen],
) -> Result<Vec<FileName>, AllocError>
    ensures { IfOk result (λ v. IsStrictlyIncreasing (numbers_of replicas.now)
        → v.items ≡ filter (is_stray (numbers_of replicas.now)) names.items) }
{
    let numbers = numbers_of(alloc, replicas)?;
    let mut strays = names;
    strays.retain(|name| is_stray(name, &numbers));
    Ok(strays)
}
