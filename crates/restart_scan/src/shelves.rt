//! A shelf is scanned block by block.

ghost use Rattle.std.specs.Prelude.{◌≡◌, ◌++◌, ◌<◌, IfOk, OnOk, vec_len, vec_capacity};
ghost use Rattle.std.specs.List.Sorted.{IsStrictlyIncreasing};
ghost use Rattle.hd_base.specs.Blocks.{block_of};
ghost use Rattle.restart_scan.specs.Shelves.{ScansFrom, ScansNext, ScansBlocks, seen_list, moved_list};
ghost use Rattle.restart_scan.specs.Shelves.{number_list, numbers_in, AreNumbers};

use crate::drawers::scan_drawer;
use crate::faults::ScanFault;
use crate::found::{Scanned, Seen};
use hd_base::{BlockId, FileName, Shelf};
use std::alloc::{AllocError, Global};

/// The replicas that were found so far, and the blocks that were moved.
#[derive(Drop)]
pub(crate) struct Listed {
    pub(crate) replicas: Vec<Seen>,
    pub(crate) moved: Vec<BlockId>,
}

/// Scans the files of a block, which the shelf lends meanwhile.
fn scan_block<S: Shelf>(alloc: Global, shelf: &mut S, block: BlockId) -> Result<Scanned, ScanFault>
    ensures { ScansFrom S.Shelf block shelf.old shelf.new result }
{
    let mut drawer = shelf.lend(alloc, block)?;
    let scanned = scan_drawer(alloc, &mut drawer, block);
    shelf.give_back(block, drawer);
    scanned
}

/// Scans one block more, and lists what was found.
fn scan_next<S: Shelf>(
    alloc: Global,
    shelf: &mut S,
    block: BlockId,
    listed: &mut Listed,
) -> Result<(), ScanFault>
    ensures { ScansNext S.Shelf block shelf.old shelf.new listed.old listed.new result }
{
    listed.replicas.reserve(1)?;
    listed.moved.reserve(1)?;
    let Scanned { seen, is_moved } = scan_block(alloc, shelf, block)?;
    put_seen(&mut listed.replicas, seen);
    put_moved(&mut listed.moved, block, is_moved);
    Ok(())
}

/// Lists a replica, if one was found. There is room for it.
fn put_seen(replicas: &mut Vec<Seen>, seen: Option<Seen>)
    requires { vec_len replicas.old < vec_capacity replicas.old }
    ensures { replicas.new.items ≡ replicas.old.items ++ seen_list seen }
{
    if let Some(seen) = seen {
        replicas.push_reserved(seen);
    }
}

/// Lists a block, if it was moved. There is room for it.
fn put_moved(moved: &mut Vec<BlockId>, block: BlockId, is_moved: bool)
    requires { vec_len moved.old < vec_capacity moved.old }
    ensures { moved.new.items ≡ moved.old.items ++ moved_list block is_moved }
{
    if is_moved {
        moved.push_reserved(block);
    }
}

/// Scans the blocks with these numbers one after the other.
pub(crate) fn scan_blocks<S: Shelf>(
    alloc: Global,
    shelf: &mut S,
    blocks: &[u64],
) -> Result<Listed, ScanFault>
    requires { IsStrictlyIncreasing blocks.now }
    ensures { ScansBlocks S.Shelf blocks.now shelf.old shelf.new result }
{
    let mut listed = Listed {
        replicas: Vec::new(alloc),
        moved: Vec::new(alloc),
    };
    for block in blocks {
        scan_next(alloc, shelf, BlockId(*block), &mut listed)?;
    }
    Ok(listed)
}

/// Adds the number of a name's block, if it has one.
fn push_number(numbers: &mut Vec<u64>, name: &FileName) -> Result<(), AllocError>
    ensures { OnOk result (numbers.new.items ≡ numbers.old.items ++ number_list (block_of name.now)) }
{
    if let Some(block) = name.block() {
        numbers.push(block.0)?;
    }
    Ok(())
}

/// The numbers of the blocks of these names, in their order.
fn numbers_in(alloc: Global, names: &[FileName]) -> Result<Vec<u64>, AllocError>
    ensures { IfOk result (λ v. v.items ≡ numbers_in names.now) }
{
    let mut numbers = Vec::new(alloc);
    for name in names {
        push_number(&mut numbers, name)?;
    }
    Ok(numbers)
}

/// The numbers of the blocks of these names, each once, in ascending order.
pub(crate) fn blocks_of(alloc: Global, names: &[FileName]) -> Result<Vec<u64>, AllocError>
    ensures { IfOk result (λ v. AreNumbers names.now v.items) }
{
    let mut numbers = numbers_in(alloc, names)?;
    numbers.sort()?;
    numbers.dedup();
    Ok(numbers)
}
