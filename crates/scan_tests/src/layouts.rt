//! Scans of a block whose files lie where folder layout -56 puts them.

use crate::helpers::put;
use crate::stopping::Stopping;
use fault_ports::Keep;
use hd_base::{BlockId, FileName, ReplicaState, Shelf, Stamp, SumRule};
use mem_ports::MemShelf;
use meta_file::Folder;
use restart_scan::{Found, ScanFault, Seen, scan};
use std::alloc::Global;
use std::process::Abort;
use std::test::Fail;

const BLOCK: BlockId = BlockId(1_073_816_389);

/// Its data file in layout -56.
const OLD_DATA: &[u8] =
    b"current/BP-1-127.0.0.1-1/current/finalized/subdir1/subdir35/blk_1073816389";

/// Its metadata file in layout -56.
const OLD_META: &[u8] =
    b"current/BP-1-127.0.0.1-1/current/finalized/subdir1/subdir35/blk_1073816389_1001.meta";

/// Its data file in layout -57.
const DATA: &[u8] = b"current/BP-1-127.0.0.1-1/current/finalized/subdir1/subdir3/blk_1073816389";

/// Its metadata file in layout -57.
const META: &[u8] =
    b"current/BP-1-127.0.0.1-1/current/finalized/subdir1/subdir3/blk_1073816389_1001.meta";

/// The header of CRC32C sums over chunks of 512 bytes, and the sum of `123456789`.
const SUMS: &[u8] = b"\x00\x01\x02\x00\x00\x02\x00\xe3\x06\x92\x83";

/// A shelf with the block's files in layout -56.
fn old_shelf(alloc: Global) -> Result<MemShelf, Fail> {
    let mut shelf = MemShelf::new(alloc, &[])?;
    let data = FileName::new(OLD_DATA).ok_or("a name")?;
    put(alloc, &mut shelf, BLOCK, &data, b"123456789")?;
    let meta = FileName::new(OLD_META).ok_or("a name")?;
    put(alloc, &mut shelf, BLOCK, &meta, SUMS)?;
    Ok(shelf)
}

/// Scans the shelf, which finds the block's replica and leaves its files in layout -57, and answers which blocks were
/// moved.
fn find(rt: &impl Abort, alloc: Global, shelf: &mut MemShelf) -> Result<Vec<BlockId>, Fail> {
    let Ok(
        Found {
            replicas,
            moved,
            ..
        },
    ) = scan(alloc, shelf)
    else {
        return Err(Fail::new("scan"));
    };
    let seen = Seen {
        block: BLOCK,
        folder: Folder::Finalized,
        state: ReplicaState::Finalized,
        stamp: Stamp(1001),
        sums: SumRule::default(),
        length: 9,
    };
    assert_eq!(rt; replicas.as_slice(), [seen].as_slice());
    let names = shelf.list(alloc)?;
    assert_eq!(rt; names.len(), 2);
    assert_eq!(rt; names[0].as_slice(), DATA);
    assert_eq!(rt; names[1].as_slice(), META);
    Ok(moved)
}

#[test]
fn a_block_of_the_old_layout_is_moved_once(rt: HostRuntime) -> Result<(), Fail> {
    let mut shelf = old_shelf(rt.alloc())?;
    let moved = find(&rt, rt.alloc(), &mut shelf)?;
    assert_eq!(rt; moved.as_slice(), [BLOCK].as_slice());
    let again = find(&rt, rt.alloc(), &mut shelf)?;
    assert_eq!(rt; again.len(), 0);
    Ok(())
}

/// A scan that stops at a call of the move, and then one that doesn't: it moves what isn't moved yet.
fn stop_at(rt: &impl Abort, alloc: Global, calls: u64, keep: Keep) -> Result<(), Fail> {
    let inner = old_shelf(alloc)?;
    let mut shelf = Stopping { inner, calls, keep };
    assert_eq!(rt; scan(alloc, &mut shelf).err(), Some(ScanFault::File));
    let moved = find(rt, alloc, &mut shelf.inner)?;
    assert_eq!(rt; moved.is_empty(), calls == 1 && keep == Keep::All);
    Ok(())
}

#[test]
fn a_move_that_stopped_is_ended(rt: HostRuntime) -> Result<(), Fail> {
    for keep in [Keep::Nothing, Keep::Half, Keep::All] {
        stop_at(&rt, rt.alloc(), 0, keep)?;
        stop_at(&rt, rt.alloc(), 1, keep)?;
    }
    Ok(())
}
