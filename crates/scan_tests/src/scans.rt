//! Scans of pairs that wait for recovery.

use crate::helpers::{bytes_between, put, waiting};
use hd_base::{BlockId, FileError, Files, Shelf, Stamp};
use mem_ports::MemShelf;
use meta_file::{Folder, data_name, meta_name};
use restart_scan::scan;
use std::alloc::Global;
use std::test::Fail;

/// The files of a block, and how many bytes the two have after a scan.
struct Pair {
    block: BlockId,
    stamp: Stamp,
    /// Where the data file lies, and how many bytes it has.
    data: (Folder, usize),
    /// Where the metadata file lies, and its bytes.
    meta: (Folder, &'static [u8]),
    left: (u64, u64),
}

const PAIRS: [Pair; 4] = [
    // a last chunk that has grown since its sum was stored
    Pair {
        block: BlockId(1),
        stamp: Stamp(1001),
        data: (Folder::Rbw, 700),
        meta: (
            Folder::Rbw,
            b"\x00\x01\x02\x00\x00\x02\x00\x30\x9c\x86\x81\x25\xa0\xbb\x26",
        ),
        left: (512, 11),
    },
    // a last chunk whose sum isn't stored
    Pair {
        block: BlockId(2),
        stamp: Stamp(1001),
        data: (Folder::Rbw, 1030),
        meta: (
            Folder::Rbw,
            b"\x00\x01\x02\x00\x00\x02\x00\x30\x9c\x86\x81\x33\x88\xa5\x98",
        ),
        left: (1024, 15),
    },
    // a wrong sum
    Pair {
        block: BlockId(3),
        stamp: Stamp(1001),
        data: (Folder::Finalized, 600),
        meta: (
            Folder::Finalized,
            b"\x00\x01\x02\x00\x00\x02\x00\x30\x9c\x86\x81\x25\xa0\xbb\x27",
        ),
        left: (512, 11),
    },
    // an append that stopped between its two renames
    Pair {
        block: BlockId(1_073_741_825),
        stamp: Stamp(1002),
        data: (Folder::Finalized, 600),
        meta: (
            Folder::Rbw,
            b"\x00\x01\x02\x00\x00\x02\x00\x30\x9c\x86\x81\x25\xa0\xbb\x26",
        ),
        left: (600, 15),
    },
];

/// Puts the files of a block on a shelf.
fn put_pair<S: Shelf>(alloc: Global, shelf: &mut S, pair: &Pair) -> Result<(), FileError> {
    let (folder, length) = pair.data;
    let body = bytes_between(alloc, 0, length)?;
    let data = data_name(pair.block, folder);
    put(alloc, shelf, pair.block, &data, body.as_slice())?;
    let (folder, bytes) = pair.meta;
    let meta = meta_name(pair.block, pair.stamp, folder);
    put(alloc, shelf, pair.block, &meta, bytes)
}

/// How many bytes the files of a block in rbw have.
fn lengths<S: Shelf>(alloc: Global, shelf: &mut S, pair: &Pair) -> Result<(u64, u64), FileError> {
    let mut drawer = shelf.lend(alloc, pair.block)?;
    let data = drawer.length(&data_name(pair.block, Folder::Rbw));
    let meta = drawer.length(&meta_name(pair.block, pair.stamp, Folder::Rbw));
    shelf.give_back(pair.block, drawer);
    Ok((data?, meta?))
}

#[test]
fn what_was_being_written_waits_for_recovery(rt: HostRuntime) -> Result<(), Fail> {
    let alloc = rt.alloc();
    let mut shelf = MemShelf::new(alloc, &[])?;
    for pair in &PAIRS {
        put_pair(alloc, &mut shelf, pair)?;
    }
    let alone = data_name(BlockId(4), Folder::Rbw);
    put(alloc, &mut shelf, BlockId(4), &alone, b"abc")?;
    let temporary = data_name(BlockId(5), Folder::Tmp);
    put(alloc, &mut shelf, BlockId(5), &temporary, b"abc")?;
    let Ok(found) = scan(alloc, &mut shelf) else {
        return Err(Fail::new("scan"));
    };
    assert_eq!(rt; found.replicas.len(), 4);
    for (pair, seen) in PAIRS.iter().zip(found.replicas.iter()) {
        assert_eq!(rt; *seen, waiting(pair.block, pair.stamp, pair.left.0));
        assert_eq!(rt; lengths(alloc, &mut shelf, pair), Ok(pair.left));
    }
    let left = shelf.list(alloc)?;
    assert!(rt; !left.contains(&temporary));
    assert!(rt; left.contains(&alone));
    assert_eq!(rt; found.strays.as_slice(), [alone].as_slice());
    Ok(())
}
