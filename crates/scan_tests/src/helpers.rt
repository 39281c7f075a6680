//! Files on shelves, and what is found of them.

use hd_base::{BlockId, FileError, FileName, Files, ReplicaState, Shelf, Stamp, SumRule};
use meta_file::Folder;
use restart_scan::Seen;
use std::alloc::{AllocError, Global};

/// Makes a file with these bytes.
pub(crate) fn fill<F: Files>(
    alloc: Global,
    files: &mut F,
    name: &FileName,
    bytes: &[u8],
) -> Result<(), FileError> {
    files.room(alloc, name, bytes.len() as u64)?;
    files.make(name)?;
    files.write_at(name, 0, bytes)?;
    Ok(())
}

/// Puts a file of a block on a shelf.
pub(crate) fn put<S: Shelf>(
    alloc: Global,
    shelf: &mut S,
    block: BlockId,
    name: &FileName,
    bytes: &[u8],
) -> Result<(), FileError> {
    let mut drawer = shelf.lend(alloc, block)?;
    let answer = fill(alloc, &mut drawer, name, bytes);
    shelf.give_back(block, drawer);
    answer
}

/// The bytes from one place of a block up to another: each is its place modulo 251.
pub(crate) fn bytes_between(alloc: Global, from: usize, to: usize) -> Result<Vec<u8>, AllocError> {
    let mut bytes = Vec::new(alloc);
    for place in from..to {
        bytes.push((place % 251) as u8)?;
    }
    Ok(bytes)
}

/// What is found of a replica that waits for recovery.
pub(crate) fn waiting(block: BlockId, stamp: Stamp, length: u64) -> Seen {
    Seen {
        block,
        folder: Folder::Rbw,
        state: ReplicaState::Rwr,
        stamp,
        sums: SumRule::default(),
        length,
    }
}
