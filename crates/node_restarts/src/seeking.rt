//! Which replicas a restart looks for.

ghost use Rattle.std.specs.Prelude.{◌≡◌, ◌++◌, IfOk, OnOk};
ghost use Rattle.node_opening.specs.Closing.{block_of};
ghost use Rattle.node_restarts.specs.Seeking.{is_sought, sought_list, sought_of, has_block, found_of};

use hd_base::{BlockId, Files};
use replica_files::ReplicaBook;
use restart_scan::Seen;
use std::alloc::{AllocError, Global};

/// Whether a restart looks for a book's replica: it is there, or it broke.
fn is_sought<F: Files>(book: &ReplicaBook<F>) -> bool
    ensures { result ≡ is_sought book.now }
{
    let replica = book.replica();
    replica.stamp().is_some() || replica.is_broken()
}

/// The block of a book.
fn block_of<F: Files>(book: &ReplicaBook<F>) -> BlockId
    ensures { result ≡ block_of book.now }
{
    book.replica().block()
}

/// Adds the block of a book's replica, if a restart looks for it.
fn push_sought<F: Files>(sought: &mut Vec<BlockId>, book: &ReplicaBook<F>) -> Result<(), AllocError>
    ensures { OnOk result (sought.new.items ≡ sought.old.items ++ sought_list book.now) }
{
    if is_sought(book) {
        sought.push(block_of(book))?;
    }
    Ok(())
}

/// The blocks of the replicas that a restart looks for.
pub(crate) fn sought_of<F: Files>(
    alloc: Global,
    books: &[ReplicaBook<F>],
) -> Result<Vec<BlockId>, AllocError>
    ensures { IfOk result (λ v. v.items ≡ sought_of books.now) }
{
    let mut sought = Vec::new(alloc);
    for book in books {
        push_sought(&mut sought, book)?;
    }
    Ok(sought)
}

/// Whether a block is among these.
fn has_block(blocks: &[BlockId], block: BlockId) -> bool
    ensures { result ≡ has_block blocks.now block.0 }
{
    blocks.iter().any(|other| other.0 == block.0)
}

/// What was found of these blocks.
pub(crate) fn found_of(blocks: &[BlockId], mut replicas: Vec<Seen>) -> Vec<Seen>
    ensures { result.items ≡ found_of blocks.now replicas.items }
{
    replicas.retain(|seen| has_block(blocks, seen.block));
    replicas
}
