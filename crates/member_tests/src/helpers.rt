//! What the tests of a member share: a block's book over files in memory, and a connection of roads in memory.

ghost use Rattle.std.specs.Prelude.{IfOk};
ghost use Rattle.hd_base.specs.Ends.{IsKnown};

use hd_base::{
    BlockId, Conn, ConnId, FileError, NodeId, Receipt, Roads, Shelf, Stamp, SumKind, SumRule,
};
use mem_ports::{MemDrawer, MemIn, MemOut, MemRoads, MemShelf};
use replica_core::Event;
use replica_files::ReplicaBook;
use std::alloc::Global;
use std::process::Abort;
use std::test::Fail;

/// The block.
pub(crate) const BLOCK: BlockId = BlockId(7);

/// The connection on which it is written.
pub(crate) const CONN: ConnId = ConnId(0);

/// The book of the block.
pub(crate) type Book = ReplicaBook<MemDrawer>;

/// An end of a connection.
pub(crate) type End = Conn<MemIn, MemOut>;

/// The block's receipt with this number.
pub(crate) fn receipt(index: u64) -> Receipt {
    Receipt {
        block: BLOCK,
        index,
    }
}

/// The book of the block, of which there is no replica, on a shelf that fails at these calls.
pub(crate) fn absent(alloc: Global, failing: &[u64]) -> Result<Book, FileError> {
    let mut shelf = MemShelf::new(alloc, failing)?;
    let drawer = shelf.lend(alloc, BLOCK)?;
    Ok(
        ReplicaBook::new(alloc, BLOCK, drawer)
            .ok()
            .ok_or(FileError::Memory)?,
    )
}

/// The book of the block, as a create of this stamp on this connection makes it, with sums of chunks of this size.
pub(crate) fn created(
    rt: &impl Abort,
    alloc: Global,
    conn: ConnId,
    stamp: Stamp,
    chunk: u32,
) -> Book {
    let mut book = absent(alloc, &[]).expect(rt, "a book");
    let sums = SumRule::new(SumKind::Crc32c, chunk).expect(rt, "a rule");
    book.setup(&Event::Create { conn, stamp, sums })
        .expect(rt, "a create");
    book
}

/// Roads, and an end of a connection to node 1, which fail at these calls.
pub(crate) fn dialled(alloc: Global, failing: &[u64]) -> Result<(MemRoads, End), Fail>
    ensures { IfOk result (λ pair. IsKnown (⟦<MemRoads as Roads>⟧.plain pair.0) pair.1.id.0) }
{
    let mut roads = MemRoads::new(alloc, failing)?;
    let port = roads.listen(alloc, NodeId(1))?;
    let end = roads.dial(alloc, port)?;
    Ok((roads, end))
}

/// The bytes that were sent on the end.
pub(crate) fn carried(alloc: Global, mut roads: MemRoads, mut end: End) -> Result<Vec<u8>, Fail>
    requires { IsKnown (⟦<MemRoads as Roads>⟧.plain roads) end.id.0 }
{
    roads.exchange(alloc, &mut end, false)?;
    Ok(roads.carried_bytes(alloc, end.id, true)?)
}
