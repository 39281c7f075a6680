//! Books over files in memory, and packets.

use bytes::Bytes;
use fault_ports::{Keep, StopAt};
use hd_base::{BlockId, ConnId, Receipt, Shelf};
use mem_ports::{MemDrawer, MemShelf};
use packet_codec::Packet;
use replica_files::{BookFault, ReplicaBook};
use std::alloc::{AllocError, Global};
use std::test::Fail;

/// The block.
pub(crate) const BLOCK: BlockId = BlockId(7);

/// A book over files that stop at some call.
pub(crate) type Book = ReplicaBook<StopAt<MemDrawer>>;

/// The book of an absent replica over no files, which pass so many calls and stop at the next.
pub(crate) fn new_book(alloc: Global, calls: u64, keep: Keep) -> Result<Book, Fail> {
    let mut shelf = MemShelf::new(alloc, &[])?;
    let drawer = shelf.lend(alloc, BLOCK)?;
    match ReplicaBook::new(alloc, BLOCK, StopAt::new(drawer, calls, keep)) {
        Ok(book) => Ok(book),
        Err(_) => Err(Fail::new("no book")),
    }
}

/// The block's receipt with this number.
pub(crate) fn receipt(index: u64) -> Receipt {
    Receipt {
        block: BLOCK,
        index,
    }
}

/// A packet that isn't the last one and asks for no sync.
pub(crate) fn packet(
    alloc: Global,
    seqno: i64,
    offset: i64,
    sums: &[u8],
    body: &[u8],
) -> Result<Packet, AllocError> {
    Ok(Packet {
        offset,
        seqno,
        last: false,
        sync: false,
        sums: Bytes::copy_from_slice(alloc, sums)?,
        body: Bytes::copy_from_slice(alloc, body)?,
    })
}

/// Gives a book a packet, where there is room for one.
pub(crate) fn take(book: &mut Book, conn: ConnId, packet: &Packet) -> Result<Receipt, BookFault> {
    if book.replica().is_full() {
        return Err(BookFault::Memory);
    }
    book.packet(conn, packet)
}
