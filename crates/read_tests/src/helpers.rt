//! What the tests of reads share: a block's book over files in memory, and a read of it.

use bytes::Bytes;
use chunk_sums::crc;
use hd_base::{
    BlockId, ByteList, Conn, ConnId, FileError, LinkOut, NodeId, Receipt, ReplicaState, Roads,
    Shelf, Stamp, SumKind, SumRule,
};
use mem_ports::{MemDrawer, MemIn, MemOut, MemRoads, MemShelf};
use op_headers::{BlockRef, ReadOp};
use packet_codec::Packet;
use replica_core::Event;
use replica_files::{BookFault, ReplicaBook};
use std::alloc::Global;
use std::process::Abort;
use visible_read::{ReadStep, Reading, Served, serve_read};

/// The block.
pub(crate) const BLOCK: BlockId = BlockId(7);

/// The connection on which it is written.
const CONN: ConnId = ConnId(9);

/// The block's pool.
pub(crate) const POOL: &[u8] = b"BP-1-127.0.0.1-1";

/// The book of the block.
pub(crate) type Book = ReplicaBook<MemDrawer>;

/// An end of a connection.
pub(crate) type End = Conn<MemIn, MemOut>;

/// The block's byte at this place.
fn byte_at(at: usize) -> u8 {
    u8::try_from(at % 251).unwrap_or(0)
}

/// So many of the block's bytes, from this place on.
pub(crate) fn bytes_of(rt: &impl Abort, alloc: Global, from: usize, count: usize) -> Vec<u8> {
    let mut bytes = Vec::new(alloc);
    for at in from..from.saturating_add(count) {
        bytes.push(byte_at(at)).expect(rt, "memory");
    }
    bytes
}

/// The packet of this number with so many of the block's bytes from this place on, which are of one chunk.
fn packet(rt: &impl Abort, alloc: Global, seqno: i64, offset: usize, count: usize) -> Packet {
    let body = bytes_of(rt, alloc, offset, count);
    let sum = crc(SumKind::Crc32c, &body).to_be_bytes();
    Packet {
        offset: i64::try_from(offset).unwrap_or(0),
        seqno,
        last: false,
        sync: false,
        sums: Bytes::copy_from_slice(alloc, &sum).expect(rt, "memory"),
        body: Bytes::from_vec(body).expect(rt, "memory"),
    }
}

/// The book of the block, of which there is no replica.
fn absent(alloc: Global) -> Result<Book, FileError> {
    let mut shelf = MemShelf::new(alloc, &[])?;
    let drawer = shelf.lend(alloc, BLOCK)?;
    ReplicaBook::new(alloc, BLOCK, drawer)
        .ok()
        .ok_or(FileError::Memory)
}

/// Gives a book a packet, where there is room for one.
fn take(book: &mut Book, packet: &Packet) -> Result<Receipt, BookFault> {
    if book.replica().is_full() {
        return Err(BookFault::Memory);
    }
    book.packet(CONN, packet)
}

/// The book of a replica that is written: 300 bytes are acked, and 900 written.
pub(crate) fn written(rt: &impl Abort, alloc: Global) -> Book {
    let mut book = absent(alloc).expect(rt, "a book");
    let sums = SumRule::new(SumKind::Crc32c, 512).expect(rt, "a rule");
    let stamp = Stamp(1001);
    let conn = CONN;
    book.setup(&Event::Create { conn, stamp, sums })
        .expect(rt, "a create");
    take(&mut book, &packet(rt, alloc, 0, 0, 300)).expect(rt, "a packet");
    book.ack(CONN, 0, true).expect(rt, "an ack");
    take(&mut book, &packet(rt, alloc, 1, 300, 212)).expect(rt, "a packet");
    take(&mut book, &packet(rt, alloc, 2, 512, 388)).expect(rt, "a packet");
    book
}

/// The book of the same replica after a restart: it waits for a block recovery.
pub(crate) fn restarted(rt: &impl Abort, alloc: Global, book: Book) -> Book {
    let Some(info) = book.replica().info() else {
        panic!(rt; "no replica");
    };
    let ReplicaState::Rbw = info.original else {
        panic!(rt; "not written");
    };
    if book.replica().is_broken() {
        panic!(rt; "a broken replica");
    }
    let block = book.replica().block();
    let (drawer, _) = book.close_book();
    ReplicaBook::found(
        alloc,
        block,
        ReplicaState::Rwr,
        info.stamp,
        info.sums,
        drawer,
    )
    .ok()
    .expect(rt, "a book")
}

/// A read of the block of this pool.
pub(crate) fn read(rt: &impl Abort, alloc: Global, pool: &[u8], offset: u64, len: u64) -> ReadOp {
    ReadOp {
        block: BlockRef {
            pool: ByteList::from_slice(alloc, pool).expect(rt, "memory"),
            block: BLOCK,
            stamp: Stamp(1001),
            bytes: 0,
        },
        client: ByteList::from_slice(alloc, b"client").expect(rt, "memory"),
        offset,
        len,
    }
}

/// Roads on which a node listens, and its port.
pub(crate) fn listened(rt: &impl Abort, alloc: Global) -> (MemRoads, u16) {
    let mut roads = MemRoads::new(alloc, &[]).expect(rt, "memory");
    let port = roads.listen(alloc, NodeId(0)).expect(rt, "a port");
    (roads, port)
}

/// Both ends of a connection to the port.
pub(crate) fn joined(
    rt: &impl Abort,
    alloc: Global,
    roads: &mut MemRoads,
    port: u16,
) -> (End, End) {
    let upper = roads.dial(alloc, port).expect(rt, "a dial");
    let lower = roads
        .accept(alloc, port)
        .expect(rt, "an answer")
        .expect(rt, "a dial");
    (upper, lower)
}

/// Exchanges an end.
pub(crate) fn pass(
    rt: &impl Abort,
    alloc: Global,
    roads: &mut MemRoads,
    end: &mut End,
    take: bool,
) {
    assert!(rt; roads.knows(end.id));
    roads.exchange(alloc, end, take).expect(rt, "an exchange");
}

/// What the node sends that serves a read.
pub(crate) fn served_text(
    rt: &impl Abort,
    alloc: Global,
    roads: &mut MemRoads,
    port: u16,
    op: &ReadOp,
) -> Vec<u8> {
    let mut book = written(rt, alloc);
    let (upper, mut lower) = joined(rt, alloc, roads, port);
    let served = serve_read(alloc, &mut book, op, &mut lower.outward);
    assert!(rt; matches!(served, Served::Sent { .. }));
    pass(rt, alloc, roads, &mut lower, false);
    roads
        .carried_bytes(alloc, upper.id, false)
        .expect(rt, "memory")
}

/// The upper end of a connection, which holds this ready.
pub(crate) fn holding(
    rt: &impl Abort,
    alloc: Global,
    roads: &mut MemRoads,
    port: u16,
    text: &[u8],
) -> End {
    let (mut upper, mut lower) = joined(rt, alloc, roads, port);
    lower
        .outward
        .room(alloc, text.len() as u64)
        .expect(rt, "room");
    lower.outward.send(text).expect(rt, "a send");
    pass(rt, alloc, roads, &mut lower, false);
    pass(rt, alloc, roads, &mut upper, true);
    upper
}

/// A step of the reader, which is given what stands next before it and gives what it sent after it.
pub(crate) fn step(
    rt: &impl Abort,
    alloc: Global,
    roads: &mut MemRoads,
    reading: &mut Reading<MemIn, MemOut>,
) -> ReadStep {
    let conn = reading.conn();
    assert!(rt; roads.knows(conn));
    reading
        .exchange(alloc, roads, Some(conn))
        .expect(rt, "an exchange");
    assert!(rt; reading.is_open());
    let step = reading.step(alloc);
    reading
        .exchange(alloc, roads, None)
        .expect(rt, "an exchange");
    step
}
