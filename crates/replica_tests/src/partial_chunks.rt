//! Chunks that grow: the sums in the metadata file are those of whole chunks, whatever packets brought them.

use crate::helpers::{BLOCK, Book, new_book, packet, take};
use fault_ports::Keep;
use hd_base::{ConnId, Files, Stamp, SumRule};
use meta_file::{Folder, meta_name};
use packet_codec::Packet;
use replica_core::Event;
use std::alloc::{AllocError, Global};
use std::process::Abort;
use std::test::Fail;

/// So many bytes, of which the byte at each place is the place modulo 251.
fn pattern(alloc: Global, len: usize) -> Result<Vec<u8>, AllocError> {
    let mut bytes = vec![in alloc; 0; len]?;
    for (place, byte) in bytes.iter_mut().enumerate() {
        *byte = (place % 251) as u8;
    }
    Ok(bytes)
}

/// The bytes from one place up to another.
fn part(bytes: &[u8], from: usize, to: usize) -> Result<&[u8], Fail> {
    Ok(bytes.get(from..to).ok_or("too few bytes")?)
}

/// A packet is taken and acked.
fn grow(rt: &impl Abort, book: &mut Book, conn: ConnId, packet: &Packet) {
    assert!(rt; take(book, conn, packet).is_ok());
    assert!(rt; book.ack(conn, packet.seqno, true).is_ok());
}

/// A book whose block was made under the default rule and got the first 600 bytes on connection 0.
fn with_600(rt: &impl Abort, alloc: Global, bytes: &[u8]) -> Result<Book, Fail> {
    let mut book = new_book(alloc, u64::MAX, Keep::All)?;
    let create = Event::Create {
        conn: ConnId(0),
        stamp: Stamp(1001),
        sums: SumRule::default(),
    };
    assert!(rt; book.setup(&create).is_ok());
    let sums = b"\x30\x9c\x86\x81\x25\xa0\xbb\x26";
    let first = packet(alloc, 0, 0, sums, part(bytes, 0, 600)?)?;
    grow(rt, &mut book, ConnId(0), &first);
    Ok(book)
}

/// The sums in the metadata file under this stamp, of a replica being written.
fn sums_of(alloc: Global, book: Book, stamp: Stamp) -> Result<Vec<u8>, Fail> {
    let (drawer, _) = book.close_book();
    let mut files = drawer.into_inner();
    let mut sums = vec![in alloc; 0; 20]?;
    let count = files.read_at(&meta_name(BLOCK, stamp, Folder::Rbw), 7, &mut sums)?;
    sums.truncate(count);
    Ok(sums)
}

#[test]
fn a_packet_goes_on_in_a_chunk(rt: HostRuntime) -> Result<(), Fail> {
    let bytes = pattern(rt.alloc(), 700)?;
    let mut book = with_600(&rt, rt.alloc(), &bytes)?;
    let next = packet(
        rt.alloc(),
        1,
        512,
        b"\xa5\x4d\x44\x4d",
        part(&bytes, 512, 700)?,
    )?;
    grow(&rt, &mut book, ConnId(0), &next);
    let mut read = Vec::new(rt.alloc());
    assert!(rt; book.read(Stamp(1001), 590, 110, &mut read).is_ok());
    assert_eq!(rt; read.as_slice(), part(&bytes, 590, 700)?);
    let sums = sums_of(rt.alloc(), book, Stamp(1001))?;
    assert_eq!(rt;
        sums.as_slice(),
        b"\x30\x9c\x86\x81\xa5\x4d\x44\x4d".as_slice()
    );
    Ok(())
}

/// The last packet of 600 bytes is acked, and an append begins on connection 1.
fn reopen(rt: &impl Abort, alloc: Global, book: &mut Book) -> Result<(), Fail> {
    let mut last = packet(alloc, 1, 600, b"", b"")?;
    last.last = true;
    grow(rt, book, ConnId(0), &last);
    let append = Event::Append {
        conn: ConnId(1),
        named: Stamp(1001),
        new: Stamp(1002),
        length: 600,
    };
    assert!(rt; book.setup(&append).is_ok());
    Ok(())
}

#[test]
fn an_append_fills_the_last_chunk_first(rt: HostRuntime) -> Result<(), Fail> {
    let bytes = pattern(rt.alloc(), 1600)?;
    let mut book = with_600(&rt, rt.alloc(), &bytes)?;
    reopen(&rt, rt.alloc(), &mut book)?;
    let rest = packet(
        rt.alloc(),
        0,
        600,
        b"\xff\xfc\x14\x2a",
        part(&bytes, 600, 1024)?,
    )?;
    grow(&rt, &mut book, ConnId(1), &rest);
    let sums = b"\x69\x0e\x2d\x17\x5c\xfd\xfa\xc8";
    let more = packet(rt.alloc(), 1, 1024, sums, part(&bytes, 1024, 1600)?)?;
    grow(&rt, &mut book, ConnId(1), &more);
    let sums = sums_of(rt.alloc(), book, Stamp(1002))?;
    let all = b"\x30\x9c\x86\x81\x33\x88\xa5\x98\x69\x0e\x2d\x17\x5c\xfd\xfa\xc8";
    assert_eq!(rt; sums.as_slice(), all.as_slice());
    Ok(())
}
