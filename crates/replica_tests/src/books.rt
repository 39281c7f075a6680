//! A block's life in its book.

use crate::helpers::{BLOCK, Book, new_book, packet, receipt, take};
use fault_ports::Keep;
use hd_base::{ConnId, Files, ReplicaState, Stamp, SumKind, SumRule};
use meta_file::{Folder, data_name, meta_name};
use replica_core::Event;
use replica_files::ReplicaBook;
use std::alloc::Global;
use std::process::Abort;
use std::test::Fail;

/// The bytes of the block.
const NINE: &[u8] = b"123456789";

/// A book whose block was made and got nine acked bytes on connection 0.
fn written(rt: &impl Abort, alloc: Global) -> Result<Book, Fail> {
    let mut book = new_book(alloc, u64::MAX, Keep::All)?;
    let create = Event::Create {
        conn: ConnId(0),
        stamp: Stamp(1001),
        sums: SumRule::new(SumKind::Crc32c, 16).ok_or("a rule")?,
    };
    assert_eq!(rt; book.setup(&create), Ok(receipt(0)));
    let packet = packet(alloc, 0, 0, b"\xe3\x06\x92\x83", NINE)?;
    assert_eq!(rt; take(&mut book, ConnId(0), &packet), Ok(receipt(1)));
    assert_eq!(rt; book.ack(ConnId(0), 0, true), Ok(receipt(2)));
    Ok(book)
}

/// Closes a book whose replica was finalized, and finds the replica again.
fn found_again(alloc: Global, book: Book) -> Result<Book, Fail> {
    let Some(info) = book.replica().info() else {
        return Err(Fail::new("no replica"));
    };
    let ReplicaState::Finalized = info.original else {
        return Err(Fail::new("not finalized"));
    };
    if book.replica().is_broken() {
        return Err(Fail::new("a broken replica"));
    }
    let block = book.replica().block();
    let (drawer, _) = book.close_book();
    match ReplicaBook::found(alloc, block, info.original, info.stamp, info.sums, drawer) {
        Ok(book) => Ok(book),
        Err(_) => Err(Fail::new("no book")),
    }
}

#[test]
fn a_block_is_written_and_read(rt: HostRuntime) -> Result<(), Fail> {
    let mut book = written(&rt, rt.alloc())?;
    let mut bytes = Vec::new(rt.alloc());
    assert_eq!(rt; book.read(Stamp(1001), 3, 4, &mut bytes), Ok(receipt(3)));
    assert_eq!(rt; bytes.as_slice(), b"4567".as_slice());
    assert_eq!(rt; book.give(Stamp(1001), 8, 1, &mut bytes), Ok(receipt(4)));
    assert_eq!(rt; bytes.as_slice(), b"9".as_slice());
    assert_eq!(rt; book.ended(ConnId(0)), Ok(receipt(5)));
    assert_eq!(rt; book.entries(), 6);
    Ok(())
}

#[test]
fn a_block_is_recovered_and_found(rt: HostRuntime) -> Result<(), Fail> {
    let mut book = written(&rt, rt.alloc())?;
    let info = (ReplicaState::Rbw, Stamp(1001), 9);
    assert_eq!(rt; book.init(Stamp(1001), Stamp(1002)), Ok((info, receipt(3))));
    assert_eq!(rt; book.update(Stamp(1002), 4), Ok(receipt(4)));
    let mut book = found_again(rt.alloc(), book)?;
    let mut bytes = Vec::new(rt.alloc());
    assert_eq!(rt; book.read(Stamp(1002), 0, 4, &mut bytes), Ok(receipt(0)));
    assert_eq!(rt; bytes.as_slice(), b"1234".as_slice());
    let (drawer, _) = book.close_book();
    let mut files = drawer.into_inner();
    let mut data = [0; 5];
    let name = data_name(BLOCK, Folder::Finalized);
    assert_eq!(rt; files.read_at(&name, 0, &mut data), Ok(4));
    assert_eq!(rt; data, *b"1234\0");
    let mut sum = [0; 5];
    let name = meta_name(BLOCK, Stamp(1002), Folder::Finalized);
    assert_eq!(rt; files.read_at(&name, 7, &mut sum), Ok(4));
    assert_eq!(rt; sum, *b"\xf6\x3a\xf4\xee\0");
    Ok(())
}
