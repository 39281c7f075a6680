//! What scans find where the power was lost after an hsync.

use crate::helpers::{bytes_between, fill};
use bytes::Bytes;
use fault_ports::LossyFiles;
use hd_base::{BlockId, ConnId, FileError, Files, Shelf, Stamp, SumRule};
use mem_ports::MemShelf;
use packet_codec::Packet;
use replica_core::Event;
use replica_files::ReplicaBook;
use restart_scan::scan;
use std::alloc::{AllocError, Global};
use std::process::Abort;
use std::test::Fail;

const BLOCK: BlockId = BlockId(7);

const CONN: ConnId = ConnId(0);

/// How many losses are drawn.
const LOSSES: u32 = 64;

/// A packet of the block's stream, whose byte at each place of the block is the place modulo 251.
struct Part {
    seqno: i64,
    from: usize,
    to: usize,
    sums: &'static [u8],
    sync: bool,
}

/// The 1,300 bytes that the hsync waits for, and 500 more, from the chunk on that they fill.
const PARTS: [Part; 3] = [
    Part {
        seqno: 0,
        from: 0,
        to: 1300,
        sums: b"\x30\x9c\x86\x81\x33\x88\xa5\x98\xda\x0d\xcd\xd9",
        sync: true,
    },
    Part {
        seqno: 1,
        from: 1024,
        to: 1536,
        sums: b"\x69\x0e\x2d\x17",
        sync: false,
    },
    Part {
        seqno: 2,
        from: 1536,
        to: 1800,
        sums: b"\x09\x95\x1b\xfc",
        sync: false,
    },
];

/// The packet.
fn packet(alloc: Global, part: &Part) -> Result<Packet, AllocError> {
    let body = bytes_between(alloc, part.from, part.to)?;
    Ok(Packet {
        offset: i64::try_from(part.from).unwrap_or(0),
        seqno: part.seqno,
        last: false,
        sync: part.sync,
        sums: Bytes::copy_from_slice(alloc, part.sums)?,
        body: Bytes::copy_from_slice(alloc, body.as_slice())?,
    })
}

/// The files of the block once all packets were taken.
fn written(rt: &impl Abort, alloc: Global) -> Result<LossyFiles, Fail> {
    let Ok(mut book) = ReplicaBook::new(alloc, BLOCK, LossyFiles::new(alloc)?) else {
        return Err(Fail::new("no book"));
    };
    let create = Event::Create {
        conn: CONN,
        stamp: Stamp(1001),
        sums: SumRule::default(),
    };
    assert!(rt; book.setup(&create).is_ok());
    for part in &PARTS {
        let packet = packet(alloc, part)?;
        assert!(rt; !book.replica().is_full());
        assert!(rt; book.packet(CONN, &packet).is_ok());
    }
    Ok(book.close_book().0)
}

/// Puts copies of the files on a shelf.
fn put_all<S: Shelf>(
    alloc: Global,
    files: &mut LossyFiles,
    shelf: &mut S,
) -> Result<(), FileError> {
    let mut drawer = shelf.lend(alloc, BLOCK)?;
    for name in files.names(alloc)?.as_slice() {
        let mut bytes = vec![in alloc; 0; files.length(name)? as usize]?;
        files.read_at(name, 0, &mut bytes)?;
        fill(alloc, &mut drawer, name, &bytes)?;
    }
    shelf.give_back(BLOCK, drawer);
    Ok(())
}

#[test]
fn whole_chunks_of_an_hsync_are_found(rt: HostRuntime) -> Result<(), Fail> {
    let alloc = rt.alloc();
    for word in 0..LOSSES {
        let mut files = written(&rt, alloc)?;
        files.lose(word.wrapping_mul(0x9e37_79b9))?;
        let mut shelf = MemShelf::new(alloc, &[])?;
        assert_eq!(rt; put_all(alloc, &mut files, &mut shelf), Ok(()));
        let Ok(found) = scan(alloc, &mut shelf) else {
            return Err(Fail::new("scan"));
        };
        assert_eq!(rt; found.replicas.len(), 1);
        assert!(rt; found.replicas[0].length >= 1024);
    }
    Ok(())
}
