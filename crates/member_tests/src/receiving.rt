//! A packet at a middle member, over files and roads in memory.

use crate::helpers::{Book, CONN, carried, created, dialled, receipt};
use block_receiver::{Taken, take_packet};
use bytes::Bytes;
use hd_base::Stamp;
use mem_ports::MemOut;
use packet_codec::Packet;
use replica_core::Refusal;
use std::alloc::{AllocError, Global};
use std::test::Fail;

/// The sums of five chunks of 32 zero bytes.
const SUMS: &[u8] =
    b"\x8a\x91\x36\xaa\x8a\x91\x36\xaa\x8a\x91\x36\xaa\x8a\x91\x36\xaa\x8a\x91\x36\xaa";

/// The same, but that of chunk 3.
const WRONG: &[u8] =
    b"\x8a\x91\x36\xaa\x8a\x91\x36\xaa\x8a\x91\x36\xaa\x8a\x91\x36\xab\x8a\x91\x36\xaa";

/// The lengths and the header of the packet.
const FRONT: &[u8] =
    b"\0\0\0\xb8\0\x19\x09\0\0\0\0\0\0\0\0\x11\0\0\0\0\0\0\0\0\x18\0\x25\xa0\0\0\0";

/// The packet of 160 zero bytes with these sums.
fn packet(alloc: Global, sums: &[u8]) -> Result<Packet, AllocError> {
    Ok(Packet {
        offset: 0,
        seqno: 0,
        last: false,
        sync: false,
        sums: Bytes::copy_from_slice(alloc, sums)?,
        body: Bytes::copy_from_slice(alloc, &[0; 160])?,
    })
}

/// The member takes the packet: the answer, and whether the packet is one that can be taken.
fn take(
    alloc: Global,
    book: &mut Book,
    packet: &Packet,
    mirror: &mut MemOut,
) -> Result<Taken, Fail> {
    if !packet.is_encodable() || book.replica().is_full() {
        return Err(Fail::new("a packet that can be taken"));
    }
    Ok(take_packet(alloc, book, CONN, packet, Some(mirror)))
}

#[test]
fn a_packet_goes_on_unless_a_sum_differs(rt: HostRuntime) -> Result<(), Fail> {
    let alloc = rt.alloc();
    let mut book = created(&rt, alloc, CONN, Stamp(1001), 32);
    let (roads, mut end) = dialled(alloc, &[])?;
    let taken = take(alloc, &mut book, &packet(alloc, WRONG)?, &mut end.outward)?;
    let refusal = Refusal::BadSum { chunk: 3 };
    assert_eq!(rt; taken, Taken::Refused(refusal, receipt(1)));
    assert_eq!(rt; book.replica().written(), 0);
    let taken = take(alloc, &mut book, &packet(alloc, SUMS)?, &mut end.outward)?;
    assert_eq!(rt; taken, Taken::Booked(receipt(2)));
    let carried = carried(alloc, roads, end)?;
    assert_eq!(rt; carried.len(), 211);
    assert!(rt; carried.starts_with(FRONT));
    Ok(())
}

/// The packet can't go on to the mirror, and stays booked.
#[test]
fn a_packet_is_booked_where_the_mirror_fails(rt: HostRuntime) -> Result<(), Fail> {
    let alloc = rt.alloc();
    let mut book = created(&rt, alloc, CONN, Stamp(1001), 32);
    let (_roads, mut end) = dialled(alloc, &[3])?;
    let taken = take(alloc, &mut book, &packet(alloc, SUMS)?, &mut end.outward)?;
    assert_eq!(rt; taken, Taken::MirrorFailed(receipt(1)));
    assert_eq!(rt; book.replica().written(), 160);
    Ok(())
}
