//! Acks at a member, over files and roads in memory.

ghost use Rattle.std.specs.Prelude.{All};
ghost use Rattle.hd_base.specs.Wire.{IsStatus};

use crate::helpers::{Book, CONN, carried, created, dialled, receipt};
use ack_codec::{Ack, Replies};
use bytes::Bytes;
use hd_base::{Stamp, Status};
use mem_ports::MemOut;
use packet_codec::Packet;
use packet_responder::{FromBelow, Passed, take_ack};
use std::alloc::{AllocError, Global};
use std::test::Fail;

/// The packet of the bytes `123456789`.
fn packet(alloc: Global) -> Result<Packet, AllocError> {
    Ok(Packet {
        offset: 0,
        seqno: 0,
        last: false,
        sync: false,
        sums: Bytes::copy_from_slice(alloc, b"\xe3\x06\x92\x83")?,
        body: Bytes::copy_from_slice(alloc, b"123456789")?,
    })
}

/// The ack of the packet with two SUCCESS.
fn ack() -> Ack
    ensures { All IsStatus result.replies }
{
    let mut replies = Replies::empty();
    replies.push(Status::Success);
    replies.push(Status::Success);
    Ack { seqno: 0, replies }
}

/// Books the packet.
fn put(alloc: Global, book: &mut Book) -> Result<(), Fail> {
    if book.replica().is_full() {
        return Err(Fail::new("room"));
    }
    book.packet(CONN, &packet(alloc)?)?;
    Ok(())
}

/// The middle one of three members takes an ack of its mirror.
fn take(alloc: Global, book: &mut Book, ack: Ack, upstream: &mut MemOut) -> Passed
    requires { All IsStatus ack.replies }
{
    take_ack(alloc, book, CONN, 2, FromBelow::Ack(ack), upstream)
}

/// A member in whose book nothing is pending tells of a wrong sum.
fn tell(alloc: Global, book: &mut Book, upstream: &mut MemOut) -> Result<Passed, Fail> {
    if book.replica().oldest().is_some() {
        return Err(Fail::new("nothing pending"));
    }
    let bad = FromBelow::Bad { seqno: 0 };
    Ok(take_ack(alloc, book, CONN, 1, bad, upstream))
}

#[test]
fn a_wrong_sum_is_told_of(rt: HostRuntime) -> Result<(), Fail> {
    let alloc = rt.alloc();
    let mut book = created(&rt, alloc, CONN, Stamp(1001), 512);
    let (roads, mut end) = dialled(alloc, &[])?;
    let passed = tell(alloc, &mut book, &mut end.outward)?;
    assert_eq!(rt; passed, Passed::Closed(receipt(1)));
    let carried = carried(alloc, roads, end)?;
    assert_eq!(rt; carried.as_slice(), b"\x04\x08\0\x10\x02".as_slice());
    Ok(())
}

/// The ack can't go up, and stays booked.
#[test]
fn an_ack_is_booked_where_the_link_fails(rt: HostRuntime) -> Result<(), Fail> {
    let alloc = rt.alloc();
    let mut book = created(&rt, alloc, CONN, Stamp(1001), 512);
    put(alloc, &mut book)?;
    let (_roads, mut end) = dialled(alloc, &[3])?;
    let passed = take(alloc, &mut book, ack(), &mut end.outward);
    assert_eq!(rt; passed, Passed::LinkFailed(receipt(2)));
    assert_eq!(rt; book.replica().acked(), 9);
    Ok(())
}
