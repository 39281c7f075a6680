//! Reads of a replica of which 300 bytes are visible and 900 written, and of one that waits for a block recovery.

use crate::helpers::{End, POOL, bytes_of, joined, listened, pass, read, restarted, step, written};
use chunk_sums::crc;
use hd_base::{ReplicaState, SumKind};
use mem_ports::{MemIn, MemOut};
use op_headers::ReadOp;
use replica_core::Refusal;
use std::alloc::Global;
use std::process::Abort;
use visible_read::{ReadFault, ReadStep, Reading, Served, fits_request, serve_read};

/// The answer to a read of sums over 512 bytes, whose packets begin at 0.
const ANSWER: &[u8] = b"\x0d\x08\0\x22\x09\x0a\x05\x08\x02\x10\x80\x04\x10\0";

/// What stands before the sum and the 300 bytes of the first packet.
const HEADER: &[u8] =
    b"\0\0\x01\x34\0\x19\x09\0\0\0\0\0\0\0\0\x11\0\0\0\0\0\0\0\0\x18\0\x25\x2c\x01\0\0";

/// The empty last packet, at 300.
const EMPTY: &[u8] =
    b"\0\0\0\x04\0\x19\x09\x2c\x01\0\0\0\0\0\0\x11\x01\0\0\0\0\0\0\0\x18\x01\x25\0\0\0\0";

/// The answer that refuses a read by the state of a replica that waits for a block recovery.
const WAITING: &[u8] = b"\x09\x08\x01\x12\0\x2a\x033 2";

/// A read of which nothing was done.
fn begun(rt: &impl Abort, alloc: Global, end: End, op: ReadOp) -> Reading<MemIn, MemOut> {
    let fits = fits_request(alloc, &op).expect(rt, "memory");
    assert!(rt; fits);
    Reading::new(alloc, end, op).ok().expect(rt, "memory")
}

/// How a read of this pool ends at the node and at the reader, and what the node sent and then the reader sent.
fn run(
    rt: &impl Abort,
    alloc: Global,
    pool: &[u8],
    offset: u64,
    len: u64,
) -> (Served, ReadStep, Vec<u8>, Vec<u8>) {
    let mut book = written(rt, alloc);
    let (mut roads, port) = listened(rt, alloc);
    let (upper, mut lower) = joined(rt, alloc, &mut roads, port);
    let conn = upper.id;
    let mut reading = begun(rt, alloc, upper, read(rt, alloc, pool, offset, len));
    let asked = step(rt, alloc, &mut roads, &mut reading);
    assert!(rt; matches!(asked, ReadStep::Moved));
    let idle = step(rt, alloc, &mut roads, &mut reading);
    assert!(rt; matches!(idle, ReadStep::Waiting));
    let request = roads
        .carried_bytes(alloc, conn, true)
        .expect(rt, "memory")
        .len();
    let op = read(rt, alloc, pool, offset, len);
    let served = serve_read(alloc, &mut book, &op, &mut lower.outward);
    pass(rt, alloc, &mut roads, &mut lower, true);
    let mut last = ReadStep::Waiting;
    for _ in 0..5 {
        last = step(rt, alloc, &mut roads, &mut reading);
        if matches!(last, ReadStep::Ended(_)) {
            break;
        }
    }
    assert!(rt; !reading.is_open());
    let sent = roads.carried_bytes(alloc, conn, false).expect(rt, "memory");
    let told = roads.carried_bytes(alloc, conn, true).expect(rt, "memory");
    let behind = request.min(told.len());
    let status = Vec::from_slice(alloc, told.split_at(behind).1).expect(rt, "memory");
    assert!(rt; roads.knows(reading.conn()));
    reading.retire(alloc, &mut roads).expect(rt, "memory");
    (served, last, sent, status)
}

/// The answer, one packet of the visible bytes, and the empty last one; the reader has its ten bytes.
#[test]
fn a_read_is_served_and_verified(rt: HostRuntime) {
    let alloc = rt.alloc();
    let (served, last, sent, status) = run(&rt, alloc, POOL, 100, 10);
    assert_eq!(rt; served, Served::Sent { packets: 2 });
    let ReadStep::Ended(Ok(bytes)) = last else {
        panic!(rt; "bytes");
    };
    assert_eq!(rt; bytes.as_slice(), bytes_of(&rt, alloc, 100, 10).as_slice());
    let body = bytes_of(&rt, alloc, 0, 300);
    let sum = crc(SumKind::Crc32c, &body).to_be_bytes();
    let mut text = Vec::from_slice(alloc, ANSWER).expect(&rt, "memory");
    text.extend_from_slice(HEADER).expect(&rt, "memory");
    text.extend_from_slice(&sum).expect(&rt, "memory");
    text.extend_from_slice(&body).expect(&rt, "memory");
    text.extend_from_slice(EMPTY).expect(&rt, "memory");
    assert_eq!(rt; sent.as_slice(), text.as_slice());
    assert_eq!(rt; status.as_slice(), b"\x02\x08\x06".as_slice());
}

/// A read past the visible length is refused, and the reader is told so.
#[test]
fn a_read_past_the_visible_length_is_refused(rt: HostRuntime) {
    let alloc = rt.alloc();
    let (served, last, _, status) = run(&rt, alloc, POOL, 0, 301);
    assert_eq!(rt;
        served,
        Served::Refused(Refusal::OutOfRange { visible: 300 })
    );
    let ReadStep::Ended(Err(ReadFault::Refused { message })) = last else {
        panic!(rt; "a refusal");
    };
    assert_eq!(rt; message.as_slice(), b"13 300".as_slice());
    assert!(rt; status.is_empty());
}

/// A read of another pool is refused before the replica is asked.
#[test]
fn a_read_of_another_pool_is_refused(rt: HostRuntime) {
    let alloc = rt.alloc();
    let (served, last, _, _) = run(&rt, alloc, b"BP-2", 0, 1);
    assert_eq!(rt; served, Served::Pool);
    let ReadStep::Ended(Err(ReadFault::Refused { message })) = last else {
        panic!(rt; "a refusal");
    };
    assert_eq!(rt; message.as_slice(), b"15".as_slice());
}

/// Nothing is visible of a replica that waits for a block recovery: its node refuses the read, and says in which state it is.
#[test]
fn a_replica_that_waits_for_recovery_is_not_read(rt: HostRuntime) {
    let alloc = rt.alloc();
    let mut book = restarted(&rt, alloc, written(&rt, alloc));
    let (mut roads, port) = listened(&rt, alloc);
    let (upper, mut lower) = joined(&rt, alloc, &mut roads, port);
    let op = read(&rt, alloc, POOL, 100, 10);
    let served = serve_read(alloc, &mut book, &op, &mut lower.outward);
    let state = ReplicaState::Rwr;
    assert_eq!(rt; served, Served::Refused(Refusal::WrongState { state }));
    pass(&rt, alloc, &mut roads, &mut lower, false);
    let sent = roads
        .carried_bytes(alloc, upper.id, false)
        .expect(&rt, "memory");
    assert_eq!(rt; sent.as_slice(), WAITING);
}
