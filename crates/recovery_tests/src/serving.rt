//! What a member answers to a step of a recovery.

use block_recovery::{RecoveryServed, answer_recovery};
use hd_base::{BlockId, ByteList, FileError, Shelf, Stamp, Status};
use mem_ports::{MemDrawer, MemShelf};
use op_headers::{BlockRef, RecoveryAnswer, RecoveryKind, RecoveryOp, Targets};
use replica_files::ReplicaBook;
use std::alloc::Global;
use std::process::Abort;

const BLOCK: BlockId = BlockId(1_073_741_825);

/// The book of the block, of which there is no replica.
pub(crate) fn absent(alloc: Global) -> Result<ReplicaBook<MemDrawer>, FileError> {
    let mut shelf = MemShelf::new(alloc, &[])?;
    let drawer = shelf.lend(alloc, BLOCK)?;
    ReplicaBook::new(alloc, BLOCK, drawer)
        .ok()
        .ok_or(FileError::Memory)
}

/// A step of this kind and recovery, for the block in this pool.
pub(crate) fn step(
    rt: &impl Abort,
    alloc: Global,
    kind: RecoveryKind,
    recovery: Stamp,
    pool: &[u8],
) -> RecoveryOp {
    RecoveryOp {
        kind,
        block: BlockRef {
            pool: ByteList::from_slice(alloc, pool).expect(rt, "memory"),
            block: BLOCK,
            stamp: Stamp(1001),
            bytes: 0,
        },
        recovery,
        new_length: 0,
        targets: Targets::new(alloc),
    }
}

/// Whether an answer is ERROR with this message.
fn refuses(answer: &RecoveryAnswer, message: &[u8]) -> bool {
    matches!(answer.status, Status::Error) && answer.message.as_slice() == message
}

/// Whether nothing was booked, and the answer is ERROR with this message.
fn unbooked(served: &RecoveryServed, message: &[u8]) -> bool {
    match served {
        RecoveryServed::Unbooked(answer) => refuses(answer, message),
        _ => false,
    }
}

/// Whether it was booked, and the answer is ERROR with this message.
fn booked(served: &RecoveryServed, message: &[u8]) -> bool {
    match served {
        RecoveryServed::Answered(answer, _) => refuses(answer, message),
        _ => false,
    }
}

pub(crate) const POOL: &[u8] = b"BP-1-127.0.0.1-1";

#[test]
fn another_pool_is_refused(rt: HostRuntime) {
    let alloc = rt.alloc();
    let mut book = absent(alloc).expect(&rt, "a book");
    let op = step(&rt, alloc, RecoveryKind::Init, Stamp(1002), b"BP-2");
    assert!(rt; unbooked(&answer_recovery(alloc, &mut book, &op), b"15"));
}

#[test]
fn no_recovery_has_the_id_0(rt: HostRuntime) {
    let alloc = rt.alloc();
    let mut book = absent(alloc).expect(&rt, "a book");
    let op = step(&rt, alloc, RecoveryKind::Init, Stamp(0), POOL);
    assert!(rt; unbooked(&answer_recovery(alloc, &mut book, &op), b"4 0 0 0"));
}

#[test]
fn a_node_takes_no_begin(rt: HostRuntime) {
    let alloc = rt.alloc();
    let mut book = absent(alloc).expect(&rt, "a book");
    let op = step(&rt, alloc, RecoveryKind::Begin, Stamp(1002), POOL);
    assert!(rt; unbooked(&answer_recovery(alloc, &mut book, &op), b""));
}

#[test]
fn an_absent_replica_refuses(rt: HostRuntime) {
    let alloc = rt.alloc();
    let mut book = absent(alloc).expect(&rt, "a book");
    let op = step(&rt, alloc, RecoveryKind::Init, Stamp(1002), POOL);
    assert!(rt; booked(&answer_recovery(alloc, &mut book, &op), b"1"));
    assert!(rt; book.entries() == 1);
}
