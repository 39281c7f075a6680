//! Reads that are waited for, over connections that hold the answers ready.

use crate::helpers::{POOL, bytes_of, holding, listened, pass, read, served_text};
use op_headers::ReadOp;
use std::alloc::Global;
use std::process::Abort;
use std::sync::Wait;
use visible_read::{ReadFault, fits_request, read_back};

/// CHECKSUM_OK as it is written.
const CHECKSUM_OK: &[u8] = b"\x02\x08\x06";

/// The same bytes, of which the one at this place differs.
fn turned(mut bytes: Vec<u8>, place: usize) -> Vec<u8> {
    if place < bytes.len() {
        bytes[place] ^= 1;
    }
    bytes
}

/// What a read gives to whom the node sends its answers so, and what the reader sent.
fn run(
    rt: &(impl Abort + Wait),
    alloc: Global,
    op: &ReadOp,
    change: Option<usize>,
) -> (Result<Vec<u8>, ReadFault>, Vec<u8>) {
    let (mut roads, port) = listened(rt, alloc);
    let mut text = served_text(rt, alloc, &mut roads, port, op);
    if let Some(place) = change {
        text = turned(text, place);
    }
    let mut end = holding(rt, alloc, &mut roads, port, &text);
    let fits = fits_request(alloc, op).expect(rt, "memory");
    assert!(rt; fits);
    let result = read_back(rt, alloc, &mut end, op);
    pass(rt, alloc, &mut roads, &mut end, false);
    let sent = roads
        .carried_bytes(alloc, end.id, true)
        .expect(rt, "memory");
    (result, sent)
}

/// The bytes come back, and the reader has sent CHECKSUM_OK.
#[test]
fn a_read_is_read_back(rt: HostRuntime) {
    let alloc = rt.alloc();
    let op = read(&rt, alloc, POOL, 100, 10);
    let (result, sent) = run(&rt, alloc, &op, None);
    let bytes = result.ok().expect(&rt, "bytes");
    assert_eq!(rt; bytes.as_slice(), bytes_of(&rt, alloc, 100, 10).as_slice());
    assert!(rt; sent.ends_with(CHECKSUM_OK));
}

/// A byte of the packet's body that differs is found by its chunk's sum, and CHECKSUM_OK isn't sent.
#[test]
fn a_wrong_sum_is_found(rt: HostRuntime) {
    let alloc = rt.alloc();
    let op = read(&rt, alloc, POOL, 100, 10);
    let (result, sent) = run(&rt, alloc, &op, Some(100));
    assert!(rt; matches!(result, Err(ReadFault::BadSum { chunk: 0 })));
    assert!(rt; !sent.ends_with(CHECKSUM_OK));
}
