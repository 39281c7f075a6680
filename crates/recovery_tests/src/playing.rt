//! The events of a node's part of a recovery, over files and roads in memory.

use crate::roads::{End, accepted, pass};
use crate::serving::{POOL, absent, step};
use hd_base::{Got, LinkIn, LinkOut, NodeId, Roads, Stamp};
use link_messages::Incoming;
use mem_ports::{MemIn, MemOut, MemRoads};
use op_headers::RecoveryKind;
use recovery_events::{Outcome, Recovering, recover_down, recover_request};

/// ERROR, with the number of the refusal that there is no replica.
const REFUSED: &[u8] = b"\x05\x08\x01\x12\x011";

/// Whether these bytes are what an end holds.
fn holds(end: &mut End, text: &[u8]) -> bool {
    let mut room = [0; 64];
    match end.inward.recv(&mut room) {
        Ok(Got::Bytes(count)) => &room[..count] == text,
        _ => false,
    }
}

/// An absent replica refuses the first request, and the end goes on until the other side ends.
#[test]
fn an_end_answers_until_the_other_one_is_shut(rt: HostRuntime) {
    let alloc = rt.alloc();
    let mut roads = MemRoads::new(alloc, &[]).expect(&rt, "memory");
    let port = roads.listen(alloc, NodeId(1)).expect(&rt, "a port");
    let mut upper = roads.dial(alloc, port).expect(&rt, "a dial");
    let lower = accepted(&rt, alloc, &mut roads, port);
    let mut book = absent(alloc).expect(&rt, "a book");
    let incoming = Incoming::new(alloc).expect(&rt, "memory");
    let op = step(&rt, alloc, RecoveryKind::Init, Stamp(1002), POOL);
    assert!(rt; roads.knows(lower.id));
    let made = recover_request(alloc, &mut roads, &mut book, lower, incoming, op);
    let left: Recovering<MemIn, MemOut> = match made {
        Ok(Outcome::Done(left)) => left,
        _ => panic!(rt; "an answer"),
    };
    assert!(rt; book.entries() == 1);
    pass(&rt, alloc, &mut roads, &mut upper, true);
    assert!(rt; holds(&mut upper, REFUSED));
    upper.outward.shut();
    pass(&rt, alloc, &mut roads, &mut upper, false);
    assert!(rt; roads.knows(left.end.id));
    let ended = recover_down(alloc, &mut roads, &mut book, left);
    assert!(rt; matches!(ended, Ok(Outcome::Done(None))));
}
