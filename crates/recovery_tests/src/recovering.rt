//! A recovery without a pause.

use crate::ready::ReadyRoads;
use block_recovery::recover;
use hd_base::{BlockId, Members, NodeId, Stamp};
use mem_ports::MemRoads;
use name_core::{OfficeBook, OfficeFault};
use recovery_core::Recovered;
use std::process::Abort;

pub(crate) const BLOCK: BlockId = BlockId(1_073_741_825);

/// Node 1 alone.
pub(crate) fn member(rt: &impl Abort) -> Members {
    Members::new(&[NodeId(1)]).expect(rt, "members")
}

/// Whether a recovery was committed under this id, at this length.
pub(crate) fn is_done(recovered: &Recovered, id: Stamp, length: u64) -> bool {
    match recovered {
        Recovered::Done {
            id: given,
            length: kept,
            ..
        } => given.0 == id.0 && *kept == length,
        _ => false,
    }
}

#[test]
fn nothing_is_recovered_where_nobody_listens(rt: HostRuntime) {
    let alloc = rt.alloc();
    let members = member(&rt);
    let mut office = OfficeBook::new(alloc).expect(&rt, "memory");
    office.create(BLOCK, &members).expect(&rt, "a block");
    let mut roads = MemRoads::new(alloc, &[]).expect(&rt, "memory");
    let recovered = recover(&rt, alloc, BLOCK, &members, &mut office, &mut roads);
    assert!(rt; matches!(recovered, Recovered::Nothing));
}

#[test]
fn a_block_that_is_not_known_is_refused(rt: HostRuntime) {
    let alloc = rt.alloc();
    let members = member(&rt);
    let mut office = OfficeBook::new(alloc).expect(&rt, "memory");
    let mut roads = MemRoads::new(alloc, &[]).expect(&rt, "memory");
    let recovered = recover(&rt, alloc, BLOCK, &members, &mut office, &mut roads);
    assert!(rt; matches!(recovered, Recovered::OfficeRefused(OfficeFault::Unknown)));
}

/// Two members have nine bytes of the block each, and answer: both are committed under the recovery's id. Each was sent an
/// INIT and an UPDATE, and both connections are given up.
#[test]
fn two_members_that_answer_are_recovered(rt: HostRuntime) {
    let alloc = rt.alloc();
    let nodes = [NodeId(0), NodeId(1)];
    let members = Members::new(&nodes).expect(&rt, "members");
    let mut office = OfficeBook::new(alloc).expect(&rt, "memory");
    office.create(BLOCK, &members).expect(&rt, "a block");
    let mut roads = ReadyRoads {
        dialled: 0,
        back: 0,
        pieces: 0,
    };
    let recovered = recover(&rt, alloc, BLOCK, &members, &mut office, &mut roads);
    let done = Recovered::Done {
        id: Stamp(1002),
        length: 9,
        members,
    };
    assert_eq!(rt; recovered, done);
    assert_eq!(rt; roads.dialled, 2);
    assert_eq!(rt; roads.back, 2);
    assert_eq!(rt; roads.pieces, 4);
}
