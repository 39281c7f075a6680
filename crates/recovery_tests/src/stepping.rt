//! A recovery step by step, over roads in memory.

ghost use Rattle.block_recovery.specs.Dialling.{KeepsKnown};

use crate::recovering::{BLOCK, is_done, member};
use crate::roads::{End, accepted, pass, send};
use crate::serving::absent;
use block_recovery::{
    Primary, PrimaryStep, RecoveryCame, RecoveryServed, RecoveryTold, next_recovery, serve_recovery,
};
use hd_base::{ConnId, NodeId, Roads, Stamp};
use link_messages::Incoming;
use mem_ports::{MemIn, MemOut, MemRoads};
use name_core::OfficeBook;
use primary_events::{PrimaryBegun, PrimaryFault, begin, hear, lead};
use recovery_core::Recovered;
use std::alloc::Global;
use std::process::Abort;

/// SUCCESS, with a replica that is being written, under the stamp 1001, of 9 bytes.
const INFORMED: &[u8] = b"\x09\x08\x00\x18\x01\x20\xe9\x07\x28\x09";

/// SUCCESS.
const UPDATED: &[u8] = b"\x02\x08\x00";

/// The connection to the member.
const CONN: Option<ConnId> = Some(ConnId(0));

/// The office of the block.
fn office(rt: &impl Abort, alloc: Global) -> OfficeBook {
    let mut office = OfficeBook::new(alloc).expect(rt, "memory");
    office.create(BLOCK, &member(rt)).expect(rt, "a block");
    office
}

/// The node accepts the dial at this port, and answers an INIT and an UPDATE.
fn answer(rt: &impl Abort, alloc: Global, roads: &mut MemRoads, port: u16)
    ensures { KeepsKnown (⟦<MemRoads as Roads>⟧.plain roads.old) (⟦<MemRoads as Roads>⟧.plain roads.new) }
{
    let mut end = accepted(rt, alloc, roads, port);
    send(rt, alloc, &mut end, INFORMED);
    send(rt, alloc, &mut end, UPDATED);
    pass(rt, alloc, roads, &mut end, false);
}

#[test]
fn the_member_that_was_updated_is_committed(rt: HostRuntime) {
    let alloc = rt.alloc();
    let mut office = office(&rt, alloc);
    let mut roads = MemRoads::new(alloc, &[]).expect(&rt, "memory");
    let port = roads.listen(alloc, NodeId(1)).expect(&rt, "a port");
    let members = member(&rt);
    let mut primary: Primary<MemIn, MemOut> = Primary::new(alloc, BLOCK, &members).expect(
        &rt, "memory",
    );
    let begun = primary.step(alloc, &mut office, &mut roads);
    assert!(rt; matches!(begun, PrimaryStep::Moved));
    let waits = primary.step(alloc, &mut office, &mut roads);
    assert!(rt; matches!(waits, PrimaryStep::Waiting));
    answer(&rt, alloc, &mut roads, port);
    primary
        .exchange(alloc, &mut roads, CONN)
        .expect(&rt, "an exchange");
    let heard = primary.step(alloc, &mut office, &mut roads);
    assert!(rt; matches!(heard, PrimaryStep::Moved));
    let chosen = primary.step(alloc, &mut office, &mut roads);
    assert!(rt; matches!(chosen, PrimaryStep::Moved));
    primary
        .exchange(alloc, &mut roads, CONN)
        .expect(&rt, "an exchange");
    let updated = primary.step(alloc, &mut office, &mut roads);
    assert!(rt; matches!(updated, PrimaryStep::Moved));
    match primary.step(alloc, &mut office, &mut roads) {
        PrimaryStep::Ended(recovered) => assert!(rt; is_done(&recovered, Stamp(1002), 9)),
        _ => panic!(rt; "it is over"),
    }
    assert!(rt; !primary.has_lost(0));
}

/// The node takes the request at this lower end, and answers for a replica that is absent.
fn serve(rt: &impl Abort, alloc: Global, roads: &mut MemRoads, end: End)
    ensures { KeepsKnown (⟦<MemRoads as Roads>⟧.plain roads.old) (⟦<MemRoads as Roads>⟧.plain roads.new) }
{
    let mut end = end;
    pass(rt, alloc, roads, &mut end, true);
    let mut incoming = Incoming::new(alloc).expect(rt, "memory");
    let RecoveryCame::Asked(op) = next_recovery(&mut incoming, &mut end) else {
        panic!(rt; "a request")
    };
    let mut book = absent(alloc).expect(rt, "a book");
    let told = serve_recovery(alloc, &mut book, &op, &mut end.outward);
    assert!(rt; matches!(told, RecoveryTold::Sent(RecoveryServed::Answered(..))));
    pass(rt, alloc, roads, &mut end, false);
}

#[test]
fn a_member_without_a_replica_is_heard(rt: HostRuntime) {
    let alloc = rt.alloc();
    let mut office = office(&rt, alloc);
    let mut roads = MemRoads::new(alloc, &[]).expect(&rt, "memory");
    let port = roads.listen(alloc, NodeId(1)).expect(&rt, "a port");
    let members = member(&rt);
    let mut primary: Primary<MemIn, MemOut> = Primary::new(alloc, BLOCK, &members).expect(
        &rt, "memory",
    );
    let begun = primary.step(alloc, &mut office, &mut roads);
    assert!(rt; matches!(begun, PrimaryStep::Moved));
    primary
        .exchange(alloc, &mut roads, None)
        .expect(&rt, "an exchange");
    let end = accepted(&rt, alloc, &mut roads, port);
    serve(&rt, alloc, &mut roads, end);
    primary
        .exchange(alloc, &mut roads, CONN)
        .expect(&rt, "an exchange");
    let heard = primary.step(alloc, &mut office, &mut roads);
    assert!(rt; matches!(heard, PrimaryStep::Moved));
    let ended = primary.step(alloc, &mut office, &mut roads);
    assert!(rt; matches!(ended, PrimaryStep::Ended(Recovered::Nothing)));
}

/// The lower end of the connection to the one member, of a primary that leads.
fn lower_of(rt: &impl Abort, begun: Result<PrimaryBegun<MemIn, MemOut>, PrimaryFault>) -> End {
    let Ok(PrimaryBegun::Leads(lowers)) = begun else {
        panic!(rt; "it leads")
    };
    let mut lowers = lowers;
    match lowers.pop() {
        Some(Some(end)) => end,
        _ => panic!(rt; "a lower end"),
    }
}

#[test]
fn a_member_is_heard_in_a_play(rt: HostRuntime) {
    let alloc = rt.alloc();
    let mut office = office(&rt, alloc);
    let mut roads = MemRoads::new(alloc, &[]).expect(&rt, "memory");
    roads.listen(alloc, NodeId(1)).expect(&rt, "a port");
    let members = member(&rt);
    let mut primary: Primary<MemIn, MemOut> = Primary::new(alloc, BLOCK, &members).expect(
        &rt, "memory",
    );
    let begun = begin(alloc, &mut office, &mut roads, &mut primary);
    serve(&rt, alloc, &mut roads, lower_of(&rt, begun));
    assert!(rt; hear(alloc, &mut roads, &mut primary, 0).is_ok());
    let ended = lead(alloc, &mut office, &mut roads, &mut primary);
    assert!(rt; matches!(ended, Ok(PrimaryStep::Ended(Recovered::Nothing))));
}
