//! What a node does on roads in memory.

ghost use Rattle.hd_base.specs.Ends.{IsKnown};
ghost use Rattle.block_recovery.specs.Dialling.{KeepsKnown};

use hd_base::{Conn, LinkOut, Roads};
use mem_ports::{MemIn, MemOut, MemRoads};
use std::alloc::Global;
use std::process::Abort;

/// An end of a connection.
pub(crate) type End = Conn<MemIn, MemOut>;

/// The lower end of the dial that waits at a port.
pub(crate) fn accepted(rt: &impl Abort, alloc: Global, roads: &mut MemRoads, port: u16) -> End
    ensures kept { KeepsKnown (⟦<MemRoads as Roads>⟧.plain roads.old) (⟦<MemRoads as Roads>⟧.plain roads.new) }
{
    match roads.accept(alloc, port) {
        Ok(Some(end)) => end,
        _ => panic!(rt; "a dial"),
    }
}

/// Exchanges an end.
pub(crate) fn pass(rt: &impl Abort, alloc: Global, roads: &mut MemRoads, end: &mut End, take: bool)
    ensures kept { KeepsKnown (⟦<MemRoads as Roads>⟧.plain roads.old) (⟦<MemRoads as Roads>⟧.plain roads.new) }
{
    assert!(rt; roads.knows(end.id));
    roads.exchange(alloc, end, take).expect(rt, "an exchange");
}

/// Sends these bytes on the end.
pub(crate) fn send(rt: &impl Abort, alloc: Global, end: &mut End, text: &[u8]) {
    end.outward
        .room(alloc, text.len() as u64)
        .expect(rt, "memory");
    end.outward.send(text).expect(rt, "a link");
}
