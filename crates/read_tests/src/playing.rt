//! The events of a reader, and of the node that serves it, over memory.

ghost use Rattle.std.specs.Prelude.{◌≡◌, true, is_some};

use crate::helpers::{BLOCK, Book, POOL, bytes_of, listened, read, written};
use hd_base::NodeId;
use mem_ports::{MemIn, MemOut, MemRoads};
use play_servers::{ReadEnd, ReadServer, ServerEvent};
use reader_events::{Asked, Heard, ask, hear};
use std::alloc::Global;
use std::process::Abort;
use visible_read::{Reading, fits_request};

/// A node's side of a reader's connection.
type Server = ReadServer<MemIn, MemOut>;

/// What is left of a read that goes on, once it has taken what stands next, and goes on still.
fn heard(
    rt: &impl Abort,
    alloc: Global,
    roads: &mut MemRoads,
    reading: Reading<MemIn, MemOut>,
) -> Reading<MemIn, MemOut>
    requires { is_some reading.talk.core ≡ true }
    ensures { is_some result.talk.core ≡ true }
{
    assert!(rt; roads.knows(reading.conn()));
    let Ok(Heard::Reading(reading)) = hear(alloc, roads, reading) else {
        panic!(rt; "the read is over");
    };
    reading
}

/// The node takes what stands next.
fn down(
    rt: &impl Abort,
    alloc: Global,
    roads: &mut MemRoads,
    server: &mut Server,
    books: &mut [Book],
) {
    let conn = server.open_conn().expect(rt, "an end");
    assert!(rt; roads.knows(conn));
    let taken = server.down(alloc, roads, &[BLOCK], books);
    assert!(rt; taken == Ok(ServerEvent::Done));
}

/// The node sends the next packet.
fn ready(
    rt: &impl Abort,
    alloc: Global,
    roads: &mut MemRoads,
    server: &mut Server,
    books: &mut [Book],
) {
    let conn = server.open_conn().expect(rt, "an end");
    assert!(rt; roads.knows(conn));
    let sent = server.ready(alloc, roads, books);
    assert!(rt; sent == Ok(ServerEvent::Done));
}

/// A reader takes the answer, a packet and the empty last one, and has the visible bytes; the node takes its status.
#[test]
fn a_reader_gets_the_visible_bytes(rt: HostRuntime) {
    let alloc = rt.alloc();
    let mut books = Vec::new(alloc);
    books.push(written(&rt, alloc)).ok().expect(&rt, "memory");
    let (mut roads, _) = listened(&rt, alloc);
    let op = read(&rt, alloc, POOL, 0, 300);
    assert!(rt; fits_request(alloc, &op).expect(&rt, "memory"));
    let Ok(Asked::Reading { reading, lower }) = ask(alloc, &mut roads, op, NodeId(0)) else {
        panic!(rt; "a dial that isn't answered");
    };
    let mut server = ReadServer {
        conn: lower.id,
        end: ReadEnd::Idle(lower),
    };
    down(&rt, alloc, &mut roads, &mut server, &mut books);
    let reading = heard(&rt, alloc, &mut roads, reading);
    ready(&rt, alloc, &mut roads, &mut server, &mut books);
    let reading = heard(&rt, alloc, &mut roads, reading);
    ready(&rt, alloc, &mut roads, &mut server, &mut books);
    assert!(rt; roads.knows(reading.conn()));
    let Ok(Heard::Read(result)) = hear(alloc, &mut roads, reading) else {
        panic!(rt; "no result");
    };
    let bytes = result.ok().expect(&rt, "bytes");
    assert!(rt; bytes == bytes_of(&rt, alloc, 0, 300));
    down(&rt, alloc, &mut roads, &mut server, &mut books);
}
