//! Ends that roads in memory gave, exchanged and given up.

use hd_base::{Conn, Got, LinkIn, LinkOut, NodeId, Roads};
use link_pieces::{exchange_end, give_up};
use mem_ports::MemRoads;
use std::alloc::Global;
use std::test::Fail;

/// An end that roads in memory give.
type End = Conn<<MemRoads as Roads>::Inward, <MemRoads as Roads>::Outward>;

/// The roads, and both ends of one connection to node 0.
fn connected(alloc: Global) -> Result<(MemRoads, End, End), Fail> {
    let mut roads = MemRoads::new(alloc, &[])?;
    let port = roads.listen(alloc, NodeId(0)).ok().ok_or("a port")?;
    let upper = roads.dial(alloc, port).ok().ok_or("a dial")?;
    let lower = roads.accept(alloc, port).ok().flatten().ok_or("an end")?;
    Ok((roads, upper, lower))
}

/// What the inward half gives next.
fn next(end: &mut End) -> Result<Got, Fail> {
    let mut bytes = [0u8; 8];
    end.inward
        .recv(&mut bytes)
        .ok()
        .ok_or("a link that fails")
        .map_err(Fail::from)
}

/// Exchanges an end that the roads gave.
fn exchanged(alloc: Global, roads: &mut MemRoads, end: &mut End, take: bool) -> Result<(), Fail> {
    if !roads.knows(end.id) {
        return Err(Fail::new("an end of other roads"));
    }
    exchange_end(alloc, roads, end, take.then_some(end.id))
        .ok()
        .ok_or("an exchange")
        .map_err(Fail::from)
}

/// Gives up an end that the roads gave.
fn given_up(alloc: Global, roads: &mut MemRoads, end: End) -> Result<(), Fail> {
    if !roads.knows(end.id) {
        return Err(Fail::new("an end of other roads"));
    }
    give_up(alloc, roads, end);
    Ok(())
}

/// Sends three bytes.
fn say(alloc: Global, end: &mut End) -> Result<(), Fail> {
    end.outward.room(alloc, 3).ok().ok_or("room")?;
    end.outward.send(b"abc").ok().ok_or("sent")?;
    Ok(())
}

#[test]
fn what_an_end_sent_arrives_and_then_its_end(rt: HostRuntime) -> Result<(), Fail> {
    let (mut roads, mut upper, mut lower) = connected(rt.alloc())?;
    say(rt.alloc(), &mut upper)?;
    exchanged(rt.alloc(), &mut roads, &mut upper, false)?;
    exchanged(rt.alloc(), &mut roads, &mut lower, true)?;
    assert_eq!(&rt; next(&mut lower)?, Got::Bytes(3));
    given_up(rt.alloc(), &mut roads, upper)?;
    exchanged(rt.alloc(), &mut roads, &mut lower, true)?;
    assert_eq!(&rt; next(&mut lower)?, Got::End);
    Ok(())
}
