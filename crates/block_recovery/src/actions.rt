//! What a primary does with the connections to all members.

ghost use Rattle.std.specs.Prelude.{◌≡◌, ◌||◌, ◌≤◌, length, All, Option, slice_get};
ghost use Rattle.hd_base.specs.Channels.{Plain};
ghost use Rattle.hd_base.specs.Ends.{IsKnown};
ghost use Rattle.block_recovery.specs.Dialling.{LinkIsKnown, KeepsKnown, SameEnd, KeepsEnds};
ghost use Rattle.block_recovery.specs.Actions.{
  DialsInto,
  DialsAll,
  is_due,
  SendsIf,
  SendsAll,
  keeps_at,
  place_after,
  BringsBack,
  GivesBack,
  Settles,
  SettlesAll,
  Polls,
  PollsLink,
  PollsAt,
  PollsAll,
  IsWithin,
};

use crate::dialling::dial;
use crate::hearing::Looked;
use crate::links::{Link, Seat};
use hd_base::{Conn, LinkIn, LinkOut, Members, RoadError, Roads};
use recovery_core::{Heard, Standing, is_among};
use std::alloc::{AllocError, Global};
use std::mem;

/// What was found on the connections to all members.
#[derive(Debug, Drop)]
pub(crate) enum Found {
    /// This, from the member at this place.
    Heard(usize, Heard),
    /// Nothing yet.
    Nothing,
    /// Memory ran out. What was received is kept.
    Memory,
}

/// Dials each member in order.
pub(crate) fn dial_all<R: Roads>(
    alloc: Global,
    members: &Members,
    links: &mut [Seat<R::Inward, R::Outward>],
    roads: &mut R,
) -> Result<(), AllocError>
    requires { All (LinkIsKnown (R.plain roads.old)) links.old }
    ensures dials { DialsAll R.Roads R.Inward.LinkIn R.Outward.LinkOut members.now links.old links.new
        roads.old roads.new result }
    ensures known { All (LinkIsKnown (R.plain roads.new)) links.new }
    ensures count { length links.new ≡ length links.old }
{
    for place in 0..links.len() {
        if let Err(error) = dial_into(alloc, members, place, &mut links[place], roads) {
            return Err(error);
        }
    }
    Ok(())
}

/// Dials the member at this place, and keeps the end.
fn dial_into<R: Roads>(
    alloc: Global,
    members: &Members,
    place: usize,
    link: &mut Seat<R::Inward, R::Outward>,
    roads: &mut R,
) -> Result<(), AllocError>
    requires { LinkIsKnown (R.plain roads.old) link.old }
    ensures dials { DialsInto R.Roads R.Inward.LinkIn R.Outward.LinkOut (slice_get members.now place) link.old link.new
        roads.old roads.new result }
    ensures known { LinkIsKnown (R.plain roads.new) link.new }
    ensures kept { KeepsKnown (R.plain roads.old) (R.plain roads.new) }
{
    let Some(node) = members.as_slice().get(place) else {
        *link = Seat::Empty;
        return Ok(());
    };
    *link = dial(alloc, *node, roads)?;
    Ok(())
}

/// Sends this text to each of the chosen members.
pub(crate) fn send_all<I: Drop, O: LinkOut>(
    alloc: Global,
    text: &[u8],
    members: &Members,
    chosen: &Members,
    links: &mut [Seat<I, O>],
) -> Result<(), AllocError>
    ensures sends { SendsAll O.LinkOut text.now members.now chosen.now links.old links.new result }
    ensures count { length links.new ≡ length links.old }
    ensures ends { KeepsEnds links.old links.new }
{
    for place in 0..links.len() {
        let due = is_due(chosen, members, place);
        if let Err(error) = send_if(alloc, text, due, &mut links[place]) {
            return Err(error);
        }
    }
    Ok(())
}

/// Whether the member at this place is a chosen one.
fn is_due(chosen: &Members, members: &Members, place: usize) -> bool
    ensures { result ≡ is_due chosen.now (slice_get members.now place) }
{
    match members.as_slice().get(place) {
        Some(node) => is_among(chosen, *node),
        None => false,
    }
}

/// Sends this text on a connection, if it is due there and there is one.
fn send_if<I: Drop, O: LinkOut>(
    alloc: Global,
    text: &[u8],
    due: bool,
    link: &mut Seat<I, O>,
) -> Result<(), AllocError>
    ensures sends { SendsIf O.LinkOut text.now due link.old link.new result }
    ensures same { SameEnd link.old link.new }
{
    if !due {
        return Ok(());
    }
    match link {
        Seat::Open(link) => link.send(alloc, text),
        Seat::Empty | Seat::Lost => Ok(()),
    }
}

/// Gives up each connection on which no answer is awaited.
pub(crate) fn settle<R: Roads>(
    alloc: Global,
    standings: &[Standing],
    links: &mut [Seat<R::Inward, R::Outward>],
    roads: &mut R,
)
    requires { All (LinkIsKnown (R.plain roads.old)) links.old }
    ensures settles { SettlesAll R.Roads R.Inward.LinkIn R.Outward.LinkOut standings.now links.old links.new
        roads.old roads.new }
    ensures known { All (LinkIsKnown (R.plain roads.new)) links.new }
    ensures count { length links.new ≡ length links.old }
{
    for place in 0..links.len() {
        let keeps = keeps_at(standings, place);
        settle_link(alloc, keeps, &mut links[place], roads);
    }
}

/// Whether an answer of the member at this place is awaited.
fn keeps_at(standings: &[Standing], place: usize) -> bool
    ensures { result ≡ keeps_at standings.now place }
{
    match standings.get(place) {
        Some(standing) => standing.is_awaited(),
        None => false,
    }
}

/// Gives up a connection, unless it is kept.
pub(crate) fn settle_link<R: Roads>(
    alloc: Global,
    keeps: bool,
    link: &mut Seat<R::Inward, R::Outward>,
    roads: &mut R,
)
    requires { LinkIsKnown (R.plain roads.old) link.old }
    ensures settles { Settles R.Roads R.Inward.LinkIn R.Outward.LinkOut keeps link.old link.new roads.old roads.new }
    ensures known { LinkIsKnown (R.plain roads.new) link.new }
    ensures kept { KeepsKnown (R.plain roads.old) (R.plain roads.new) }
    ensures faults { R.faults roads.old ≤ R.faults roads.new }
{
    if keeps {
        return;
    }
    *link = match mem::replace(link, Seat::Empty) {
        Seat::Open(link) => give_back(alloc, roads, link.end),
        Seat::Lost => Seat::Lost,
        Seat::Empty => Seat::Empty,
    };
}

/// Shuts an end and brings it back, and says what its place is then.
fn give_back<R: Roads>(
    alloc: Global,
    roads: &mut R,
    end: Conn<R::Inward, R::Outward>,
) -> Seat<R::Inward, R::Outward>
    requires { IsKnown (R.plain roads.old) end.id.0 }
    ensures gives { GivesBack R.Roads R.Inward.LinkIn R.Outward.LinkOut end result roads.old roads.new }
    ensures known { LinkIsKnown (R.plain roads.new) result }
    ensures kept { KeepsKnown (R.plain roads.old) (R.plain roads.new) }
    ensures faults { R.faults roads.old ≤ R.faults roads.new }
{
    let mut end = end;
    end.outward.shut();
    bring_back(alloc, roads, end)
}

/// Brings an end back, and says what its place is then.
pub(crate) fn bring_back<R: Roads>(
    alloc: Global,
    roads: &mut R,
    end: Conn<R::Inward, R::Outward>,
) -> Seat<R::Inward, R::Outward>
    requires { IsKnown (R.plain roads.old) end.id.0 }
    ensures brings { BringsBack R.Roads R.Inward.LinkIn R.Outward.LinkOut end result roads.old roads.new }
    ensures known { LinkIsKnown (R.plain roads.new) result }
    ensures kept { KeepsKnown (R.plain roads.old) (R.plain roads.new) }
    ensures faults { R.faults roads.old ≤ R.faults roads.new }
{
    let brought = roads.bring(alloc, end);
    place_after(brought)
}

/// The place of an end that was to be brought back.
fn place_after<I: Drop, O: Drop>(brought: Result<(), RoadError>) -> Seat<I, O>
    ensures place { result ≡ place_after brought }
    ensures known { (plain : Option Plain) → LinkIsKnown plain result }
{
    match brought {
        Ok(()) => Seat::Empty,
        Err(_) => Seat::Lost,
    }
}

/// Looks at what stands next on the connections, in the members' order, where it is awaited or the roads were asked to
/// give it, and takes the first that is there.
pub(crate) fn poll_all<I: LinkIn, O: Drop>(
    standings: &[Standing],
    links: &mut [Seat<I, O>],
) -> Found
    ensures polls { PollsAll I.LinkIn standings.now links.old links.new result }
    ensures within { IsWithin (length standings.now) (length links.new) result }
    ensures count { length links.new ≡ length links.old }
    ensures ends { KeepsEnds links.old links.new }
{
    for place in 0..links.len() {
        match poll_at(standings, place, &mut links[place]) {
            Looked::Heard(heard) => return Found::Heard(place, heard),
            Looked::Nothing => {}
            Looked::Memory => return Found::Memory,
        }
    }
    Found::Nothing
}

/// Looks at what stands next on the connection to the member at this place.
fn poll_at<I: LinkIn, O: Drop>(
    standings: &[Standing],
    place: usize,
    link: &mut Seat<I, O>,
) -> Looked
    ensures polls { PollsAt I.LinkIn (slice_get standings.now place) link.old link.new result }
    ensures same { SameEnd link.old link.new }
{
    match standings.get(place) {
        Some(standing) => poll(standing.is_awaited(), link),
        None => Looked::Nothing,
    }
}

/// Looks at what stands next on a connection, if there is one, where it is awaited or the roads were asked to give it.
fn poll<I: LinkIn, O: Drop>(awaited: bool, link: &mut Seat<I, O>) -> Looked
    ensures polls { Polls I.LinkIn awaited link.old link.new result }
    ensures same { SameEnd link.old link.new }
{
    match link {
        Seat::Open(link) => poll_link(awaited, link),
        Seat::Empty | Seat::Lost => Looked::Nothing,
    }
}

/// The same, on this connection.
fn poll_link<I: LinkIn, O: Drop>(awaited: bool, link: &mut Link<I, O>) -> Looked
    ensures polls { PollsLink I.LinkIn (awaited || link.old.asked) link.old link.new result }
    ensures same { link.new.end.id ≡ link.old.end.id }
{
    if awaited || link.asked {
        link.look()
    } else {
        Looked::Nothing
    }
}
