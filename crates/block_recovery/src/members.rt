//! What a primary takes from one of the members.

ghost use Rattle.std.specs.Prelude.{◌≡◌, ◌≤◌, ◌<◌, false, length, All};
ghost use Rattle.block_recovery.specs.Actions.{SettlesPlace};
ghost use Rattle.block_recovery.specs.Dialling.{LinkIsKnown, KeepsKnown, SameEnd, LinksStay};
ghost use Rattle.block_recovery.specs.Members.{ListensTo, ListensOn, TakesLink, TakesAt, HearsBy, HearsMember, HearsSo};

use crate::actions::settle_link;
use crate::hearing::{TakenAnswer, ends_with};
use crate::links::{Link, Seat};
use crate::primary::{Primary, hear};
use hd_base::{LinkIn, LinkOut, RoadError, Roads};
use link_messages::Next;
use link_pieces::exchange_end;
use recovery_core::{Heard, Primary as Core};
use std::alloc::Global;

/// How a primary heard one of the members.
#[derive(Debug, Drop)]
pub enum MemberHeard {
    /// It took an answer, the end, or what can't be read. The connection is given up behind the answer to the UPDATE.
    Taken,
    /// Nothing is there to be heard.
    Nothing,
    /// The link failed, and its count of faults rose. The connection is given up.
    LinkFailed,
    /// Memory ran out. What was received is kept.
    Memory,
}

impl<I: LinkIn, O: LinkOut> Primary<I, O> {
    /// Exchanges the connection to the member at this place with the roads that gave it, and takes what stands next
    /// there.
    pub fn take_from<R: Roads<Inward = I, Outward = O>>(
        &mut self,
        alloc: Global,
        roads: &mut R,
        place: usize,
    ) -> Result<(), RoadError>
        requires { All (LinkIsKnown (R.plain roads.old)) self.old.links.items }
        ensures takes { TakesAt R.Roads I.LinkIn O.LinkOut place self.old.links.items self.new.links.items
            roads.old roads.new result }
        ensures same { (self.new.block ≡ self.old.block) × (self.new.members ≡ self.old.members)
            × (self.new.core ≡ self.old.core) }
        ensures count { length self.new.links.items ≡ length self.old.links.items }
        ensures known { All (LinkIsKnown (R.plain roads.new)) self.new.links.items }
        ensures kept { KeepsKnown (R.plain roads.old) (R.plain roads.new) }
        ensures faults { R.faults roads.old ≤ R.faults roads.new }
    {
        take_at(alloc, self.links.as_mut_slice(), roads, place)
    }

    /// Hears what was taken from the member at this place: its answer, the end, or what can't be read; or gives the
    /// connection up where its link has failed.
    pub fn hear_from<R: Roads<Inward = I, Outward = O>>(
        &mut self,
        alloc: Global,
        roads: &mut R,
        place: usize,
    ) -> MemberHeard
        requires { All (LinkIsKnown (R.plain roads.old)) self.old.links.items }
        ensures hears { HearsSo R.Roads I.LinkIn O.LinkOut place self.old.core self.new.core
            self.old.links.items self.new.links.items roads.old roads.new result }
        ensures same { (self.new.block ≡ self.old.block) × (self.new.members ≡ self.old.members) }
        ensures count { length self.new.links.items ≡ length self.old.links.items }
        ensures known { All (LinkIsKnown (R.plain roads.new)) self.new.links.items }
        ensures kept { KeepsKnown (R.plain roads.old) (R.plain roads.new) }
        ensures faults { R.faults roads.old ≤ R.faults roads.new }
    {
        let links = self.links.as_mut_slice();
        match &mut self.core {
            Some(core) => hear_member(alloc, core, links, roads, place),
            None => MemberHeard::Nothing,
        }
    }
}

/// Exchanges the connection at this place, if there is one, and takes what stands next there.
fn take_at<R: Roads>(
    alloc: Global,
    links: &mut [Seat<R::Inward, R::Outward>],
    roads: &mut R,
    place: usize,
) -> Result<(), RoadError>
    requires { All (LinkIsKnown (R.plain roads.old)) links.old }
    ensures takes { TakesAt R.Roads R.Inward.LinkIn R.Outward.LinkOut place links.old links.new
        roads.old roads.new result }
    ensures count { length links.new ≡ length links.old }
    ensures known { All (LinkIsKnown (R.plain roads.new)) links.new }
    ensures kept { KeepsKnown (R.plain roads.old) (R.plain roads.new) }
    ensures faults { R.faults roads.old ≤ R.faults roads.new }
{
    if place >= links.len() {
        return Ok(());
    }
    take_link(alloc, &mut links[place], roads)
}

/// Exchanges a connection, if there is one, and takes what stands next there.
fn take_link<R: Roads>(
    alloc: Global,
    link: &mut Seat<R::Inward, R::Outward>,
    roads: &mut R,
) -> Result<(), RoadError>
    requires { LinkIsKnown (R.plain roads.old) link.old }
    ensures takes { TakesLink R.Roads R.Inward.LinkIn R.Outward.LinkOut link.old link.new roads.old roads.new result }
    ensures known { LinkIsKnown (R.plain roads.new) link.new }
    ensures kept { KeepsKnown (R.plain roads.old) (R.plain roads.new) }
    ensures faults { R.faults roads.old ≤ R.faults roads.new }
{
    match link {
        Seat::Open(link) => {
            let conn = link.end.id;
            exchange_end(alloc, roads, &mut link.end, Some(conn))
        }
        Seat::Empty | Seat::Lost => Ok(()),
    }
}

/// Hears the member at this place.
fn hear_member<R: Roads>(
    alloc: Global,
    core: &mut Core,
    links: &mut [Seat<R::Inward, R::Outward>],
    roads: &mut R,
    place: usize,
) -> MemberHeard
    requires { All (LinkIsKnown (R.plain roads.old)) links.old }
    ensures hears { HearsMember R.Roads R.Inward.LinkIn R.Outward.LinkOut place core.old core.new links.old links.new
        roads.old roads.new result }
    ensures stay { LinksStay R.Roads links.old links.new roads.old roads.new }
{
    if place >= links.len() || place >= core.standings().len() {
        return MemberHeard::Nothing;
    }
    let came = listen_on(&mut links[place]);
    hear_came(alloc, core, came, links, roads, place)
}

/// Hears what came from the member at this place.
fn hear_came<R: Roads>(
    alloc: Global,
    core: &mut Core,
    came: Next<TakenAnswer>,
    links: &mut [Seat<R::Inward, R::Outward>],
    roads: &mut R,
    place: usize,
) -> MemberHeard
    requires standing { place < length core.old.standings }
    requires link { place < length links.old }
    requires known { All (LinkIsKnown (R.plain roads.old)) links.old }
    ensures hears { HearsBy R.Roads R.Inward.LinkIn R.Outward.LinkOut came place core.old core.new links.old links.new
        roads.old roads.new result }
    ensures stay { LinksStay R.Roads links.old links.new roads.old roads.new }
{
    match came {
        Next::Message(taken) => {
            hear(
                alloc,
                core,
                place,
                &Heard::Answer(taken.answer),
                links,
                roads,
            );
            MemberHeard::Taken
        }
        Next::Unreadable => {
            hear(alloc, core, place, &Heard::Unreadable, links, roads);
            MemberHeard::Taken
        }
        Next::End => {
            hear(alloc, core, place, &Heard::End, links, roads);
            MemberHeard::Taken
        }
        Next::NotYet => MemberHeard::Nothing,
        Next::Failed => {
            give_up_at(alloc, links, roads, place);
            MemberHeard::LinkFailed
        }
        Next::Memory => MemberHeard::Memory,
    }
}

/// Gives up the connection at this place.
fn give_up_at<R: Roads>(
    alloc: Global,
    links: &mut [Seat<R::Inward, R::Outward>],
    roads: &mut R,
    place: usize,
)
    requires link { place < length links.old }
    requires known { All (LinkIsKnown (R.plain roads.old)) links.old }
    ensures gives { SettlesPlace R.Roads R.Inward.LinkIn R.Outward.LinkOut false place links.old links.new
        roads.old roads.new }
    ensures stay { LinksStay R.Roads links.old links.new roads.old roads.new }
{
    settle_link(alloc, false, &mut links[place], roads);
}

/// What comes on a connection, if there is one.
fn listen_on<I: LinkIn, O: LinkOut>(link: &mut Seat<I, O>) -> Next<TakenAnswer>
    ensures listens { ListensOn I.LinkIn link.old link.new result }
    ensures same { SameEnd link.old link.new }
{
    match link {
        Seat::Open(link) => listen_to(link),
        Seat::Empty | Seat::Lost => Next::NotYet,
    }
}

/// What comes on a connection: nothing behind its end, nor where the link failed when something was sent.
fn listen_to<I: LinkIn, O: LinkOut>(link: &mut Link<I, O>) -> Next<TakenAnswer>
    ensures listens { ListensTo I.LinkIn link.old link.new result }
    ensures same { link.new.end.id ≡ link.old.end.id }
{
    if link.over {
        return Next::NotYet;
    }
    if link.failed {
        return Next::Failed;
    }
    let came = link.incoming.next::<TakenAnswer, I>(&mut link.end.inward);
    link.over = ends_with(&came);
    came
}
