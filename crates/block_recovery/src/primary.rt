//! A primary, step by step.

ghost use Rattle.std.specs.List.{list_any};
ghost use Rattle.std.specs.Prelude.{◌≡◌, ◌<◌, length, All, IfOk, slice_get, Option, Some};
ghost use Rattle.hd_base.specs.Channels.{Plain};
ghost use Rattle.block_recovery.specs.Dialling.{LinkIsKnown, LinksStay, is_lost};
ghost use Rattle.block_recovery.specs.Driving.{Steps};
ghost use Rattle.block_recovery.specs.Steps.{
  IsNew,
  no_links,
  Leads,
  LeadsOn,
  Hears,
  Owns,
  OwnsBy,
  Updates,
  Commits,
  EndsSo,
};

use crate::actions::{Found, poll_all, settle, settle_link};
use crate::links::Seat;
use crate::requests::send_request;
use hd_base::{BlockId, LinkIn, LinkOut, Members, NodeId, Roads};
use name_core::{Chosen, Desk};
use op_headers::RecoveryKind;
use recovery_core::{Heard, OwnStep, Primary as Core, Recovered};
use std::alloc::{AllocError, Global};

/// A primary of a block recovery: it owns the connections to the members.
#[derive(Drop)]
pub struct Primary<I, O> {
    pub(crate) block: BlockId,
    pub(crate) members: Members,
    /// How far it is, once it has begun.
    pub(crate) core: Option<Core>,
    /// The connections, in the members' order.
    pub(crate) links: Vec<Seat<I, O>>,
}

/// How a step of a primary ended.
#[derive(Debug, Drop)]
pub enum PrimaryStep {
    /// It did a step of its own, or took an answer or an end.
    Moved,
    /// No answer or end that it awaits is there, nor is a step of its own due.
    Waiting,
    /// The recovery has ended so, and all connections are given up.
    Ended(Recovered),
}

impl<I: LinkIn, O: LinkOut> Primary<I, O> {
    /// A primary that is to recover this block at these members, and has done nothing.
    pub fn new(
        alloc: Global,
        block: BlockId,
        members: &Members,
    ) -> Result<Primary<I, O>, AllocError>
        ensures made { IfOk result (IsNew block members.now) }
        ensures count { IfOk result (λ made. length made.links.items ≡ length made.members) }
        ensures known { IfOk result (λ made. (plain : Option Plain) → All (LinkIsKnown plain) made.links.items) }
    {
        Ok(Primary {
            block,
            members: members.duplicate(),
            core: None,
            links: no_links(alloc, members.as_slice())?,
        })
    }

    /// Whether the end of the connection to the member at this place is lost: it was given up, or was to be brought
    /// back, and there was no memory for that.
    pub fn has_lost(&self, place: usize) -> bool
        ensures { result ≡ is_lost (slice_get self.now.links.items place) }
    {
        match self.links.get(place) {
            Some(link) => link.is_lost(),
            None => false,
        }
    }

    /// Whether the end of the connection to some member is lost.
    pub fn has_lost_any(&self) -> bool
        ensures { result ≡ list_any (λ link. is_lost (Some link)) self.now.links.items }
    {
        self.links.iter().any(|link| link.is_lost())
    }

    /// Does one step of its own, or takes one answer or end: it asks the office to begin, dials each member and sends
    /// those that answered the INIT; takes what they answer; chooses among it, sends the chosen ones the UPDATE and
    /// gives up the connections of the others; takes their answers; and asks the office to commit. Behind an end
    /// there is no further step.
    pub fn step<D: Desk, R: Roads<Inward = I, Outward = O>>(
        &mut self,
        alloc: Global,
        office: &mut D,
        roads: &mut R,
    ) -> PrimaryStep
        requires count { length self.old.links.items ≡ length self.old.members }
        requires known { All (LinkIsKnown (R.plain roads.old)) self.old.links.items }
        ensures steps { Steps D.Desk R.Roads I.LinkIn O.LinkOut self.old self.new office.old office.new
            roads.old roads.new result }
        ensures same { (self.new.block ≡ self.old.block) × (self.new.members ≡ self.old.members) }
        ensures count { length self.new.links.items ≡ length self.new.members }
        ensures known { All (LinkIsKnown (R.plain roads.new)) self.new.links.items }
    {
        match &mut self.core {
            Some(core) => {
                let links = self.links.as_mut_slice();
                lead(alloc, core, &self.members, links, office, roads)
            }
            None => self.begin(alloc, office, roads),
        }
    }

    /// Does its own step, once it has begun, whatever stands on the connections: it sends the chosen members the UPDATE
    /// and gives up the connections of the others, or ends, by the office's answer where it is to commit.
    pub fn lead_on<D: Desk, R: Roads<Inward = I, Outward = O>>(
        &mut self,
        alloc: Global,
        office: &mut D,
        roads: &mut R,
    ) -> PrimaryStep
        requires count { length self.old.links.items ≡ length self.old.members }
        requires known { All (LinkIsKnown (R.plain roads.old)) self.old.links.items }
        ensures leads { LeadsOn D.Desk R.Roads I.LinkIn O.LinkOut self.old self.new office.old office.new
            roads.old roads.new result }
        ensures same { (self.new.block ≡ self.old.block) × (self.new.members ≡ self.old.members) }
        ensures count { length self.new.links.items ≡ length self.new.members }
        ensures known { All (LinkIsKnown (R.plain roads.new)) self.new.links.items }
    {
        let links = self.links.as_mut_slice();
        match &mut self.core {
            Some(core) => own(alloc, core, &self.members, links, office, roads),
            None => PrimaryStep::Waiting,
        }
    }
}

/// No connection to any of these.
fn no_links<I: Drop, O: Drop>(
    alloc: Global,
    nodes: &[NodeId],
) -> Result<Vec<Seat<I, O>>, AllocError>
    ensures { IfOk result (λ links. links.items ≡ no_links nodes.now) }
{
    nodes.iter().map(|_node| Seat::Empty).collect(alloc)
}

/// A step of a primary that has begun: takes what is there on a connection, or does its own step where nothing is.
fn lead<D: Desk, R: Roads>(
    alloc: Global,
    core: &mut Core,
    members: &Members,
    links: &mut [Seat<R::Inward, R::Outward>],
    office: &mut D,
    roads: &mut R,
) -> PrimaryStep
    requires count { length links.old ≡ length members.now }
    requires known { All (LinkIsKnown (R.plain roads.old)) links.old }
    ensures leads { Leads D.Desk R.Roads R.Inward.LinkIn R.Outward.LinkOut core.old core.new members.now
        links.old links.new office.old office.new roads.old roads.new result }
    ensures count { length links.new ≡ length links.old }
    ensures known { All (LinkIsKnown (R.plain roads.new)) links.new }
{
    match poll_all(core.standings(), links) {
        Found::Heard(place, heard) => {
            hear(alloc, core, place, &heard, links, roads);
            PrimaryStep::Moved
        }
        Found::Nothing => own(alloc, core, members, links, office, roads),
        Found::Memory => end(alloc, Recovered::Memory, links, roads),
    }
}

/// Takes this from the member at this place, and gives up its connection behind the answer to the UPDATE.
pub(crate) fn hear<R: Roads>(
    alloc: Global,
    core: &mut Core,
    place: usize,
    heard: &Heard,
    links: &mut [Seat<R::Inward, R::Outward>],
    roads: &mut R,
)
    requires standing { place < length core.old.standings }
    requires link { place < length links.old }
    requires known { All (LinkIsKnown (R.plain roads.old)) links.old }
    ensures hears { Hears R.Roads R.Inward.LinkIn R.Outward.LinkOut core.old core.new place heard.now
        links.old links.new roads.old roads.new }
    ensures stay { LinksStay R.Roads links.old links.new roads.old roads.new }
{
    let shuts = core.hear(place, heard);
    settle_link(alloc, !shuts, &mut links[place], roads);
}

/// Does the primary's own step.
fn own<D: Desk, R: Roads>(
    alloc: Global,
    core: &mut Core,
    members: &Members,
    links: &mut [Seat<R::Inward, R::Outward>],
    office: &mut D,
    roads: &mut R,
) -> PrimaryStep
    requires count { length links.old ≡ length members.now }
    requires known { All (LinkIsKnown (R.plain roads.old)) links.old }
    ensures owns { Owns D.Desk R.Roads R.Inward.LinkIn R.Outward.LinkOut core.old core.new members.now
        links.old links.new office.old office.new roads.old roads.new result }
    ensures count { length links.new ≡ length links.old }
    ensures known { All (LinkIsKnown (R.plain roads.new)) links.new }
{
    match core.own_step(alloc) {
        Ok(does) => act(alloc, does, core, members, links, office, roads),
        Err(_) => end(alloc, Recovered::Memory, links, roads),
    }
}

/// Does what the primary's own step is.
fn act<D: Desk, R: Roads>(
    alloc: Global,
    does: OwnStep,
    core: &Core,
    members: &Members,
    links: &mut [Seat<R::Inward, R::Outward>],
    office: &mut D,
    roads: &mut R,
) -> PrimaryStep
    requires count { length links.old ≡ length members.now }
    requires known { All (LinkIsKnown (R.plain roads.old)) links.old }
    ensures owns { OwnsBy D.Desk R.Roads R.Inward.LinkIn R.Outward.LinkOut does core.now members.now
        links.old links.new office.old office.new roads.old roads.new result }
    ensures count { length links.new ≡ length links.old }
    ensures known { All (LinkIsKnown (R.plain roads.new)) links.new }
{
    match does {
        OwnStep::Waits => PrimaryStep::Waiting,
        OwnStep::Updates(chosen) => update(alloc, core, &chosen, members, links, roads),
        OwnStep::Commits(chosen) => commit(alloc, core, chosen, links, office, roads),
        OwnStep::Ends(recovered) => end(alloc, recovered, links, roads),
    }
}

/// Sends the chosen members the UPDATE, and gives up the connections on which no answer is awaited then.
fn update<R: Roads>(
    alloc: Global,
    core: &Core,
    chosen: &Chosen,
    members: &Members,
    links: &mut [Seat<R::Inward, R::Outward>],
    roads: &mut R,
) -> PrimaryStep
    requires count { length links.old ≡ length members.now }
    requires known { All (LinkIsKnown (R.plain roads.old)) links.old }
    ensures updates { Updates R.Roads R.Inward.LinkIn R.Outward.LinkOut core.now chosen.now members.now
        links.old links.new roads.old roads.new result }
    ensures count { length links.new ≡ length links.old }
    ensures known { All (LinkIsKnown (R.plain roads.new)) links.new }
{
    let kind = RecoveryKind::Update;
    match send_request(
        alloc,
        core,
        kind,
        chosen.length,
        members,
        &chosen.members,
        links,
    ) {
        Ok(()) => {
            settle(alloc, core.standings(), links, roads);
            PrimaryStep::Moved
        }
        Err(_) => end(alloc, Recovered::Memory, links, roads),
    }
}

/// Asks the office to commit.
fn commit<D: Desk, R: Roads>(
    alloc: Global,
    core: &Core,
    chosen: Chosen,
    links: &mut [Seat<R::Inward, R::Outward>],
    office: &mut D,
    roads: &mut R,
) -> PrimaryStep
    requires { All (LinkIsKnown (R.plain roads.old)) links.old }
    ensures commits { Commits D.Desk R.Roads R.Inward.LinkIn R.Outward.LinkOut core.now chosen
        links.old links.new office.old office.new roads.old roads.new result }
    ensures count { length links.new ≡ length links.old }
    ensures known { All (LinkIsKnown (R.plain roads.new)) links.new }
{
    let answer = office.ask(&core.sync_call(&chosen));
    end(alloc, core.end_with(chosen, answer), links, roads)
}

/// Ends the recovery so, and gives up all connections.
fn end<R: Roads>(
    alloc: Global,
    recovered: Recovered,
    links: &mut [Seat<R::Inward, R::Outward>],
    roads: &mut R,
) -> PrimaryStep
    requires { All (LinkIsKnown (R.plain roads.old)) links.old }
    ensures ends { EndsSo R.Roads R.Inward.LinkIn R.Outward.LinkOut recovered links.old links.new
        roads.old roads.new result }
    ensures count { length links.new ≡ length links.old }
    ensures known { All (LinkIsKnown (R.plain roads.new)) links.new }
{
    settle(alloc, &[], links, roads);
    PrimaryStep::Ended(recovered)
}
