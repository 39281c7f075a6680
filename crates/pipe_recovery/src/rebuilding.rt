//! The setup of a pipeline, step by step.

ghost use Rattle.std.specs.Prelude.{◌≡◌, true, false, None, is_some, option_map};
ghost use Rattle.writer_core.specs.Transitions.{own_step};
ghost use Rattle.pipe_recovery.specs.Hearing.{told};
ghost use Rattle.pipe_recovery.specs.Dialling.{LinkIsKnown};
ghost use Rattle.pipe_recovery.specs.Steps.{
  fits_in,
  keeps_link,
  Acts,
  AsksAndDials,
  HearsNext,
  HearsOn,
  HearsGiven,
  Hears,
  HearsOrAsks,
  Takes,
  WaitsOn,
  Waits,
  SettlesTold,
  Steps,
  StillFits,
};

use crate::acting::{Acted, move_on};
use crate::asking::ask;
use crate::hearing::{Answer, Looked};
use crate::links::Link;
use crate::naming::named_member;
use hd_base::{Conn, ConnId, LinkIn, LinkOut, NodeId, Roads, Stamp};
use link_messages::Incoming;
use name_core::{Desk, OfficeFault};
use std::alloc::Global;
use writer_core::{Phase, Setup, Writer};

/// The setup of a pipeline of a writer: it owns the writer's connection until the pipeline stands.
#[derive(Drop)]
pub struct Rebuild<I, O> {
    /// The writer's connection, once its dial was answered.
    pub(crate) link: Option<Link<I, O>>,
    /// Whether the last step lost an end.
    pub(crate) lost: bool,
}

/// How the setup of a pipeline ended.
#[derive(Drop)]
pub enum Rebuilt<I, O> {
    /// The pipeline stands, and this is its connection, with what was received there and not yet taken.
    Streaming(Conn<I, O>, Incoming),
    /// The replicas are finalized under a stamp that is committed: the block is to be completed.
    Closed,
    /// The setup of a new block failed, for this member.
    Abandoned { member: NodeId },
    /// Every member was dropped, this one last.
    AllBad { member: NodeId },
    /// A block recovery has taken the lease.
    Lost { recovery: Stamp },
    /// The office refused.
    Refused(OfficeFault),
    /// Memory ran out. What was done before is kept.
    Memory,
}

/// How a step of the setup ended.
#[derive(Drop)]
pub enum RebuildStep<I, O> {
    /// More can be done: an own step of the writer is enabled, or a whole answer to its request, or the end of its
    /// connection, stands next.
    Moved,
    /// Nothing can be done until more comes on the connection, or the writer is given a command.
    Waiting,
    /// The setup has ended so. After `Memory` it goes on with the next step.
    Ended(Rebuilt<I, O>),
}

impl<I: LinkIn, O: LinkOut> Rebuild<I, O> {
    /// The setup of a pipeline of which nothing was done.
    pub fn new() -> Rebuild<I, O>
        ensures { result ≡ record { link = None; lost = false } }
    {
        Rebuild {
            link: None,
            lost: false,
        }
    }

    /// Whether the last step lost the end of a connection that the writer no longer has: it was shut, and there was no
    /// memory to bring it back.
    pub fn has_lost(&self) -> bool
        ensures { result ≡ self.now.lost }
    {
        self.lost
    }

    /// The writer's connection, where the setup holds its end.
    pub fn conn(&self) -> Option<ConnId>
        ensures { result ≡ option_map (λ l. l.end.id) self.now.link }
    {
        match &self.link {
            Some(link) => Some(link.end.id),
            None => None,
        }
    }

    /// Whether a step may be done for this writer: a pipeline is wanted, or this setup has begun it and hasn't ended.
    /// It may after each step that didn't end the setup, and after `Memory`, whatever commands the writer was given
    /// since.
    pub fn fits(&self, writer: &Writer) -> bool
        ensures { result ≡ fits_in writer.now.phase (is_some self.now.link) }
    {
        let connected = self.link.is_some();
        match writer.phase() {
            Phase::Wanted { .. } => !connected,
            Phase::Stamped { .. } => true,
            Phase::Requested { .. } => connected,
            Phase::Accepted { setup, .. } => match setup {
                Setup::Create => false,
                Setup::CloseRecovery => !connected,
                _ => connected,
            },
            _ => false,
        }
    }

    /// Does the writer's own step, or takes the answer to its request: asks the office and goes on with the dial,
    /// dials and sends the request, or takes a command while the answer is awaited. Before a stamp is committed it
    /// takes what the roads were asked to give on the connection, so that an end there is a setup that failed. A
    /// connection that the writer no longer has is given up; `has_lost` says whether its end was lost then.
    pub fn step<D: Desk, R: Roads<Inward = I, Outward = O>>(
        &mut self,
        alloc: Global,
        writer: &mut Writer,
        office: &mut D,
        roads: &mut R,
    ) -> RebuildStep<I, O>
        requires fits { fits_in writer.old.phase (is_some self.old.link) ≡ true }
        requires known { LinkIsKnown (R.plain roads.old) self.old.link }
        ensures steps { Steps D.Desk R.Roads I.LinkIn O.LinkOut writer.old writer.new
            self.old.link self.new.link office.old office.new roads.old roads.new self.new.lost result }
        ensures fits { StillFits writer.new.phase (is_some self.new.link) result }
        ensures known { LinkIsKnown (R.plain roads.new) self.new.link }
    {
        let acted = self.act(alloc, writer, office, roads);
        let lost = self.settle(alloc, writer, roads);
        let step = self.report(acted, writer);
        self.lost = lost;
        step
    }

    /// Does the writer's own step, or takes the answer to its request.
    fn act<D: Desk, R: Roads<Inward = I, Outward = O>>(
        &mut self,
        alloc: Global,
        writer: &mut Writer,
        office: &mut D,
        roads: &mut R,
    ) -> Acted
        requires known { LinkIsKnown (R.plain roads.old) self.old.link }
        ensures acts { Acts D.Desk R.Roads I.LinkIn O.LinkOut writer.old.phase writer.old writer.new
            self.old.link self.new.link office.old office.new roads.old roads.new result }
        ensures known { LinkIsKnown (R.plain roads.new) self.new.link }
    {
        match writer.phase() {
            Phase::Wanted { .. } => self.ask_and_dial(alloc, writer, office, roads),
            Phase::Accepted { .. } => self.hear_or_ask(alloc, writer, office, roads),
            Phase::Stamped { .. } => self.dial(alloc, writer, roads),
            Phase::Requested { .. } => self.wait(writer),
            _ => Acted::Idle,
        }
    }

    /// Takes what the roads gave on the connection, where something stands next there; else asks the office.
    fn hear_or_ask<D: Desk, R: Roads<Inward = I, Outward = O>>(
        &mut self,
        alloc: Global,
        writer: &mut Writer,
        office: &mut D,
        roads: &mut R,
    ) -> Acted
        requires known { LinkIsKnown (R.plain roads.old) self.old.link }
        ensures acts { HearsOrAsks D.Desk R.Roads I.LinkIn O.LinkOut writer.old writer.new
            self.old.link self.new.link office.old office.new roads.old roads.new result }
        ensures known { LinkIsKnown (R.plain roads.new) self.new.link }
    {
        match self.hear(writer) {
            Some(acted) => acted,
            None => self.ask_and_dial(alloc, writer, office, roads),
        }
    }

    /// Takes what stands next, where the roads were asked to give it and something does.
    fn hear(&mut self, writer: &mut Writer) -> Option<Acted>
        ensures hears { Hears I.LinkIn writer.old writer.new self.old.link self.new.link result }
        ensures same { option_map (λ l. l.end.id) self.new.link ≡ option_map (λ l. l.end.id) self.old.link }
    {
        match &mut self.link {
            Some(link) => hear_given(link, writer),
            None => None,
        }
    }

    /// Asks the office, and goes on with the dial where it gave a stamp.
    fn ask_and_dial<D: Desk, R: Roads<Inward = I, Outward = O>>(
        &mut self,
        alloc: Global,
        writer: &mut Writer,
        office: &mut D,
        roads: &mut R,
    ) -> Acted
        requires known { LinkIsKnown (R.plain roads.old) self.old.link }
        ensures acts { AsksAndDials D.Desk R.Roads I.LinkIn O.LinkOut writer.old writer.new
            self.old.link self.new.link office.old office.new roads.old roads.new result }
        ensures known { LinkIsKnown (R.plain roads.new) self.new.link }
    {
        let asked = ask(writer, office);
        match writer.phase() {
            Phase::Stamped { .. } => self.dial(alloc, writer, roads),
            _ => asked,
        }
    }

    /// Takes the answer to the request, or the end of the connection, where it stands next; else a command.
    fn wait(&mut self, writer: &mut Writer) -> Acted
        ensures { Waits I.LinkIn writer.old writer.new self.old.link self.new.link result }
    {
        match &mut self.link {
            Some(link) => wait_on(link, writer),
            None => move_on(writer),
        }
    }

    /// Gives up a connection that the writer doesn't have. Answers whether its end was lost.
    fn settle<R: Roads<Inward = I, Outward = O>>(
        &mut self,
        alloc: Global,
        writer: &Writer,
        roads: &mut R,
    ) -> bool
        requires known { LinkIsKnown (R.plain roads.old) self.old.link }
        ensures settles { SettlesTold R.Roads I.LinkIn O.LinkOut (keeps_link writer.now.phase)
            self.old.link self.new.link roads.old roads.new result }
        ensures known { LinkIsKnown (R.plain roads.new) self.new.link }
    {
        if keeps_link(writer) {
            return false;
        }
        self.give_up(alloc, roads)
    }

    /// Gives up the connection, if there is one. Answers whether its end was lost.
    pub(crate) fn give_up<R: Roads<Inward = I, Outward = O>>(
        &mut self,
        alloc: Global,
        roads: &mut R,
    ) -> bool
        requires known { LinkIsKnown (R.plain roads.old) self.old.link }
        ensures settles { SettlesTold R.Roads I.LinkIn O.LinkOut false
            self.old.link self.new.link roads.old roads.new result }
        ensures known { LinkIsKnown (R.plain roads.new) self.new.link }
    {
        let Some(link) = self.link.take() else {
            return false;
        };
        let mut end = link.end;
        end.outward.shut();
        roads.bring(alloc, end).is_err()
    }
}

/// Takes what stands next on a connection, where the roads were asked to give it and something does.
fn hear_given<I: LinkIn, O: Drop>(link: &mut Link<I, O>, writer: &mut Writer) -> Option<Acted>
    ensures hears { HearsGiven I.LinkIn link.old.asked writer.old writer.new link.old link.new result }
    ensures same { link.new.end.id ≡ link.old.end.id }
{
    if link.asked {
        hear_on(link, writer)
    } else {
        None
    }
}

/// Takes what stands next on a connection, where something does.
fn hear_on<I: LinkIn, O: Drop>(link: &mut Link<I, O>, writer: &mut Writer) -> Option<Acted>
    ensures hears { HearsOn I.LinkIn writer.old writer.new link.old link.new result }
    ensures same { link.new.end.id ≡ link.old.end.id }
{
    match link.look() {
        Looked::Memory => Some(Acted::Memory),
        Looked::Known => hear_next(link, writer),
    }
}

/// Takes what stands next, where something does.
fn hear_next<I: LinkIn, O: Drop>(link: &mut Link<I, O>, writer: &mut Writer) -> Option<Acted>
    ensures hears { HearsNext writer.old writer.new link.old link.new result }
    ensures same { link.new.end.id ≡ link.old.end.id }
{
    match link.take() {
        Some(answer) => {
            tell(writer, &answer);
            Some(Acted::Moved)
        }
        None => None,
    }
}

/// Takes what stands next on a connection where an answer is awaited; else a command.
fn wait_on<I: LinkIn, O: Drop>(link: &mut Link<I, O>, writer: &mut Writer) -> Acted
    ensures { WaitsOn I.LinkIn writer.old writer.new link.old link.new result }
{
    match link.look() {
        Looked::Memory => Acted::Memory,
        Looked::Known => take_or_move(link, writer),
    }
}

/// Takes what stands next, where something does; else a command.
fn take_or_move<I: LinkIn, O: Drop>(link: &mut Link<I, O>, writer: &mut Writer) -> Acted
    ensures { Takes writer.old writer.new link.old link.new result }
{
    match link.take() {
        Some(answer) => {
            tell(writer, &answer);
            Acted::Moved
        }
        None => move_on(writer),
    }
}

/// Tells the writer what its request was answered.
fn tell(writer: &mut Writer, answer: &Answer)
    ensures { writer.new ≡ told writer.old answer.now }
{
    match answer {
        Answer::Given(response) => {
            let bad = named_member(writer.members().as_slice(), response.first_bad.as_slice());
            writer.setup_answer(response, bad);
        }
        Answer::Ended => writer.ended(),
    }
}

/// Whether a connection of the setup is kept: the writer has it, or its dial was answered and the request is due.
fn keeps_link(writer: &Writer) -> bool
    ensures { result ≡ keeps_link writer.now.phase }
{
    writer.connected() || matches!(writer.phase(), Phase::Stamped { .. })
}
