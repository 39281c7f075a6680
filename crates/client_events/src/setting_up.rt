//! The setup of a pipeline by the writer of a block.

ghost use Rattle.std.specs.Prelude.{◌≡◌, true, IfOk, is_some, slice_get};
ghost use Rattle.pipe_recovery.specs.Dialling.{LinkIsKnown};
ghost use Rattle.pipe_recovery.specs.Steps.{fits_in};
ghost use Rattle.member_events.specs.Roads.{RoadsPass};
ghost use Rattle.client_events.specs.SettingUp.{
  IsWanted,
  is_requested,
  is_unreached,
  first_port,
  undialled,
  FlushesLink,
  GivesUpLink,
  Accepts,
  Meets,
  SetUpShows,
  SetUpIsKnown,
  FitsSetUp,
};

use crate::answering::piped;
use crate::faults::{ClientFault, road_fault};
use crate::pipes::Pipe;
use hd_base::{Conn, ConnId, FIRST_PORT, LinkIn, LinkOut, NodeId, Roads};
use name_core::Desk;
use pipe_recovery::{MAX_PORT, Rebuild, RebuildStep};
use std::alloc::Global;
use writer_core::{Failure, Phase, Writer};

/// What a writer that sets up a pipeline leaves.
#[derive(Drop)]
pub struct SetUp<I, O> {
    /// Its connection.
    pub pipe: Pipe<I, O>,
    /// The lower end of the connection on which the first member was asked, if it was.
    pub first: Option<Conn<I, O>>,
    /// The node of the first member, where the dial of it wasn't answered.
    pub unreached: Option<NodeId>,
}

/// A writer that wants a pipeline asks the office for a stamp and then the first member, on the connection of this
/// number, the next one, whose lower end is accepted at the member's port. Where the member doesn't answer the dial the
/// writer wants a pipeline without it, or has failed.
pub fn set_up<D: Desk, I: LinkIn, O: LinkOut, R: Roads<Inward = I, Outward = O>>(
    alloc: Global,
    roads: &mut R,
    office: &mut D,
    writer: &mut Writer,
    setup: Rebuild<I, O>,
    next: ConnId,
) -> Result<SetUp<I, O>, ClientFault>
    requires wanted { IsWanted writer.old.phase }
    requires fits { fits_in writer.old.phase (is_some setup.link) ≡ true }
    requires known { LinkIsKnown (R.plain roads.old) setup.link }
    ensures shows { SetUpShows D.Desk R.Roads I.LinkIn O.LinkOut next writer.old writer.new setup
        office.old office.new roads.old roads.new result }
    ensures fits { FitsSetUp writer.old writer.new setup result }
    ensures pass { RoadsPass R.Roads roads.old roads.new }
    ensures known { IfOk result (λ left. SetUpIsKnown (R.plain roads.new) left) }
{
    let first = first_member(writer.members().as_slice());
    let mut setup = setup;
    let step = setup.step(alloc, writer, office, roads);
    if setup.has_lost() {
        return Err(ClientFault::Memory);
    }
    if roads.risen(next) {
        return Err(ClientFault::LinkFailed);
    }
    let phase = writer.phase();
    if !is_requested(phase) {
        let pipe = piped(setup, step)?;
        return Ok(undialled(phase, first, pipe));
    }
    let port = first_port(writer.members().as_slice());
    match step {
        RebuildStep::Waiting => met(alloc, roads, port, setup),
        RebuildStep::Moved => Err(given_up(alloc, roads, setup)),
        RebuildStep::Ended(_ended) => Err(ClientFault::Memory),
    }
}

/// The first member, if there is one.
fn first_member(members: &[NodeId]) -> Option<NodeId>
    ensures { result ≡ slice_get members.now 0 }
{
    members.first().copied()
}

/// What is left where no request was sent, to this first member.
fn undialled<I: LinkIn, O: LinkOut>(
    phase: Phase,
    first: Option<NodeId>,
    pipe: Pipe<I, O>,
) -> SetUp<I, O>
    ensures { result ≡ undialled phase first pipe }
{
    SetUp {
        pipe,
        first: None,
        unreached: if is_unreached(phase) { first } else { None },
    }
}

/// Whether the first member wasn't reached.
fn is_unreached(phase: Phase) -> bool
    ensures { result ≡ is_unreached phase }
{
    match phase {
        Phase::Wanted { .. } => true,
        Phase::Failed { failure } => match failure {
            Failure::Abandoned { .. } | Failure::AllBad { .. } => true,
            _ => false,
        },
        _ => false,
    }
}

/// Whether the request was sent.
fn is_requested(phase: Phase) -> bool
    ensures { result ≡ is_requested phase }
{
    matches!(phase, Phase::Requested { .. })
}

/// The port of the first member, and the last port where that is none.
fn first_port(members: &[NodeId]) -> u16
    ensures { result ≡ first_port members.now }
{
    match members {
        [first, ..] => u32::from(FIRST_PORT).saturating_add(first.0).min(MAX_PORT) as u16,
        [] => FIRST_PORT,
    }
}

/// Exchanges the connection on which the first member was asked, and accepts it at the member's port.
fn met<I: LinkIn, O: LinkOut, R: Roads<Inward = I, Outward = O>>(
    alloc: Global,
    roads: &mut R,
    port: u16,
    setup: Rebuild<I, O>,
) -> Result<SetUp<I, O>, ClientFault>
    requires { LinkIsKnown (R.plain roads.old) setup.link }
    ensures meets { Meets R.Roads I.LinkIn O.LinkOut port setup.link roads.old roads.new result }
    ensures passes { RoadsPass R.Roads roads.old roads.new }
    ensures known { IfOk result (λ left. SetUpIsKnown (R.plain roads.new) left) }
{
    let setup = flushed(alloc, roads, setup)?;
    accepted(alloc, roads, port, setup)
}

/// A setup whose connection was exchanged, and took nothing there.
fn flushed<I: LinkIn, O: LinkOut, R: Roads<Inward = I, Outward = O>>(
    alloc: Global,
    roads: &mut R,
    setup: Rebuild<I, O>,
) -> Result<Rebuild<I, O>, ClientFault>
    requires { LinkIsKnown (R.plain roads.old) setup.link }
    ensures flushes { FlushesLink R.Roads I.LinkIn O.LinkOut setup.link roads.old roads.new result }
    ensures passes { RoadsPass R.Roads roads.old roads.new }
    ensures known { IfOk result (λ new. LinkIsKnown (R.plain roads.new) new.link) }
{
    let mut setup = setup;
    match setup.exchange(alloc, roads, None) {
        Ok(()) => Ok(setup),
        Err(error) => Err(road_fault(error)),
    }
}

/// A setup, and the lower end of its connection, which is accepted at this port.
fn accepted<I: LinkIn, O: LinkOut, R: Roads<Inward = I, Outward = O>>(
    alloc: Global,
    roads: &mut R,
    port: u16,
    setup: Rebuild<I, O>,
) -> Result<SetUp<I, O>, ClientFault>
    requires { LinkIsKnown (R.plain roads.old) setup.link }
    ensures accepts { Accepts R.Roads I.LinkIn O.LinkOut port setup roads.old roads.new result }
    ensures passes { RoadsPass R.Roads roads.old roads.new }
    ensures known { IfOk result (λ left. SetUpIsKnown (R.plain roads.new) left) }
{
    match roads.accept(alloc, port) {
        Ok(Some(end)) => Ok(SetUp {
            pipe: Pipe::SettingUp(setup),
            first: Some(end),
            unreached: None,
        }),
        Ok(None) => Err(ClientFault::RoadsFailed),
        Err(error) => Err(road_fault(error)),
    }
}

/// Brings the connection of a setup back, whose link failed.
fn given_up<I: LinkIn, O: LinkOut, R: Roads<Inward = I, Outward = O>>(
    alloc: Global,
    roads: &mut R,
    setup: Rebuild<I, O>,
) -> ClientFault
    requires { LinkIsKnown (R.plain roads.old) setup.link }
    ensures gives_up { GivesUpLink R.Roads I.LinkIn O.LinkOut setup.link roads.old roads.new result }
    ensures passes { RoadsPass R.Roads roads.old roads.new }
{
    match setup.retire(alloc, roads) {
        Ok(()) => ClientFault::LinkFailed,
        Err(_) => ClientFault::Memory,
    }
}
