//! What a client hears on its writer's connection.

ghost use Rattle.std.specs.Prelude.{◌≡◌, IfOk};
ghost use Rattle.client_events.specs.MemberEvents.Roads.{RoadsPass};
ghost use Rattle.client_events.specs.Showing.{PipeIsKnown, awaits};
ghost use Rattle.client_events.specs.PipeRecovery.Dialling.{LinkIsKnown};
ghost use Rattle.play_clients.specs.Clients.{known_of};
ghost use Rattle.play_clients.specs.Hearing.{SetupHears, PipeHears};
ghost use Rattle.play_clients.specs.Events.{HearShows, HearKeepsOffice, NoneToCommit};
ghost use Rattle.play_clients.specs.Passing.{ClientPasses};

use crate::clients::Client;
use client_events::{ClientFault, Pipe, Rebuild, hear_ack, hear_answer};
use hd_base::{LinkIn, LinkOut, Roads};
use name_core::Desk;
use std::alloc::Global;
use std::mem;
use writer_core::{Phase, Setup, Writer};

impl<I: LinkIn, O: LinkOut> Client<I, O> {
    /// The writer takes what stands next on its connection. Nothing is done where it has none, or doesn't hear on it.
    pub fn hear<D: Desk, R: Roads<Inward = I, Outward = O>>(
        &mut self,
        alloc: Global,
        roads: &mut R,
        office: &mut D,
    ) -> Result<(), ClientFault>
        requires { PipeIsKnown (R.plain roads.old) self.old.pipe }
        ensures shows { HearShows D.Desk R.Roads I.LinkIn O.LinkOut
            self.old self.new office.old roads.old roads.new result }
        ensures passes { ClientPasses R.Roads roads.old roads.new self.new result }
        ensures office { HearKeepsOffice D.Desk R.Roads I.LinkIn O.LinkOut self.old office.old office.new roads.old }
        ensures quiet { NoneToCommit (known_of self.old.block self.old.writer).phase → office.new ≡ office.old }
    {
        let Some(writer) = &mut self.writer else {
            return Ok(());
        };
        let pipe = mem::replace(&mut self.pipe, Pipe::Closed);
        self.pipe = heard(alloc, roads, office, writer, pipe)?;
        Ok(())
    }
}

/// What is left of the connection of a writer that takes what stands next there.
fn heard<D: Desk, I: LinkIn, O: LinkOut, R: Roads<Inward = I, Outward = O>>(
    alloc: Global,
    roads: &mut R,
    office: &mut D,
    writer: &mut Writer,
    pipe: Pipe<I, O>,
) -> Result<Pipe<I, O>, ClientFault>
    requires { PipeIsKnown (R.plain roads.old) pipe }
    ensures hears { PipeHears R.Roads I.LinkIn O.LinkOut writer.old writer.new pipe
        office.old office.new roads.old roads.new result }
    ensures pass { RoadsPass R.Roads roads.old roads.new }
    ensures known { IfOk result (λ left. PipeIsKnown (R.plain roads.new) left) }
    ensures quiet { NoneToCommit writer.old.phase → office.new ≡ office.old }
{
    match pipe {
        Pipe::Closed => Ok(Pipe::Closed),
        Pipe::Streaming { end, incoming } => hear_ack(alloc, roads, writer, end, incoming),
        Pipe::SettingUp(setup) => answered(alloc, roads, office, writer, setup),
    }
}

/// What is left of the setup of a writer that may wait on the connection of it.
fn answered<D: Desk, I: LinkIn, O: LinkOut, R: Roads<Inward = I, Outward = O>>(
    alloc: Global,
    roads: &mut R,
    office: &mut D,
    writer: &mut Writer,
    setup: Rebuild<I, O>,
) -> Result<Pipe<I, O>, ClientFault>
    requires { LinkIsKnown (R.plain roads.old) setup.link }
    ensures hears { SetupHears R.Roads I.LinkIn O.LinkOut writer.old writer.new setup
        office.old office.new roads.old roads.new result }
    ensures pass { RoadsPass R.Roads roads.old roads.new }
    ensures known { IfOk result (λ left. PipeIsKnown (R.plain roads.new) left) }
    ensures quiet { NoneToCommit writer.old.phase → office.new ≡ office.old }
{
    if awaits(writer.phase()) && setup.conn().is_some() {
        hear_answer(alloc, roads, office, writer, setup)
    } else {
        Ok(Pipe::SettingUp(setup))
    }
}

/// Whether a writer waits on the connection of its setup: for the answer to its request, or to commit its stamp.
fn awaits(phase: Phase) -> bool
    ensures { result ≡ awaits phase }
{
    match phase {
        Phase::Requested { .. } => true,
        Phase::Accepted { setup, .. } => !matches!(setup, Setup::Create | Setup::CloseRecovery),
        _ => false,
    }
}
