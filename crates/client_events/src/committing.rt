//! The commit of a stamp by the writer of a block.

ghost use Rattle.std.specs.Prelude.{◌≡◌, true, IfOk, is_some};
ghost use Rattle.pipe_recovery.specs.Dialling.{LinkIsKnown};
ghost use Rattle.pipe_recovery.specs.Steps.{fits_in};
ghost use Rattle.member_events.specs.Roads.{RoadsPass};
ghost use Rattle.client_events.specs.Committing.{IsAccepted, is_opened, IsReadOff};
ghost use Rattle.client_events.specs.Events.{CommitShows, FitsCommitted};
ghost use Rattle.client_events.specs.Showing.{PipeIsKnown};

use crate::acting::{Acted, answer_if};
use crate::answering::{is_risen, piped};
use crate::faults::ClientFault;
use crate::pipes::Pipe;
use hd_base::{LinkIn, LinkOut, Roads};
use name_core::Desk;
use pipe_recovery::{Incoming, Rebuild};
use std::alloc::Global;
use writer_core::{Phase, Writer};

/// A writer whose request was answered has the office commit its stamp and members, and answers the create or append
/// once they are committed.
pub fn commit<D: Desk, I: LinkIn, O: LinkOut, R: Roads<Inward = I, Outward = O>>(
    alloc: Global,
    roads: &mut R,
    office: &mut D,
    writer: &mut Writer,
    setup: Rebuild<I, O>,
) -> Result<Acted<I, O>, ClientFault>
    requires accepted { IsAccepted writer.old.phase }
    requires fits { fits_in writer.old.phase (is_some setup.link) ≡ true }
    requires known { LinkIsKnown (R.plain roads.old) setup.link }
    ensures shows { CommitShows D.Desk R.Roads I.LinkIn O.LinkOut writer.old writer.new setup
        office.old office.new roads.old roads.new result }
    ensures fits { FitsCommitted writer.old writer.new setup result }
    ensures pass { RoadsPass R.Roads roads.old roads.new }
    ensures known { IfOk result (λ left. PipeIsKnown (R.plain roads.new) left.pipe) }
{
    let conn = setup.conn();
    let mut setup = setup;
    let step = setup.step(alloc, writer, office, roads);
    if setup.has_lost() {
        return Err(ClientFault::Memory);
    }
    if is_risen(roads, conn) {
        return Err(ClientFault::LinkFailed);
    }
    let held = piped(setup, step)?;
    let pipe = read_off(alloc, held)?;
    let due = is_opened(writer.phase());
    let said = answer_if(writer, due)?;
    Ok(Acted { pipe, said })
}

/// The connection of a setup that has ended: the answer was all that came there, and is not to be read again.
fn read_off<I: LinkIn, O: LinkOut>(
    alloc: Global,
    pipe: Pipe<I, O>,
) -> Result<Pipe<I, O>, ClientFault>
    ensures { IsReadOff pipe result }
{
    match pipe {
        Pipe::Streaming {
            end,
            incoming: _read,
        } => match Incoming::new(alloc) {
            Ok(incoming) => Ok(Pipe::Streaming { end, incoming }),
            Err(_) => Err(ClientFault::Memory),
        },
        Pipe::SettingUp(setup) => Ok(Pipe::SettingUp(setup)),
        Pipe::Closed => Ok(Pipe::Closed),
    }
}

/// Whether the create or append is to be answered.
fn is_opened(phase: Phase) -> bool
    ensures { result ≡ is_opened phase }
{
    matches!(phase, Phase::Opened)
}
