//! What a writer hears that waits on the connection of its setup.

ghost use Rattle.std.specs.Prelude.{◌≡◌, true, IfOk, is_some};
ghost use Rattle.pipe_recovery.specs.Dialling.{LinkIsKnown};
ghost use Rattle.member_events.specs.Roads.{RoadsPass};
ghost use Rattle.client_events.specs.Answering.{IsWaiting, TakesLink, is_risen, piped};
ghost use Rattle.client_events.specs.declared.pipes.Pipe.TheVariants.{SettingUp};
ghost use Rattle.client_events.specs.Events.{AnswerShows, AnswerKeepsOffice};
ghost use Rattle.client_events.specs.Showing.{FitsAfter, PipeIsKnown, awaits};

use crate::faults::{ClientFault, road_fault};
use crate::pipes::Pipe;
use hd_base::{ConnId, LinkIn, LinkOut, Roads};
use name_core::Desk;
use pipe_recovery::{Rebuild, RebuildStep, Rebuilt};
use std::alloc::Global;
use writer_core::Writer;

/// A writer that waits on the connection of its setup takes what stands next there: the answer to its request, or the
/// end, which it may take before a stamp is committed too. The office isn't asked while something stands next.
pub fn hear_answer<D: Desk, I: LinkIn, O: LinkOut, R: Roads<Inward = I, Outward = O>>(
    alloc: Global,
    roads: &mut R,
    office: &mut D,
    writer: &mut Writer,
    setup: Rebuild<I, O>,
) -> Result<Pipe<I, O>, ClientFault>
    requires waits { awaits writer.old.phase ≡ true }
    requires linked { is_some setup.link ≡ true }
    requires known { LinkIsKnown (R.plain roads.old) setup.link }
    ensures shows { AnswerShows R.Roads I.LinkIn O.LinkOut writer.old writer.new setup roads.old roads.new result }
    ensures fits { FitsAfter writer.old writer.new (SettingUp setup) result }
    ensures office { AnswerKeepsOffice R.Roads I.LinkIn O.LinkOut writer.old setup roads.old office.old office.new }
    ensures quiet { IsWaiting writer.old.phase → office.new ≡ office.old }
    ensures pass { RoadsPass R.Roads roads.old roads.new }
    ensures known { IfOk result (λ left. PipeIsKnown (R.plain roads.new) left) }
{
    let conn = setup.conn();
    let mut setup = taken(alloc, roads, setup)?;
    let step = setup.step(alloc, writer, office, roads);
    if setup.has_lost() {
        return Err(ClientFault::Memory);
    }
    if is_risen(roads, conn) {
        return Err(ClientFault::LinkFailed);
    }
    piped(setup, step)
}

/// A setup whose connection was exchanged, and took what stands next there.
fn taken<I: LinkIn, O: LinkOut, R: Roads<Inward = I, Outward = O>>(
    alloc: Global,
    roads: &mut R,
    setup: Rebuild<I, O>,
) -> Result<Rebuild<I, O>, ClientFault>
    requires { LinkIsKnown (R.plain roads.old) setup.link }
    ensures takes { TakesLink R.Roads I.LinkIn O.LinkOut setup.link roads.old roads.new result }
    ensures linked { IfOk result (λ new. is_some new.link ≡ is_some setup.link) }
    ensures known { IfOk result (λ new. LinkIsKnown (R.plain roads.new) new.link) }
    ensures passes { RoadsPass R.Roads roads.old roads.new }
{
    let conn = setup.conn();
    let mut setup = setup;
    match setup.exchange(alloc, roads, conn) {
        Ok(()) => Ok(setup),
        Err(error) => Err(road_fault(error)),
    }
}

/// Whether the count of this connection's end had risen when it was brought back.
pub(crate) fn is_risen<R: Roads>(roads: &R, conn: Option<ConnId>) -> bool
    ensures { result ≡ is_risen (R.risen roads.now) conn }
{
    match conn {
        Some(conn) => roads.risen(conn),
        None => false,
    }
}

/// The connection after a step of its setup, which hands it over where the pipeline stands.
pub(crate) fn piped<I: LinkIn, O: LinkOut>(
    setup: Rebuild<I, O>,
    step: RebuildStep<I, O>,
) -> Result<Pipe<I, O>, ClientFault>
    ensures { result ≡ piped setup step }
{
    match step {
        RebuildStep::Moved | RebuildStep::Waiting => Ok(Pipe::SettingUp(setup)),
        RebuildStep::Ended(Rebuilt::Streaming(end, incoming)) => {
            Ok(Pipe::Streaming { end, incoming })
        }
        RebuildStep::Ended(Rebuilt::Memory) => Err(ClientFault::Memory),
        RebuildStep::Ended(_) => Ok(Pipe::Closed),
    }
}
