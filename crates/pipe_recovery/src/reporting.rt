//! How a step ended.

ghost use Rattle.std.specs.Prelude.{◌≡◌, true, is_some};
ghost use Rattle.pipe_recovery.specs.Acting.{has_own_step, sets_up, enabled_in};
ghost use Rattle.pipe_recovery.specs.Reports.{leads_in, failed_as, moved_if, Reports, Streams, Awaits, AwaitsOn};

use crate::acting::Acted;
use crate::hearing::Looked;
use crate::links::Link;
use crate::rebuilding::{Rebuild, RebuildStep, Rebuilt};
use hd_base::{LinkIn, LinkOut};
use writer_core::{Failure, Phase, Setup, Writer};

impl<I: LinkIn, O: LinkOut> Rebuild<I, O> {
    /// How a step ended in which an action ended so.
    pub(crate) fn report(&mut self, acted: Acted, writer: &Writer) -> RebuildStep<I, O>
        requires { leads_in writer.now.phase (is_some self.old.link) ≡ true }
        ensures { Reports I.LinkIn acted writer.now self.old.link self.new.link result }
    {
        if acted.is_memory() {
            return RebuildStep::Ended(Rebuilt::Memory);
        }
        match writer.phase() {
            Phase::Accepted {
                setup: Setup::Create,
                ..
            }
            | Phase::Opened
            | Phase::Streaming { .. } => self.stream(),
            Phase::Finished => RebuildStep::Ended(Rebuilt::Closed),
            Phase::Failed { failure } => RebuildStep::Ended(failed_as(failure)),
            Phase::Requested { .. } => self.await_answer(writer),
            Phase::Wanted { .. } | Phase::Stamped { .. } => moved_if(has_own_step(writer)),
            _ => RebuildStep::Moved,
        }
    }

    /// The pipeline stands: its connection is handed over.
    fn stream(&mut self) -> RebuildStep<I, O>
        requires { is_some self.old.link ≡ true }
        ensures { Streams self.old.link self.new.link result }
    {
        match self.link.take() {
            Some(link) => {
                let (end, received) = link.into_parts();
                RebuildStep::Ended(Rebuilt::Streaming(end, received))
            }
            None => unreachable!(),
        }
    }

    /// Looks whether the answer, or the end, stands next, or a command is to be taken.
    fn await_answer(&mut self, writer: &Writer) -> RebuildStep<I, O>
        requires linked { is_some self.old.link ≡ true }
        requires requested { sets_up writer.now.phase ≡ true }
        ensures { Awaits I.LinkIn writer.now self.old.link self.new.link result }
    {
        match &mut self.link {
            Some(link) => await_on(link, writer),
            None => unreachable!(),
        }
    }
}

/// Looks whether the answer, or the end, stands next on this connection, or a command is to be taken.
fn await_on<I: LinkIn, O: LinkOut>(link: &mut Link<I, O>, writer: &Writer) -> RebuildStep<I, O>
    requires { sets_up writer.now.phase ≡ true }
    ensures { AwaitsOn I.LinkIn writer.now link.old link.new result }
{
    match link.look() {
        Looked::Memory => RebuildStep::Ended(Rebuilt::Memory),
        Looked::Known => moved_if(link.stands() || has_own_step(writer)),
    }
}

/// Whether an own step is enabled of a writer whose pipeline is set up.
fn has_own_step(writer: &Writer) -> bool
    requires { sets_up writer.now.phase ≡ true }
    ensures { result ≡ has_own_step writer.now }
{
    is_enabled(writer)
}

/// Whether there is somebody to dial where a stamp was given, or a command is due where an answer is awaited.
fn is_enabled(writer: &Writer) -> bool
    ensures { result ≡ enabled_in writer.now.phase writer.now }
{
    match writer.phase() {
        Phase::Stamped { .. } => !writer.members().is_empty(),
        Phase::Requested { .. } => writer.has_command_due(),
        _ => true,
    }
}

/// Whether more can be done.
fn moved_if<I: Drop, O: Drop>(more: bool) -> RebuildStep<I, O>
    ensures { result ≡ moved_if more }
{
    if more {
        RebuildStep::Moved
    } else {
        RebuildStep::Waiting
    }
}

/// How the setup ended of a writer that failed so.
fn failed_as<I: Drop, O: Drop>(failure: Failure) -> Rebuilt<I, O>
    ensures { result ≡ failed_as failure }
{
    match failure {
        Failure::Abandoned { member } => Rebuilt::Abandoned { member },
        Failure::AllBad { member } => Rebuilt::AllBad { member },
        Failure::Lost { recovery } => Rebuilt::Lost { recovery },
        Failure::Refused(fault) => Rebuilt::Refused(fault),
    }
}
