//! An end that answers a primary takes what stands next.

ghost use Rattle.std.specs.Prelude.{◌≡◌, IfOk, IfErr, IfSome};
ghost use Rattle.hd_base.specs.Ends.{IsKnown};
ghost use Rattle.member_events.specs.Roads.{RoadsPass};
ghost use Rattle.recovery_events.specs.Faults.{IsCause};
ghost use Rattle.recovery_events.specs.Outcomes.{left_in, going_on, IsFaulted};
ghost use Rattle.recovery_events.specs.Answering.{FollowsCame, IsEnded};
ghost use Rattle.recovery_events.specs.Events.{DownShows};

use crate::answering::{Outcome, Recovering, answered};
use crate::ends::{broken, brought, exchanged};
use crate::faults::RecoveryFault;
use block_recovery::{RecoveryCame, ReplicaBook, next_recovery};
use hd_base::{Conn, Files, LinkIn, LinkOut, Roads};
use std::alloc::Global;

/// An end that answers a primary takes what stands next. A further request is booked and answered, over the book of the
/// replica that it names; where anything else comes, the end is shut and brought back.
pub fn recover_down<I: LinkIn, O: LinkOut, R: Roads<Inward = I, Outward = O>, F: Files>(
    alloc: Global,
    roads: &mut R,
    book: &mut ReplicaBook<F>,
    recovering: Recovering<I, O>,
) -> Result<Outcome<Option<Recovering<I, O>>>, RecoveryFault>
    requires { IsKnown (R.plain roads.old) recovering.end.id.0 }
    ensures shows { DownShows F.Files R.Roads I.LinkIn O.LinkOut
        recovering book.old book.new roads.old roads.new result }
    ensures faulted { IfOk result (IsFaulted F.Files book.old book.new) }
    ensures causes { IfErr result (IsCause R.Roads recovering.end.id.0 roads.old roads.new) }
    ensures pass { RoadsPass R.Roads roads.old roads.new }
    ensures known { IfOk result (λ made. IfSome (left_in made) (λ left. IsKnown (R.plain roads.new) left.end.id.0)) }
{
    let Recovering { end, incoming } = recovering;
    let conn = end.id;
    let mut end = exchanged(alloc, roads, end, Some(conn))?;
    let mut incoming = incoming;
    let came = next_recovery(&mut incoming, &mut end);
    follow(alloc, roads, book, Recovering { end, incoming }, came)
}

/// What follows what an end has taken.
fn follow<I: LinkIn, O: LinkOut, R: Roads<Inward = I, Outward = O>, F: Files>(
    alloc: Global,
    roads: &mut R,
    book: &mut ReplicaBook<F>,
    recovering: Recovering<I, O>,
    came: RecoveryCame,
) -> Result<Outcome<Option<Recovering<I, O>>>, RecoveryFault>
    requires { IsKnown (R.plain roads.old) recovering.end.id.0 }
    ensures ends { FollowsCame F.Files R.Roads I.LinkIn O.LinkOut
        came recovering book.old book.new roads.old roads.new result }
    ensures pass { RoadsPass R.Roads roads.old roads.new }
{
    match came {
        RecoveryCame::Asked(op) => match answered(alloc, roads, book, recovering, &op) {
            Ok(made) => Ok(going_on(made)),
            Err(fault) => Err(fault),
        },
        RecoveryCame::Over => ended(alloc, roads, recovering.end),
        RecoveryCame::NotYet => Ok(Outcome::Done(Some(recovering))),
        RecoveryCame::LinkFailed => Err(broken(alloc, roads, recovering.end)),
        RecoveryCame::Memory => Err(RecoveryFault::Memory),
    }
}

/// The outcome of an event after which the end goes on.
fn going_on<I: LinkIn, O: LinkOut>(
    made: Outcome<Recovering<I, O>>,
) -> Outcome<Option<Recovering<I, O>>>
    ensures { result ≡ going_on made }
{
    match made {
        Outcome::Done(left) => Outcome::Done(Some(left)),
        Outcome::Faulted(left) => Outcome::Faulted(Some(left)),
    }
}

/// Brings an end back that was shut.
fn ended<I: LinkIn, O: LinkOut, R: Roads<Inward = I, Outward = O>>(
    alloc: Global,
    roads: &mut R,
    end: Conn<I, O>,
) -> Result<Outcome<Option<Recovering<I, O>>>, RecoveryFault>
    requires { IsKnown (R.plain roads.old) end.id.0 }
    ensures ends { IsEnded R.Roads I.LinkIn O.LinkOut end roads.old roads.new result }
    ensures pass { RoadsPass R.Roads roads.old roads.new }
{
    match brought(alloc, roads, end) {
        Ok(()) => Ok(Outcome::Done(None)),
        Err(fault) => Err(fault),
    }
}
