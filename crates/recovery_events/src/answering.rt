//! A request of a block recovery is booked and answered.

ghost use Rattle.std.specs.Prelude.{◌≡◌, IfOk, IfErr};
ghost use Rattle.hd_base.specs.Ends.{IsKnown};
ghost use Rattle.member_events.specs.Roads.{RoadsPass};
ghost use Rattle.recovery_events.specs.Faults.{IsCause};
ghost use Rattle.recovery_events.specs.Outcomes.{left_in, outcome_of, IsFaulted};
ghost use Rattle.recovery_events.specs.Answering.{Answers, HandsBack};
ghost use Rattle.recovery_events.specs.Events.{RequestShows};

use crate::ends::{broken, exchanged};
use crate::faults::RecoveryFault;
use block_recovery::{Incoming, RecoveryServed, RecoveryTold, ReplicaBook, serve_recovery};
use hd_base::{Conn, Files, LinkIn, LinkOut, Roads};
use op_headers::RecoveryOp;
use std::alloc::Global;

/// How an event of a recovery ends, and what is left.
#[derive(Drop)]
pub enum Outcome<T> {
    /// It is done.
    Done(T),
    /// A call on the replica's files failed in it, which was answered; the drawer's count rose.
    Faulted(T),
}

/// A lower end that answers a primary.
#[derive(Drop)]
pub struct Recovering<I, O> {
    pub end: Conn<I, O>,
    /// What was received there and not taken.
    pub incoming: Incoming,
}

/// Books and answers the first request of a recovery, which an end has just taken, over the book of the replica that it
/// names. The end goes on, whatever was answered.
pub fn recover_request<I: LinkIn, O: LinkOut, R: Roads<Inward = I, Outward = O>, F: Files>(
    alloc: Global,
    roads: &mut R,
    book: &mut ReplicaBook<F>,
    end: Conn<I, O>,
    incoming: Incoming,
    op: RecoveryOp,
) -> Result<Outcome<Recovering<I, O>>, RecoveryFault>
    requires { IsKnown (R.plain roads.old) end.id.0 }
    ensures shows { RequestShows F.Files R.Roads I.LinkIn O.LinkOut
        op end incoming book.old book.new roads.old roads.new result }
    ensures faulted { IfOk result (IsFaulted F.Files book.old book.new) }
    ensures causes { IfErr result (IsCause R.Roads end.id.0 roads.old roads.new) }
    ensures pass { RoadsPass R.Roads roads.old roads.new }
    ensures known { IfOk result (λ made. IsKnown (R.plain roads.new) (left_in made).end.id.0) }
{
    let recovering = Recovering { end, incoming };
    answered(alloc, roads, book, recovering, &op)
}

/// Books a request that the end has taken, sends its answer, and exchanges the end.
pub(crate) fn answered<I: LinkIn, O: LinkOut, R: Roads<Inward = I, Outward = O>, F: Files>(
    alloc: Global,
    roads: &mut R,
    book: &mut ReplicaBook<F>,
    recovering: Recovering<I, O>,
    op: &RecoveryOp,
) -> Result<Outcome<Recovering<I, O>>, RecoveryFault>
    requires { IsKnown (R.plain roads.old) recovering.end.id.0 }
    ensures ends { Answers F.Files R.Roads I.LinkIn O.LinkOut
        op.now recovering book.old book.new roads.old roads.new result }
    ensures pass { RoadsPass R.Roads roads.old roads.new }
{
    let Recovering { end, incoming } = recovering;
    let mut end = end;
    match serve_recovery(alloc, book, op, &mut end.outward) {
        RecoveryTold::Sent(served) => {
            let left = Recovering { end, incoming };
            handed_back(alloc, roads, left, &served)
        }
        RecoveryTold::LinkFailed(_) => Err(broken(alloc, roads, end)),
        RecoveryTold::Memory => Err(RecoveryFault::Memory),
    }
}

/// An end that was exchanged after its answer, by how the request was served.
fn handed_back<I: LinkIn, O: LinkOut, R: Roads<Inward = I, Outward = O>>(
    alloc: Global,
    roads: &mut R,
    recovering: Recovering<I, O>,
    served: &RecoveryServed,
) -> Result<Outcome<Recovering<I, O>>, RecoveryFault>
    requires { IsKnown (R.plain roads.old) recovering.end.id.0 }
    ensures ends { HandsBack R.Roads I.LinkIn O.LinkOut served.now recovering roads.old roads.new result }
    ensures pass { RoadsPass R.Roads roads.old roads.new }
{
    let Recovering { end, incoming } = recovering;
    match exchanged(alloc, roads, end, None) {
        Ok(end) => Ok(outcome_of(served, Recovering { end, incoming })),
        Err(fault) => Err(fault),
    }
}

/// The outcome, by how a request was served.
fn outcome_of<I: LinkIn, O: LinkOut>(
    served: &RecoveryServed,
    left: Recovering<I, O>,
) -> Outcome<Recovering<I, O>>
    ensures { result ≡ outcome_of served.now left }
{
    match served {
        RecoveryServed::File(_, _) => Outcome::Faulted(left),
        RecoveryServed::Answered(_, _) | RecoveryServed::Unbooked(_) | RecoveryServed::Memory => {
            Outcome::Done(left)
        }
    }
}
