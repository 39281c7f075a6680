//! The setup of a member, up to its answer.

ghost use Rattle.std.specs.Prelude.{◌≡◌, ◌==◌, length, Some, Ok, Err, IfOk, IfErr};
ghost use Rattle.hd_base.specs.Ends.{IsKnown};
ghost use Rattle.replica_core.specs.Views.{rule_in};
ghost use Rattle.replica_files.specs.Events.{IsSetup};
ghost use Rattle.member_core.specs.Requests.{request_event};
ghost use Rattle.pipe_setup.specs.Reaching.{Loses};
ghost use Rattle.pipe_setup.specs.Refusals.{refusal_of, IsUnbooked, IsBefore};
ghost use Rattle.pipe_setup.specs.Setups.{SetsUp, SetsUpBy, GoesOn, booked_in};

use crate::reaching::{Reached, reach_mirror};
use crate::refusals::SetupRefusal;
use hd_base::{Conn, ConnId, Files, LinkOut, NodeId, Receipt, RoadError, Roads};
use member_core::{RequestRefusal, request_event};
use op_headers::WriteOp;
use replica_core::Event;
use replica_files::{BookFault, ReplicaBook};
use std::alloc::Global;

/// How a write request was set up. The receipt names the entry of the book.
#[derive(Drop)]
pub enum Setup<I, O> {
    /// It was booked, and this is the last member.
    Last(Receipt),
    /// It was booked, and the request was sent to the mirror on this end.
    Mirrored(Receipt, Conn<I, O>),
    /// It was booked, and the mirror can't be had: its port is none or the request to it too long, its dial wasn't answered,
    /// or the count of faults of the roads or of the new link rose. Only in the last case was the dial answered.
    MirrorDown { receipt: Receipt, answered: bool },
    /// The member refuses the request.
    Refused(SetupRefusal),
    /// A call on the replica's files failed, and the drawer's count of faults rose.
    File(Receipt),
    /// Memory ran out. Nothing was booked, or the request was booked and only the dial, the request to the mirror, or
    /// bringing back an end on which it wasn't sent found no memory; a connection that was dialled is shut.
    Memory { booked: Option<Receipt> },
}

/// Sets up a write request of a connection at a node: refuses it, or books it, dials the first target and sends it the
/// request that goes on.
pub fn setup_local<F: Files, R: Roads>(
    alloc: Global,
    node: NodeId,
    book: &mut ReplicaBook<F>,
    op: &WriteOp,
    conn: ConnId,
    roads: &mut R,
) -> Setup<R::Inward, R::Outward>
    ensures { SetsUp F.Files R.Roads R.Inward.LinkIn R.Outward.LinkOut
        conn node op.now book.old book.new roads.old roads.new result }
{
    match event_of(conn, book, op) {
        Ok(event) => set_up_by(alloc, node, book, op, event, roads),
        Err(refusal) => Setup::Refused(refusal),
    }
}

/// The event that a request is at the replica, or why it is refused before.
fn event_of<F: Files>(
    conn: ConnId,
    book: &ReplicaBook<F>,
    op: &WriteOp,
) -> Result<Event, SetupRefusal>
    ensures event { IfOk result (λ e. request_event conn op.now (rule_in book.now.replica) ≡ Ok e) }
    ensures setup { IfOk result IsSetup }
    ensures refused { IfErr result (λ why.
        request_event conn op.now (rule_in book.now.replica) ≡ Err (refusal_of why)) }
    ensures unbooked { IfErr result IsUnbooked }
{
    match request_event(conn, op, book.replica().rule()) {
        Ok(event) => Ok(event),
        Err(refusal) => Err(unbooked(refusal)),
    }
}

/// Why a request is refused before the replica is asked.
fn unbooked(refusal: RequestRefusal) -> SetupRefusal
    requires { IsBefore refusal }
    ensures same { refusal_of result ≡ refusal }
    ensures unbooked { IsUnbooked result }
{
    match refusal {
        RequestRefusal::Stage { stage } => SetupRefusal::Stage { stage },
        RequestRefusal::Pool => SetupRefusal::Pool,
        RequestRefusal::Checksum { kind, chunk } => SetupRefusal::Checksum { kind, chunk },
        RequestRefusal::TooMany { targets } => SetupRefusal::TooMany { targets },
        RequestRefusal::Core(_) | RequestRefusal::File | RequestRefusal::Memory => unreachable!(),
    }
}

/// Books the event of a request, and lets the request go on.
fn set_up_by<F: Files, R: Roads>(
    alloc: Global,
    node: NodeId,
    book: &mut ReplicaBook<F>,
    op: &WriteOp,
    event: Event,
    roads: &mut R,
) -> Setup<R::Inward, R::Outward>
    requires { IsSetup event }
    ensures { SetsUpBy F.Files R.Roads R.Inward.LinkIn R.Outward.LinkOut
        node op.now event book.old book.new roads.old roads.new result }
{
    match book.setup(&event) {
        Ok(receipt) => go_on(alloc, node, op, receipt, roads),
        Err(fault) => match fault {
            BookFault::Refused(refusal, receipt) => {
                Setup::Refused(SetupRefusal::Core(refusal, receipt))
            }
            BookFault::File(receipt) => Setup::File(receipt),
            BookFault::Memory => Setup::Memory { booked: None },
        },
    }
}

/// Lets a request that was booked go on to the mirror, if there is one.
pub fn go_on<R: Roads>(
    alloc: Global,
    node: NodeId,
    op: &WriteOp,
    receipt: Receipt,
    roads: &mut R,
) -> Setup<R::Inward, R::Outward>
    ensures booked { booked_in result ≡ Some (Ok receipt) }
    ensures goes_on { GoesOn R.Roads R.Inward.LinkIn R.Outward.LinkOut node op.now roads.old roads.new result }
{
    if is_last(op) {
        return Setup::Last(receipt);
    }
    match reach_mirror(alloc, node, op, roads) {
        Reached::Asked(end) => Setup::Mirrored(receipt, end),
        Reached::Unsent(end) => match lose(alloc, roads, end) {
            Ok(()) => Setup::MirrorDown {
                receipt,
                answered: true,
            },
            Err(_) => Setup::Memory {
                booked: Some(receipt),
            },
        },
        Reached::NotDialled => Setup::MirrorDown {
            receipt,
            answered: false,
        },
        Reached::Memory => Setup::Memory {
            booked: Some(receipt),
        },
    }
}

/// Shuts an end on which the request wasn't sent, and brings it back.
fn lose<R: Roads>(
    alloc: Global,
    roads: &mut R,
    end: Conn<R::Inward, R::Outward>,
) -> Result<(), RoadError>
    requires { IsKnown (R.plain roads.old) end.id.0 }
    ensures { Loses R.Roads R.Inward.LinkIn R.Outward.LinkOut end roads.old roads.new result }
{
    let mut end = end;
    end.outward.shut();
    roads.bring(alloc, end)
}

/// Whether a request is of the last member.
fn is_last(op: &WriteOp) -> bool
    ensures { result ≡ (length op.now.targets == 0) }
{
    op.targets.is_empty()
}
