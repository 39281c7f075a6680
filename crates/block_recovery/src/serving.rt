//! A step of a block recovery at a member.

ghost use Rattle.std.specs.Prelude.{◌≡◌, IfOk};
ghost use Rattle.recovery_core.specs.declared.members.RecoveryReply.TheVariants as RecoveryReply;
ghost use Rattle.recovery_core.specs.Members.{answer_of};
ghost use Rattle.replica_model.specs.declared.events.ReplicaEvent.TheVariants as ReplicaEvent;
ghost use Rattle.replica_files.specs.Endings.{BookEnds};
ghost use Rattle.request_refusals.specs.declared.refusals.RequestRefusal.TheVariants as RequestRefusal;
ghost use Rattle.block_recovery.specs.Serving.{IsStep, Serves, ServesEvent, AnswersUnbooked};

use crate::foretelling::foretold;
use hd_base::{Files, Receipt};
use op_headers::{RecoveryAnswer, RecoveryOp};
use recovery_core::{RecoveryReply, recovery_answer, recovery_event, reply_to};
use replica_core::Event;
use replica_files::{BookFault, ReplicaBook};
use request_refusals::RequestRefusal;
use std::alloc::{AllocError, Global};

/// How a step of a block recovery was served. The receipt names the entry of the book.
#[derive(Debug, Drop)]
pub enum RecoveryServed {
    /// It was booked. The answer is SUCCESS, or the replica's refusal.
    Answered(RecoveryAnswer, Receipt),
    /// A call on the replica's files failed, and the drawer's count of faults rose.
    File(RecoveryAnswer, Receipt),
    /// Nothing was booked: the block is of another pool, or the step is a BEGIN, or an INIT with the id 0.
    Unbooked(RecoveryAnswer),
    /// Memory ran out. Nothing was booked.
    Memory,
}

/// The answers that a step may have, made before it is booked.
#[derive(Debug, Drop)]
struct Prepared {
    /// The replica's.
    answer: RecoveryAnswer,
    /// That a call on its files failed.
    failed: RecoveryAnswer,
}

/// Serves a step of a block recovery at a member: books it, and says how it is answered. Memory is taken first, so that
/// a step that was booked has its answer.
pub fn answer_recovery<F: Files>(
    alloc: Global,
    book: &mut ReplicaBook<F>,
    op: &RecoveryOp,
) -> RecoveryServed
    ensures { Serves F.Files op.now book.old book.new result }
{
    match recovery_event(op) {
        Ok(event) => answer_event(alloc, book, &event),
        Err(reply) => answer_unbooked(alloc, reply),
    }
}

/// The answer to a step of which nothing is booked.
fn answer_unbooked(alloc: Global, reply: RecoveryReply) -> RecoveryServed
    ensures { AnswersUnbooked reply result }
{
    match recovery_answer(alloc, reply) {
        Ok(answer) => RecoveryServed::Unbooked(answer),
        Err(_) => RecoveryServed::Memory,
    }
}

/// Books a step, and says how it is answered.
fn answer_event<F: Files>(alloc: Global, book: &mut ReplicaBook<F>, event: &Event) -> RecoveryServed
    requires { IsStep event.now }
    ensures { ServesEvent F.Files (ReplicaEvent.Other event.now) book.old book.new result }
{
    let answer = foretold(book.replica(), event);
    let Ok(prepared) = prepare(alloc, reply_to(answer)) else {
        return RecoveryServed::Memory;
    };
    match book_event(book, event) {
        Ok(receipt) => RecoveryServed::Answered(prepared.answer, receipt),
        Err(BookFault::Refused(_, receipt)) => RecoveryServed::Answered(prepared.answer, receipt),
        Err(BookFault::File(receipt)) => RecoveryServed::File(prepared.failed, receipt),
        Err(BookFault::Memory) => RecoveryServed::Memory,
    }
}

/// Makes the answers that a step may have.
fn prepare(alloc: Global, reply: RecoveryReply) -> Result<Prepared, AllocError>
    ensures answer { IfOk result (λ made. made.answer ≡ answer_of reply) }
    ensures failed { IfOk result (λ made. made.failed ≡ answer_of (RecoveryReply.Refused RequestRefusal.File)) }
{
    let answer = recovery_answer(alloc, reply)?;
    let failed = recovery_answer(alloc, RecoveryReply::Refused(RequestRefusal::File))?;
    Ok(Prepared { answer, failed })
}

/// Books a step.
pub(crate) fn book_event<F: Files>(
    book: &mut ReplicaBook<F>,
    event: &Event,
) -> Result<Receipt, BookFault>
    requires { IsStep event.now }
    ensures { BookEnds F.Files book.old book.new (ReplicaEvent.Other event.now) result }
{
    match *event {
        Event::Init { named, recovery } => match book.init(named, recovery) {
            Ok((_, receipt)) => Ok(receipt),
            Err(fault) => Err(fault),
        },
        Event::Update { recovery, length } => book.update(recovery, length),
        _ => unreachable!(),
    }
}
