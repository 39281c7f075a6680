//! A step of a block recovery at a member, answered on its connection.

ghost use Rattle.std.specs.Prelude.{◌≡◌, ◌<◌, IfOk, IfSome, IsSome, OnOk, option_map};
ghost use Rattle.link_pieces.specs.Pieces.{SendsNothing};
ghost use Rattle.recovery_core.specs.declared.members.RecoveryReply.TheVariants as RecoveryReply;
ghost use Rattle.recovery_core.specs.Members.{answer_of};
ghost use Rattle.replica_model.specs.declared.events.ReplicaEvent.TheVariants as ReplicaEvent;
ghost use Rattle.request_refusals.specs.declared.refusals.RequestRefusal.TheVariants as RequestRefusal;
ghost use Rattle.block_recovery.specs.Serving.{IsStep, Serves, ServesEvent, AnswersUnbooked};
ghost use Rattle.block_recovery.specs.Telling.{
  IsAnswerText,
  text_len,
  served_in,
  answer_in,
  Tells,
};

use crate::foretelling::foretold;
use crate::serving::{RecoveryServed, book_event};
use hd_base::{Files, LinkOut};
use link_pieces::{send_piece, take_room};
use op_headers::{RecoveryAnswer, RecoveryOp, encode_answer};
use recovery_core::{RecoveryReply, recovery_answer, recovery_event, reply_to};
use replica_core::Event;
use replica_files::{BookFault, ReplicaBook};
use request_refusals::RequestRefusal;
use std::alloc::{AllocError, Global};

/// How a step of a block recovery was served, and answered on its connection.
#[derive(Debug, Drop)]
pub enum RecoveryTold {
    /// It was served so, and the answer was sent.
    Sent(RecoveryServed),
    /// It was served so, and the link failed before the answer was sent; its count of faults rose, and it is shut.
    LinkFailed(RecoveryServed),
    /// Memory ran out. Nothing was booked or sent.
    Memory,
}

/// An answer, and how it is written, where it may be.
#[derive(Debug, Drop)]
struct WrittenAnswer {
    answer: RecoveryAnswer,
    text: Option<Vec<u8>>,
}

/// The answers that a step may have, written before it is booked.
#[derive(Debug, Drop)]
struct WrittenAnswers {
    /// The replica's.
    replica: WrittenAnswer,
    /// That a call on its files failed.
    failed: WrittenAnswer,
}

/// Serves a step of a block recovery at a member: books it, and sends its answer as one piece. Memory is taken first,
/// so that a step that was booked is answered, unless the link fails. After an answer the connection goes on, whatever
/// was answered.
pub fn serve_recovery<F: Files, O: LinkOut>(
    alloc: Global,
    book: &mut ReplicaBook<F>,
    op: &RecoveryOp,
    outward: &mut O,
) -> RecoveryTold
    ensures serves { Serves F.Files op.now book.old book.new (served_in result) }
    ensures tells { Tells O.LinkOut result outward.old outward.new }
{
    match recovery_event(op) {
        Ok(event) => tell_event(alloc, book, &event, outward),
        Err(reply) => tell_unbooked(alloc, reply, outward),
    }
}

/// Sends the answer to a step of which nothing is booked.
fn tell_unbooked<O: LinkOut>(alloc: Global, reply: RecoveryReply, outward: &mut O) -> RecoveryTold
    ensures serves { AnswersUnbooked reply (served_in result) }
    ensures tells { Tells O.LinkOut result outward.old outward.new }
{
    let Ok(written) = write_answer(alloc, reply) else {
        return RecoveryTold::Memory;
    };
    let len = text_len(&written.text);
    if take_room(alloc, outward, len).is_err() {
        return RecoveryTold::Memory;
    }
    let WrittenAnswer { answer, text } = written;
    tell(RecoveryServed::Unbooked(answer), &text, outward)
}

/// Books a step, and sends its answer.
fn tell_event<F: Files, O: LinkOut>(
    alloc: Global,
    book: &mut ReplicaBook<F>,
    event: &Event,
    outward: &mut O,
) -> RecoveryTold
    requires { IsStep event.now }
    ensures serves { ServesEvent F.Files (ReplicaEvent.Other event.now) book.old book.new (served_in result) }
    ensures tells { Tells O.LinkOut result outward.old outward.new }
{
    let answer = foretold(book.replica(), event);
    let Ok(written) = write_answers(alloc, reply_to(answer)) else {
        return RecoveryTold::Memory;
    };
    if make_room(alloc, &written, outward).is_err() {
        return RecoveryTold::Memory;
    }
    let WrittenAnswers { replica, failed } = written;
    match book_event(book, event) {
        Ok(receipt) => {
            let served = RecoveryServed::Answered(replica.answer, receipt);
            tell(served, &replica.text, outward)
        }
        Err(BookFault::Refused(_, receipt)) => {
            let served = RecoveryServed::Answered(replica.answer, receipt);
            tell(served, &replica.text, outward)
        }
        Err(BookFault::File(receipt)) => {
            let served = RecoveryServed::File(failed.answer, receipt);
            tell(served, &failed.text, outward)
        }
        Err(BookFault::Memory) => RecoveryTold::Memory,
    }
}

/// Sends an answer for which there is room, where it may be written. Where the link fails, it is shut.
fn tell<O: LinkOut>(served: RecoveryServed, text: &Option<Vec<u8>>, outward: &mut O) -> RecoveryTold
    requires answered { IsSome (answer_in served) }
    requires written { IfSome (answer_in served) (λ a. IsAnswerText a (option_map (λ t. t.items) text.now)) }
    requires room { text_len (option_map (λ t. t.items) text.now) < O.room outward.old }
    ensures served { served_in result ≡ served }
    ensures tells { Tells O.LinkOut result outward.old outward.new }
{
    let Some(text) = text else {
        return RecoveryTold::Sent(served);
    };
    match send_piece(outward, text) {
        Ok(_) => RecoveryTold::Sent(served),
        Err(_) => {
            outward.shut();
            RecoveryTold::LinkFailed(served)
        }
    }
}

/// Writes the answers that a step may have.
fn write_answers(alloc: Global, reply: RecoveryReply) -> Result<WrittenAnswers, AllocError>
    ensures replica { IfOk result (λ made. made.replica.answer ≡ answer_of reply) }
    ensures failed { IfOk result (λ made. made.failed.answer ≡ answer_of (RecoveryReply.Refused RequestRefusal.File)) }
    ensures text { IfOk result (λ made. IsAnswerText made.replica.answer
        (option_map (λ t. t.items) made.replica.text)) }
    ensures failed_text { IfOk result (λ made. IsAnswerText made.failed.answer
        (option_map (λ t. t.items) made.failed.text)) }
{
    let replica = write_answer(alloc, reply)?;
    let failed = write_answer(alloc, RecoveryReply::Refused(RequestRefusal::File))?;
    Ok(WrittenAnswers { replica, failed })
}

/// Writes an answer.
fn write_answer(alloc: Global, reply: RecoveryReply) -> Result<WrittenAnswer, AllocError>
    ensures answer { IfOk result (λ made. made.answer ≡ answer_of reply) }
    ensures text { IfOk result (λ made. IsAnswerText made.answer (option_map (λ t. t.items) made.text)) }
{
    let answer = recovery_answer(alloc, reply)?;
    let text = answer_text(alloc, &answer)?;
    Ok(WrittenAnswer { answer, text })
}

/// An answer as it is written, `None` where it isn't one that may be written.
fn answer_text(alloc: Global, answer: &RecoveryAnswer) -> Result<Option<Vec<u8>>, AllocError>
    ensures { IfOk result (λ found. IsAnswerText answer.now (option_map (λ text. text.items) found)) }
{
    if !answer.is_encodable(alloc)? {
        return Ok(None);
    }
    let mut text = Vec::new(alloc);
    encode_answer(answer, &mut text)?;
    Ok(Some(text))
}

/// Takes the room for either answer.
fn make_room<O: LinkOut>(
    alloc: Global,
    written: &WrittenAnswers,
    outward: &mut O,
) -> Result<(), AllocError>
    ensures replica { OnOk result (text_len (option_map (λ t. t.items) written.now.replica.text) < O.room outward.new) }
    ensures failed { OnOk result (text_len (option_map (λ t. t.items) written.now.failed.text) < O.room outward.new) }
    ensures quiet { SendsNothing O.LinkOut outward.old outward.new }
{
    let len = text_len(&written.replica.text).max(text_len(&written.failed.text));
    take_room(alloc, outward, len)
}

/// How long a text is, if there is one.
fn text_len(text: &Option<Vec<u8>>) -> usize
    ensures { result ≡ text_len (option_map (λ t. t.items) text.now) }
{
    match text {
        Some(text) => text.len(),
        None => 0,
    }
}
