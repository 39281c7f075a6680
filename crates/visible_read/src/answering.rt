//! The answer to a read.

ghost use Rattle.std.specs.Prelude.{◌≡◌, option_map, Err, Some, IfOk, OnOk};
ghost use Rattle.link_pieces.specs.Pieces.{SendsNothing};
ghost use Rattle.request_refusals.specs.declared.refusals.RequestRefusal.TheVariants as RequestRefusal;
ghost use Rattle.replica_core.specs.declared.events.Answer.TheVariants as Answer;
ghost use Rattle.replica_core.specs.declared.events.Event.TheVariants as Event;
ghost use Rattle.replica_core.specs.Transitions.{answer_to};
ghost use Rattle.replica_core.specs.Views.{rule_in};
ghost use Rattle.read_core.specs.Servings.{begun_as, read_event};
ghost use Rattle.pipe_turns.specs.Acting.{sized_response};
ghost use Rattle.visible_read.specs.Sendings.{HasRoom};
ghost use Rattle.visible_read.specs.Answers.{
  Answers,
  IsAsked,
  Refuses,
  Tells,
  TellsIf,
  IsWritten,
  begun_with,
  receipt_in,
  visible_answer,
  IsSendable,
  answering,
  answered,
  told,
  served_as,
  wanting,
  ended,
};
ghost use Rattle.visible_read.specs.Sound.{IsBegun, IsSound};

use crate::sending::{Sending, make_room, send_text, text_len};
use ack_codec::{Response, encode_response};
use frame_feed::Message;
use hd_base::{Files, LinkOut, Receipt};
use link_pieces::take_room;
use op_headers::ReadOp;
use pipe_turns::{BookFault, ReplicaBook};
use read_core::{Serving as CoreServing, read_event, refusal_response};
use replica_core::{Refusal, Replica};
use request_refusals::RequestRefusal;
use std::alloc::{AllocError, Global};

/// How far the serving of a read is.
#[derive(Clone, Copy, Debug)]
pub enum Course {
    /// The request is to be answered.
    Asked,
    /// It was answered SUCCESS, and a packet is to be sent.
    Sending(CoreServing),
    /// It has ended.
    Over,
}

/// How the serving of a read ended.
#[derive(Clone, Copy, Debug, PartialEq, Eq)]
pub enum Served {
    /// The answer and so many packets were sent, the empty last one among them.
    Sent { packets: u64 },
    /// The block is of another block pool, which is tried first; this was answered, and nothing booked.
    Pool,
    /// The replica refused the request, which was answered so, or the bytes of a packet, and nothing more is sent.
    Refused(Refusal),
    /// A call on the replica's files failed, and the drawer's count of faults rose; or the files, where they are not
    /// observable, held fewer bytes than the replica has.
    File,
    /// The link failed, and its count of faults rose.
    LinkFailed,
    /// Memory ran out; the last step booked and sent nothing.
    Memory,
}

/// What a step did: the entry of the book, what was sent, how far the read is, and how it ended, where it did.
#[derive(Debug, Drop)]
pub struct Took {
    pub receipt: Option<Receipt>,
    pub reply: Option<Message>,
    pub course: Course,
    pub served: Option<Served>,
}

/// An answer, and how it is written, where it isn't too long.
#[derive(Debug, Drop)]
struct WrittenResponse {
    response: Response,
    text: Option<Vec<u8>>,
}

/// The answers that a read may have, written before it is booked.
#[derive(Debug, Drop)]
struct WrittenResponses {
    /// The replica's.
    replica: WrittenResponse,
    /// That a call on its files failed.
    failed: WrittenResponse,
}

/// Answers a read: books it, where its block is of the pool, and sends the answer. Memory for the answer is taken first.
pub(crate) fn answer<F: Files, O: LinkOut>(
    alloc: Global,
    book: &mut ReplicaBook<F>,
    op: &ReadOp,
    out: &mut O,
) -> Took
    ensures answers { Answers F.Files O.LinkOut op.now book.old book.new out.old out.new result }
    ensures sound { IsSound result.course }
{
    match read_event(op) {
        Ok(_) => ask(alloc, book, op, out),
        Err(refusal) => refuse(alloc, refusal, out),
    }
}

/// Sends the answer to a read that isn't booked.
fn refuse<O: LinkOut>(alloc: Global, refusal: RequestRefusal, out: &mut O) -> Took
    ensures tells { Refuses O.LinkOut refusal out.old out.new result }
    ensures sound { IsSound result.course }
{
    let Ok(written) = write_response(alloc, &Err(refusal)) else {
        return wanting(Course::Asked);
    };
    if make_room(alloc, &written.text, out).is_err() {
        return wanting(Course::Asked);
    }
    tell(Err(refusal), written, None, out)
}

/// Books a read whose block is of the pool, and sends the answer.
fn ask<F: Files, O: LinkOut>(
    alloc: Global,
    book: &mut ReplicaBook<F>,
    op: &ReadOp,
    out: &mut O,
) -> Took
    requires { IsAsked op.now }
    ensures answers { Answers F.Files O.LinkOut op.now book.old book.new out.old out.new result }
    ensures sound { IsSound result.course }
{
    let begun = foretold(op, book.replica());
    let Ok(written) = write_responses(alloc, &begun) else {
        return wanting(Course::Asked);
    };
    if make_rooms(alloc, &written, out).is_err() {
        return wanting(Course::Asked);
    }
    let booked = book.admit_read(op.block.stamp, op.offset, op.len);
    follow(begun, booked, written, out)
}

/// Sends the answer to a read, by what the book answered.
fn follow<O: LinkOut>(
    begun: Result<CoreServing, RequestRefusal>,
    booked: Result<Receipt, BookFault>,
    written: WrittenResponses,
    out: &mut O,
) -> Took
    requires begun { IsBegun begun }
    requires replica { IsWritten begun written.replica.response (option_map (λ t. t.items) written.replica.text) }
    requires failed { IsWritten (Err RequestRefusal.File) written.failed.response
        (option_map (λ t. t.items) written.failed.text) }
    requires replica_room { HasRoom (option_map (λ t. t.items) written.replica.text) (O.room out.old) }
    requires failed_room { HasRoom (option_map (λ t. t.items) written.failed.text) (O.room out.old) }
    ensures tells { TellsIf O.LinkOut (begun_with begun booked) (receipt_in (Some booked)) out.old out.new result }
    ensures sound { IsSound result.course }
{
    let WrittenResponses { replica, failed } = written;
    match booked {
        Ok(receipt) => tell(begun, replica, Some(receipt), out),
        Err(BookFault::Refused(_, receipt)) => tell(begun, replica, Some(receipt), out),
        Err(BookFault::File(receipt)) => {
            tell(Err(RequestRefusal::File), failed, Some(receipt), out)
        }
        Err(BookFault::Memory) => wanting(Course::Asked),
    }
}

/// How a read begins at the replica, before it is booked.
fn foretold(op: &ReadOp, replica: &Replica) -> Result<CoreServing, RequestRefusal>
    ensures value { result ≡ begun_as op.now (rule_in replica.now)
        (answer_to replica.now (Event.Read op.now.block.stamp op.now.offset op.now.len)) }
    ensures sound { IsBegun result }
{
    match admitted(op, replica) {
        Ok(visible) => begin(op, replica, visible),
        Err(refusal) => Err(RequestRefusal::Core(refusal)),
    }
}

/// How many bytes of the replica are visible, where it takes the read.
#[tactic(auto, unfolding(replica_core::specs::Transitions::transition))]
fn admitted(op: &ReadOp, replica: &Replica) -> Result<u64, Refusal>
    ensures { answer_to replica.now (Event.Read op.now.block.stamp op.now.offset op.now.len)
        ≡ visible_answer result }
{
    if replica.is_broken() {
        return Err(Refusal::Broken);
    }
    match replica.info() {
        Some(info) => info.readable(op.block.stamp, op.offset, op.len),
        None => Err(Refusal::NoReplica),
    }
}

/// A read that the replica takes, of which so many bytes are visible: it ends there.
fn begin(op: &ReadOp, replica: &Replica, visible: u64) -> Result<CoreServing, RequestRefusal>
    ensures value { result ≡ begun_as op.now (rule_in replica.now) (Answer.Visible visible) }
    ensures sound { IsBegun result }
{
    let Some(rule) = replica.rule() else {
        return Err(RequestRefusal::File);
    };
    let _chunk = rule.chunk();
    Ok(CoreServing::begin(op, rule, visible))
}

/// Sends the answer to a read, for which there is room.
fn tell<O: LinkOut>(
    begun: Result<CoreServing, RequestRefusal>,
    written: WrittenResponse,
    receipt: Option<Receipt>,
    out: &mut O,
) -> Took
    requires begun { IsBegun begun }
    requires written { IsWritten begun written.response (option_map (λ t. t.items) written.text) }
    requires room { HasRoom (option_map (λ t. t.items) written.text) (O.room out.old) }
    ensures tells { Tells O.LinkOut begun receipt out.old out.new result }
    ensures sound { IsSound result.course }
{
    let WrittenResponse { response, text } = written;
    let sending = send_text(&text, out);
    told(begun, response, receipt, sending)
}

/// Takes the room for either answer.
fn make_rooms<O: LinkOut>(
    alloc: Global,
    written: &WrittenResponses,
    out: &mut O,
) -> Result<(), AllocError>
    ensures replica { OnOk result (HasRoom (option_map (λ t. t.items) written.now.replica.text) (O.room out.new)) }
    ensures failed { OnOk result (HasRoom (option_map (λ t. t.items) written.now.failed.text) (O.room out.new)) }
    ensures quiet { SendsNothing O.LinkOut out.old out.new }
{
    let len = text_len(&written.replica.text).max(text_len(&written.failed.text));
    take_room(alloc, out, len)
}

/// Writes the answers that a read may have.
fn write_responses(
    alloc: Global,
    begun: &Result<CoreServing, RequestRefusal>,
) -> Result<WrittenResponses, AllocError>
    ensures replica { IfOk result (λ x.
        IsWritten begun.now x.replica.response (option_map (λ t. t.items) x.replica.text)) }
    ensures failed { IfOk result (λ x.
        IsWritten (Err RequestRefusal.File) x.failed.response (option_map (λ t. t.items) x.failed.text)) }
{
    let replica = write_response(alloc, begun)?;
    let failed = write_response(alloc, &Err(RequestRefusal::File))?;
    Ok(WrittenResponses { replica, failed })
}

/// The answer to a read, and how it is written, where it isn't too long.
fn write_response(
    alloc: Global,
    begun: &Result<CoreServing, RequestRefusal>,
) -> Result<WrittenResponse, AllocError>
    ensures { IfOk result (λ x. IsWritten begun.now x.response (option_map (λ t. t.items) x.text)) }
{
    let response = response_of(alloc, begun)?;
    let text = sized_text(alloc, &response)?;
    Ok(WrittenResponse { response, text })
}

/// The answer to a read.
fn response_of(
    alloc: Global,
    begun: &Result<CoreServing, RequestRefusal>,
) -> Result<Response, AllocError>
    ensures { IfOk result (λ response. response ≡ answering begun.now) }
{
    match begun {
        Ok(core) => Ok(core.response(alloc)),
        Err(refusal) => refusal_response(alloc, *refusal),
    }
}

/// A response as it is written, where it isn't too long.
fn sized_text(alloc: Global, response: &Response) -> Result<Option<Vec<u8>>, AllocError>
    requires { IsSendable response.now }
    ensures { IfOk result (λ text. option_map (λ t. t.items) text ≡ sized_response response.now) }
{
    if !response.is_encodable(alloc)? {
        return Ok(None);
    }
    let mut text = Vec::new(alloc);
    encode_response(response, &mut text)?;
    Ok(Some(text))
}

/// What follows of the answer.
fn told(
    begun: Result<CoreServing, RequestRefusal>,
    response: Response,
    receipt: Option<Receipt>,
    sending: Sending,
) -> Took
    requires { IsBegun begun }
    ensures value { result ≡ told begun response receipt sending }
    ensures sound { IsSound result.course }
{
    match sending {
        Sending::Sent => answered(begun, Message::Response(response), receipt),
        Sending::LinkFailed => ended(receipt, None, Served::LinkFailed),
    }
}

/// What follows once the answer was sent.
fn answered(
    begun: Result<CoreServing, RequestRefusal>,
    reply: Message,
    receipt: Option<Receipt>,
) -> Took
    requires { IsBegun begun }
    ensures value { result ≡ answered begun reply receipt }
    ensures sound { IsSound result.course }
{
    match begun {
        Ok(core) => Took {
            receipt,
            reply: Some(reply),
            course: Course::Sending(core),
            served: None,
        },
        Err(refusal) => ended(receipt, Some(reply), served_as(refusal)),
    }
}

/// How a read ended that was refused so.
fn served_as(refusal: RequestRefusal) -> Served
    ensures { result ≡ served_as refusal }
{
    match refusal {
        RequestRefusal::Pool => Served::Pool,
        RequestRefusal::Core(refusal) => Served::Refused(refusal),
        _ => Served::File,
    }
}

/// Memory ran out before anything was booked: the read stays where it is.
pub(crate) fn wanting(course: Course) -> Took
    ensures { result ≡ wanting course }
{
    Took {
        receipt: None,
        reply: None,
        course,
        served: Some(Served::Memory),
    }
}

/// The read has ended.
pub(crate) fn ended(receipt: Option<Receipt>, reply: Option<Message>, served: Served) -> Took
    ensures { result ≡ ended receipt reply served }
{
    Took {
        receipt,
        reply,
        course: Course::Over,
        served: Some(served),
    }
}
