//! A turn of a member over its two connections.

ghost use Rattle.std.specs.Prelude.{◌≡◌, length, option_map, Some, IfOk};
ghost use Rattle.block_receiver.specs.AckCodec.AckTexts.{ack_text};
ghost use Rattle.pipe_turns.specs.Turning.{CanBook, IsListed, IsSpelled};
ghost use Rattle.pipe_turns.specs.Acting.{
  Acts,
  ShutsEnd,
  ShutsMirror,
  texts_of,
  answer_text,
  sized_response,
  IsPlain,
  booked_of,
  shuts_up,
  shuts_below,
};

use crate::turning::{Done, perform};
use block_receiver::{
    Ack, AckBytes, Booked, Member as Core, ReplicaBook, Response, SetupAnswer, Shuts, Turn, Upward,
    WriteOp, encode_ack, encode_response, response,
};
use bytes::Bytes;
use hd_base::{Conn, Files, LinkOut};
use std::alloc::{AllocError, Global};

/// A turn that is to be done. Where it books a packet and the bytes are known in which that came, they are kept with it:
/// then the packet can go on as it came.
#[derive(Debug, Drop)]
pub struct SpelledTurn {
    /// The turn.
    pub turn: Turn,
    /// The bytes that spell its packet.
    pub spelling: Option<Bytes>,
}

/// Does a turn of a member: its call on the book, what is sent then, what follows of it for the member, and what is shut.
pub fn act<F: Files, I: Drop, O: LinkOut>(
    alloc: Global,
    book: &mut ReplicaBook<F>,
    op: &WriteOp,
    core: &mut Core,
    due: SpelledTurn,
    upstream: &mut Conn<I, O>,
    mirror: &mut Option<Conn<I, O>>,
) -> (Done, Shuts)
    requires book { CanBook (length book.old.replica.pending) due.turn.call }
    requires listed { IsListed due.turn.effect.sends }
    requires spelled { IsSpelled due.turn.call due.spelling }
    ensures { Acts F.Files O.LinkOut op.now due.turn core.old core.new book.old book.new
        upstream.old upstream.new mirror.old mirror.new result }
{
    let SpelledTurn { turn, spelling } = due;
    let Ok(text) = upward_text(alloc, op, &turn.effect.sends) else {
        return (Done::Memory, Shuts::Nothing);
    };
    let done = perform(
        alloc,
        book,
        &turn.call,
        &spelling,
        &text,
        &mut upstream.outward,
        mirror,
    );
    let Some(booked) = booked_of(&done) else {
        return (done, Shuts::Nothing);
    };
    let effect = core.settle(turn, booked);
    shut_upstream(effect.shuts, upstream);
    shut_mirror(effect.shuts, mirror);
    (done, effect.shuts)
}

/// How the book took the call, as the member's rules are told; `None` where memory ran out.
fn booked_of(done: &Done) -> Option<Booked>
    ensures { result ≡ booked_of done.now }
{
    match done {
        Done::Taken { .. } | Done::MirrorFailed(_) | Done::LinkFailed { .. } => Some(Booked::Taken),
        Done::Refused(refusal, _) => Some(Booked::Refused(*refusal)),
        Done::File(_) => Some(Booked::Failed),
        Done::Memory => None,
    }
}

/// Shuts the connection from above, where both are shut.
fn shut_upstream<I: Drop, O: LinkOut>(shuts: Shuts, end: &mut Conn<I, O>)
    ensures { ShutsEnd O.LinkOut (shuts_up shuts) end.old end.new }
{
    if matches!(shuts, Shuts::Both) {
        end.outward.shut();
    }
}

/// Shuts the connection to the mirror, where one is shut and there is one.
fn shut_mirror<I: Drop, O: LinkOut>(shuts: Shuts, mirror: &mut Option<Conn<I, O>>)
    ensures { ShutsMirror O.LinkOut (shuts_below shuts) mirror.old mirror.new }
{
    if matches!(shuts, Shuts::Nothing) {
        return;
    }
    if let Some(end) = mirror {
        end.outward.shut();
    }
}

/// What goes up, as it is written; nothing where nothing goes up, or where an answer is too long to be one.
pub fn upward_text(
    alloc: Global,
    op: &WriteOp,
    sends: &Option<Upward>,
) -> Result<Option<Vec<u8>>, AllocError>
    requires { IsListed sends.now }
    ensures { IfOk result (λ text. option_map (λ t. t.items) text ≡ texts_of op.now sends.now) }
{
    let Some(message) = sends else {
        return Ok(None);
    };
    match message {
        Upward::Ack(ack) => Ok(Some(ack_bytes(alloc, ack)?)),
        Upward::Answer(answer) => answer_bytes(alloc, op, answer),
    }
}

/// An ack as it is written.
fn ack_bytes(alloc: Global, ack: &Ack) -> Result<Vec<u8>, AllocError>
    requires { IsListed (Some (Upward.Ack ack.now)) }
    ensures { IfOk result (λ text. text.items ≡ ack_text ack.now) }
{
    let mut bytes = AckBytes::new();
    encode_ack(ack, &mut bytes);
    let mut text = Vec::new(alloc);
    text.extend_from_slice(bytes.as_slice())?;
    Ok(text)
}

/// The answer to a request as it is written, where it isn't too long.
fn answer_bytes(
    alloc: Global,
    op: &WriteOp,
    answer: &SetupAnswer,
) -> Result<Option<Vec<u8>>, AllocError>
    ensures { IfOk result (λ text. option_map (λ t. t.items) text ≡ answer_text op.now answer.now) }
{
    let response = response(alloc, op, duplicate(answer)?)?;
    sized_text(alloc, &response)
}

/// A response as it is written, where it isn't too long.
fn sized_text(alloc: Global, response: &Response) -> Result<Option<Vec<u8>>, AllocError>
    requires { IsPlain response.now }
    ensures { IfOk result (λ text. option_map (λ t. t.items) text ≡ sized_response response.now) }
{
    if !response.is_encodable(alloc)? {
        return Ok(None);
    }
    let mut text = Vec::new(alloc);
    encode_response(response, &mut text)?;
    Ok(Some(text))
}

/// The same answer once more.
fn duplicate(answer: &SetupAnswer) -> Result<SetupAnswer, AllocError>
    ensures { IfOk result (λ copy. copy ≡ answer.now) }
{
    let copy = match answer {
        SetupAnswer::Success => SetupAnswer::Success,
        SetupAnswer::Unreached => SetupAnswer::Unreached,
        SetupAnswer::Below { first_bad } => SetupAnswer::Below {
            first_bad: first_bad.duplicate()?,
        },
        SetupAnswer::Refused(refusal) => SetupAnswer::Refused(*refusal),
    };
    Ok(copy)
}
