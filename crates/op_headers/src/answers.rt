//! Answers to steps of block recovery.

ghost use Rattle.std.specs.Prelude.{
  ◌≡◌,
  ◌<◌,
  ℕ,
  ◌≤◌,
  ◌^◌,
  ◌↔◌,
  List,
  [],
  ◌++◌,
  length,
  take,
  Ok,
  Err,
  IfOk,
  IfErr,
  OnOk,
  OnErr,
  IfSome,
  IsTrue,
};
ghost use Rattle.hd_base.specs.Wire.{IsStatus};
ghost use Rattle.hd_base.specs.Wire.{decoded_status};
ghost use Rattle.proto_fields.specs.Frames.{limit};
ghost use Rattle.hd_base.specs.Results.{with_cause, with_value, Gives, FailsFor};
ghost use Rattle.proto_fields.specs.Writing.{varint_field, bytes_field};
ghost use Rattle.op_headers.specs.Paths.{both};
ghost use Rattle.op_headers.specs.Tables.{decoded_field, if_there, Required, Default, Optional};
ghost use Rattle.op_headers.specs.declared.faults.AnswerFault.{AnswerFault};
ghost use Rattle.op_headers.specs.declared.answers.RecoveryAnswer.{RecoveryAnswer};
ghost use Rattle.op_headers.specs.Answers.{
  answer_from,
  info_from,
  answer_format,
  answer_text,
  info_text,
  state_with,
  message_to_encode,
  missing_field,
  answer_of,
  answer_at,
  SpellsAnswer,
  IsRefusedAnswer,
  IsEncodable,
  ReadsAnswer,
};

use crate::faults::AnswerFault;
use crate::messages::{Message, UINT32, small_under, text_under};
use crate::paths::{Decoded, required};
use hd_base::{ByteList, ReplicaState, Stamp, Status};
use proto_fields::{
    FieldsFault, MAX_MESSAGE_SIZE, cut_back, fields, put_bytes, put_number, put_varint, read_frame,
};
use std::alloc::{AllocError, Global};

/// How many states of replicas there are.
const STATES: u64 = 5;

/// The answer to a step of block recovery. An empty text stands for one that isn't there.
#[derive(Debug, Drop, PartialEq, Eq)]
pub struct RecoveryAnswer {
    /// How the step was taken.
    pub status: Status,
    /// Why it was refused.
    pub message: ByteList,
    /// The replica's state, its generation stamp and its length in bytes, where all three are decoded.
    pub info: Option<(ReplicaState, Stamp, u64)>,
}

impl Message for RecoveryAnswer {
    ghost use Rattle.op_headers.specs.Answers.{answer_format};

    ghost format = { answer_format };

    #[tactic(auto, unfolding(crate::specs::Answers::answer_format))]
    fn read(alloc: Global, bytes: &[u8]) -> Result<Decoded<RecoveryAnswer>, FieldsFault> {
        let listed = fields(alloc, bytes)?;
        let status = small_under(&listed, 1, UINT32);
        let message = text_under(alloc, bytes, 2, &listed)?;
        let message = message.unwrap_or(ByteList::from_vec(Vec::new(alloc)));
        let state = small_under(&listed, 3, STATES);
        let stamp = listed.number(4);
        let length = listed.number(5);
        Ok(decoded_answer(status, message, state, stamp, length))
    }
}

/// The answer that these fields tell.
fn decoded_answer(
    status: Option<u32>,
    message: ByteList,
    state: Option<u32>,
    stamp: Option<u64>,
    length: Option<u64>,
) -> Decoded<RecoveryAnswer>
    ensures { result ≡ with_value answer_from
        (both (decoded_field Required 1 status) (Ok (message, (state, (stamp, (length, tt)))))) }
{
    let status = required(1, status)?;
    Ok(RecoveryAnswer {
        status: Status::from_varint(u64::from(status)),
        message,
        info: info_of(state, stamp, length),
    })
}

/// What is decoded of a replica, where all of it is there.
fn info_of(
    state: Option<u32>,
    stamp: Option<u64>,
    length: Option<u64>,
) -> Option<(ReplicaState, Stamp, u64)>
    ensures { result ≡ info_from state stamp length }
{
    Some((state_of(state?), Stamp(stamp?), length?))
}

/// The state with this number, the last from 4 on.
fn state_of(number: u32) -> ReplicaState
    ensures { result ≡ state_with number }
{
    match number {
        0 => ReplicaState::Finalized,
        1 => ReplicaState::Rbw,
        2 => ReplicaState::Rwr,
        3 => ReplicaState::Rur,
        _ => ReplicaState::Temporary,
    }
}

/// Reads the answer at the front of the bytes, and how many bytes it has. A message has at most
/// 65,536 bytes.
pub fn decode_answer(alloc: Global, bytes: &[u8]) -> Result<(RecoveryAnswer, usize), AnswerFault>
    // What is read is spelled there, what is spelled there is read, whatever follows, and no
    // spelling is a proper prefix of another.
    ensures found { IfOk result (λ x. SpellsAnswer x.0 (take x.1 bytes.now)) }
    ensures within { IfOk result (λ x. x.1 ≤ length bytes.now) }
    ensures only { (answer : RecoveryAnswer) (text rest : List ℕ) → SpellsAnswer answer text → bytes.now ≡ text ++ rest
        → Gives AnswerFault.Memory result (Ok (answer, length text)) }
    ensures prefix { (a b : RecoveryAnswer) (text more : List ℕ) → SpellsAnswer a text → SpellsAnswer b (text ++ more)
        → more ≡ [] }

    // The fault is the one that stands there, and the one that stands there comes, unless memory
    // runs out.
    ensures refused { IfErr result (λ e. FailsFor AnswerFault.Memory IsRefusedAnswer e bytes.now) }
    ensures refuses { (e : AnswerFault) → IsRefusedAnswer e bytes.now → Gives AnswerFault.Memory result (Err e) }

    // The status is no `Other` in place of one that is listed.
    ensures listed { IfOk result (λ x. IsStatus x.0.status) }

    // The same as a function of the bytes.
    ensures exact { Gives AnswerFault.Memory result (answer_at bytes.now) }
{
    framed_answer(alloc, bytes)
}

/// Reads the frame at the front and the answer in it.
#[tactic(auto, unfolding(proto_fields::specs::Framed::framed_at, crate::specs::Answers::answer_of))]
fn framed_answer(alloc: Global, bytes: &[u8]) -> Result<(RecoveryAnswer, usize), AnswerFault>
    ensures { Gives AnswerFault.Memory result (answer_at bytes.now) }
{
    let (message, size) = read_frame(bytes)?;
    let answer = whole(RecoveryAnswer::read(alloc, message)?)?;
    Ok((answer, size))
}

/// What is decoded, or the fault of the field that is missing.
fn whole(decoded: Decoded<RecoveryAnswer>) -> Result<RecoveryAnswer, AnswerFault>
    ensures { result ≡ with_cause missing_field decoded }
{
    match decoded {
        Ok(answer) => Ok(answer),
        Err(path) => Err(AnswerFault::Missing {
            field: u32::from(path[0]),
        }),
    }
}

/// Appends an answer: the length of its message and the message, its fields in ascending number
/// and each varint in its least spelling, the text where it isn't empty. The message has at most
/// 65,536 bytes, and the status is no `Other` in place of one that is listed. Want of memory
/// leaves `out` as it was.
pub fn encode_answer(answer: &RecoveryAnswer, out: &mut Vec<u8>) -> Result<(), AllocError>
    requires listed { IsStatus answer.now.status }
    requires within_limit { length (answer_format.text answer.now) ≤ limit }
    ensures ok { OnOk result (out.new.items ≡ out.old.items ++ answer_text answer.now) }
    ensures err { OnErr result (out.new.items ≡ out.old.items) }
    ensures again { OnOk result (ReadsAnswer out.old.items out.new.items answer.now) }
{
    let before = out.len();
    let done = push_answer(answer, out);
    cut_back(out, before, done)
}

impl RecoveryAnswer {
    /// Whether `encode_answer` may write the answer. It writes the message into a list of its own to
    /// see its length, so it may want memory.
    pub fn is_encodable(&self, alloc: Global) -> Result<bool, AllocError>
        ensures { IfOk result (λ may. IsTrue may ↔ IsEncodable self.now) }
    {
        if !is_listed(self.status) {
            return Ok(false);
        }
        let mut message = Vec::new(alloc);
        push_message(self, &mut message)?;
        Ok(message.len() as u64 <= MAX_MESSAGE_SIZE)
    }

    /// The same answer once more.
    pub fn duplicate(&self) -> Result<RecoveryAnswer, AllocError>
        ensures { IfOk result (λ copy. copy ≡ self.now) }
    {
        Ok(RecoveryAnswer {
            status: self.status,
            message: self.message.duplicate()?,
            info: self.info,
        })
    }
}

/// Whether the status is no `Other` in place of one that is listed.
fn is_listed(status: Status) -> bool
    ensures { IsTrue result ↔ IsStatus status }
{
    match status {
        Status::Other(number) => number > 7,
        _ => true,
    }
}

/// Appends the length of the message and the message.
fn push_answer(answer: &RecoveryAnswer, out: &mut Vec<u8>) -> Result<(), AllocError>
    ensures ok { OnOk result (out.new.items ≡ out.old.items ++ answer_text answer.now) }
    ensures front { take (length out.old.items) out.new.items ≡ out.old.items }
    ensures fits { OnOk result (IsStatus answer.now.status → answer_format.fits answer.now) }
{
    let mut message = Vec::new(*out.allocator());
    push_message(answer, &mut message)?;
    put_number(out, message.len() as u64)?;
    out.extend_from_slice(message.as_slice())
}

/// Appends the message of an answer.
#[tactic(auto, unfolding(crate::specs::Answers::answer_format))]
fn push_message(answer: &RecoveryAnswer, out: &mut Vec<u8>) -> Result<(), AllocError>
    ensures ok { OnOk result (out.new.items ≡ out.old.items ++ answer_format.text answer.now) }
    ensures fits { OnOk result (IsStatus answer.now.status → answer_format.fits answer.now) }
{
    put_varint(out, 1, u64::from(answer.status.number()))?;
    put_text(answer.message.as_slice(), out)?;
    put_info(answer.info, out)
}

/// Appends the text, where it isn't empty.
fn put_text(text: &[u8], out: &mut Vec<u8>) -> Result<(), AllocError>
    ensures { OnOk result (out.new.items ≡ out.old.items ++ if_there (bytes_field 2) (message_to_encode text.now)) }
{
    match text {
        [] => Ok(()),
        _ => put_bytes(out, 2, text),
    }
}

/// Appends state, stamp and length, where they are decoded.
fn put_info(info: Option<(ReplicaState, Stamp, u64)>, out: &mut Vec<u8>) -> Result<(), AllocError>
    ensures ok { OnOk result (out.new.items ≡ out.old.items ++ info_text info) }
    ensures fits { OnOk result (IfSome info (λ i. (i.1.0 < 2 ^ 64) × (i.2 < 2 ^ 64))) }
{
    let Some((state, stamp, length)) = info else {
        return Ok(());
    };
    put_varint(out, 3, u64::from(state.number()))?;
    put_varint(out, 4, stamp.0)?;
    put_varint(out, 5, length)
}
