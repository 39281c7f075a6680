//! Writing requests.

ghost use Rattle.std.specs.Prelude.{◌≡◌, ◌≤◌, ◌↔◌, ◌++◌, length, take, OnOk, OnErr, IfOk, IsTrue};
ghost use Rattle.proto_fields.specs.Frames.{limit};
ghost use Rattle.op_headers.specs.Requests.{
  SpellsOp,
  IsLawfulStep,
  IsEncodable,
  OpFits,
  ReadsOp,
  op_code,
  op_message,
  op_text,
};

use crate::op_writing::{push_checksum, push_read, push_recovery, push_transfer, push_write};
use crate::opcodes::Opcode;
use crate::ops::{Op, RecoveryKind};
use proto_fields::{MAX_MESSAGE_SIZE, cut_back, put_number};
use std::alloc::{AllocError, Global};

/// Appends a request: the version, the opcode, the message's length and the message, its fields in
/// ascending number and each varint in its least spelling. Of fields that may be left out it
/// writes numBytes always, source where it is there, newLength in an `Update`, and sendChecksums
/// never. The message has at most 65,536 bytes; of a recovery step, the length is 0 unless it is
/// an `Update`, and there are no targets unless it is a `Begin`: `Op::is_encodable` tests this. Want of
/// memory leaves `out` as it was.
pub fn encode_op(op: &Op, out: &mut Vec<u8>) -> Result<(), AllocError>
    requires within_limit { length (op_message op.now) ≤ limit }
    requires step { IsLawfulStep op.now }
    ensures ok { OnOk result (out.new.items ≡ out.old.items ++ op_text op.now) }
    ensures err { OnErr result (out.new.items ≡ out.old.items) }
    ensures spelled { OnOk result (SpellsOp op.now (op_text op.now)) }
    ensures again { OnOk result (ReadsOp out.old.items out.new.items op.now) }
{
    let before = out.len();
    let done = push_request(op, out);
    cut_back(out, before, done)
}

impl Op {
    /// Whether `encode_op` may write the request. It writes the message into a list of its own to
    /// see its length, so it may want memory.
    pub fn is_encodable(&self, alloc: Global) -> Result<bool, AllocError>
        ensures { IfOk result (λ may. IsTrue may ↔ IsEncodable self.now) }
    {
        if !is_lawful_step(self) {
            return Ok(false);
        }
        let mut message = Vec::new(alloc);
        push_message(self, &mut message)?;
        Ok(message.len() as u64 <= MAX_MESSAGE_SIZE)
    }
}

/// Whether a step of a recovery has a length only if it is an `Update`, and targets only if it is
/// a `Begin`.
fn is_lawful_step(op: &Op) -> bool
    ensures { IsTrue result ↔ IsLawfulStep op.now }
{
    let Op::Recovery(step) = op else {
        return true;
    };
    match step.kind {
        RecoveryKind::Begin => step.new_length == 0,
        RecoveryKind::Init => step.new_length == 0 && step.targets.is_empty(),
        RecoveryKind::Update => step.targets.is_empty(),
    }
}

/// Appends the head, the length of the message and the message.
fn push_request(op: &Op, out: &mut Vec<u8>) -> Result<(), AllocError>
    ensures ok { OnOk result (out.new.items ≡ out.old.items ++ op_text op.now) }
    ensures front { take (length out.old.items) out.new.items ≡ out.old.items }
    ensures fits { OnOk result (OpFits op.now) }
{
    let mut message = Vec::new(*out.allocator());
    push_message(op, &mut message)?;
    out.extend_from_slice(&[0, 28, code_of(op).number()])?;
    put_number(out, message.len() as u64)?;
    out.extend_from_slice(message.as_slice())
}

/// The opcode of a request.
fn code_of(op: &Op) -> Opcode
    ensures { result ≡ op_code op.now }
{
    match op {
        Op::Write(_) => Opcode::WriteBlock,
        Op::Read(_) => Opcode::ReadBlock,
        Op::Transfer(_) => Opcode::TransferBlock,
        Op::Checksum(_) => Opcode::BlockChecksum,
        Op::Recovery(_) => Opcode::Custom,
    }
}

/// Appends the message of a request.
fn push_message(op: &Op, out: &mut Vec<u8>) -> Result<(), AllocError>
    ensures ok { OnOk result (out.new.items ≡ out.old.items ++ op_message op.now) }
    ensures fits { OnOk result (OpFits op.now) }
{
    match op {
        Op::Write(op) => push_write(op, out),
        Op::Read(op) => push_read(op, out),
        Op::Transfer(op) => push_transfer(op, out),
        Op::Checksum(op) => push_checksum(op, out),
        Op::Recovery(op) => push_recovery(op, out),
    }
}
