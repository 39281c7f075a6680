//! Reading requests.

ghost use Rattle.std.specs.Prelude.{◌≡◌, ℕ, ◌+◌, ◌≤◌, List, [], ◌++◌, length, take, Ok, Err, IfOk, IfErr};
ghost use Rattle.hd_base.specs.Results.{read_of, with_cause, Gives, FailsFor};
ghost use Rattle.op_headers.specs.declared.ops.Op.{Op};
ghost use Rattle.op_headers.specs.declared.faults.OpFault.{OpFault};
ghost use Rattle.op_headers.specs.Requests.{SpellsOp, IsRefusedOp, op_at, head_at, request_at};

use crate::faults::OpFault;
use crate::messages::Message;
use crate::opcodes::Opcode;
use crate::ops::{ChecksumOp, Op, ReadOp, RecoveryOp, TransferOp, WriteOp};
use crate::paths::Decoded;
use byteorder::{BigEndian, ByteOrder};
use proto_fields::read_frame;
use std::alloc::Global;

/// The version of the data transfer protocol.
const VERSION: u16 = 28;

/// How many bytes version and opcode have.
const HEAD: usize = 3;

/// Reads the request at the front of the bytes, and how many bytes it has. A message has at most
/// 65,536 bytes.
pub fn decode_op(alloc: Global, bytes: &[u8]) -> Result<(Op, usize), OpFault>
    // What is read is spelled there, what is spelled there is read, whatever follows, and no
    // spelling is a proper prefix of another.
    ensures found { IfOk result (λ x. SpellsOp x.0 (take x.1 bytes.now)) }
    ensures within { IfOk result (λ x. x.1 ≤ length bytes.now) }
    ensures only { (op : Op) (text rest : List ℕ) → SpellsOp op text → bytes.now ≡ text ++ rest
        → Gives OpFault.Memory result (Ok (op, length text)) }
    ensures prefix { (a b : Op) (text more : List ℕ) → SpellsOp a text → SpellsOp b (text ++ more) → more ≡ [] }

    // The fault is the one that stands there, and the one that stands there comes, unless memory
    // runs out.
    ensures refused { IfErr result (λ e. FailsFor OpFault.Memory IsRefusedOp e bytes.now) }
    ensures refuses { (e : OpFault) → IsRefusedOp e bytes.now → Gives OpFault.Memory result (Err e) }

    // The same as a function of the bytes.
    ensures exact { Gives OpFault.Memory result (request_at bytes.now) }
{
    framed_op(alloc, bytes)
}

/// Reads the head, the frame behind it and the request in it.
#[tactic(auto, unfolding(crate::specs::Requests::request_at, proto_fields::specs::Framed::framed_at))]
fn framed_op(alloc: Global, bytes: &[u8]) -> Result<(Op, usize), OpFault>
    ensures { Gives OpFault.Memory result (request_at bytes.now) }
{
    let (code, rest) = head_of(bytes)?;
    let (message, size) = read_frame(rest)?;
    let op = op_of(alloc, code, message)?;
    Ok((op, HEAD + size))
}

/// Reads version and opcode.
#[tactic(auto, unfolding(crate::specs::Requests::head_at))]
fn head_of(bytes: &[u8]) -> Result<(Opcode, &[u8]), OpFault>
    ensures exact { read_of result ≡ head_at bytes.now }
    ensures rest { IfOk result (λ h. 3 + length h.1.now ≡ length bytes.now) }
{
    let [_, _, behind @ ..] = bytes else {
        return Err(OpFault::Short);
    };
    let got = BigEndian::read_u16(&bytes[..2]);
    if got != VERSION {
        return Err(OpFault::Version { got });
    }
    let [number, rest @ ..] = behind else {
        return Err(OpFault::Short);
    };
    match Opcode::with_number(*number) {
        Some(code) => Ok((code, rest)),
        None => Err(OpFault::Opcode { got: *number }),
    }
}

/// The request that the message of this opcode says.
#[tactic(auto, unfolding(crate::specs::Requests::op_at))]
fn op_of(alloc: Global, code: Opcode, message: &[u8]) -> Result<Op, OpFault>
    ensures { Gives OpFault.Memory result (op_at code message.now) }
{
    match code {
        Opcode::WriteBlock => Ok(Op::Write(whole(WriteOp::read(alloc, message)?)?)),
        Opcode::ReadBlock => Ok(Op::Read(whole(ReadOp::read(alloc, message)?)?)),
        Opcode::BlockChecksum => Ok(Op::Checksum(whole(ChecksumOp::read(alloc, message)?)?)),
        Opcode::TransferBlock => Ok(Op::Transfer(whole(TransferOp::read(alloc, message)?)?)),
        Opcode::Custom => Ok(Op::Recovery(whole(RecoveryOp::read(alloc, message)?)?)),
    }
}

/// What is decoded, or the fault of the field that is missing.
fn whole<T: Drop>(decoded: Decoded<T>) -> Result<T, OpFault>
    ensures { result ≡ with_cause OpFault.Missing decoded }
{
    match decoded {
        Ok(value) => Ok(value),
        Err(path) => Err(OpFault::Missing { path }),
    }
}
