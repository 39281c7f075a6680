//! Reading acks, read statuses and responses.

ghost use Rattle.std.specs.Prelude.{◌≡◌, ℕ, ◌≤◌, List, [], ◌++◌, length, take, All, Ok, Err, IfOk, IfErr};
ghost use Rattle.hd_base.specs.Results.{Gives, FailsFor};
ghost use Rattle.hd_base.specs.Wire.{IsStatus};
ghost use Rattle.hd_base.specs.declared.states.Status.{Status};
ghost use Rattle.ack_codec.specs.declared.acks.Ack.{Ack};
ghost use Rattle.ack_codec.specs.declared.faults.AckFault.{AckFault};
ghost use Rattle.ack_codec.specs.declared.faults.ResponseFault.{ResponseFault};
ghost use Rattle.ack_codec.specs.declared.responses.Response.{Response};
ghost use Rattle.ack_codec.specs.Acks.{SpellsAck, SpellsReadStatus, ack_at, read_status_at};
ghost use Rattle.ack_codec.specs.AckRefusals.{IsRefusedAck, IsRefusedReadStatus};
ghost use Rattle.ack_codec.specs.Responses.{SpellsResponse, response_at};
ghost use Rattle.ack_codec.specs.ResponseRefusals.{IsRefusedResponse};

use crate::acks::Ack;
use crate::faults::{AckFault, ResponseFault};
use crate::reading::{ack_of, read_status_of};
use crate::response_reading::response_of;
use crate::responses::Response;
use hd_base::Status;
use proto_fields::read_frame;
use std::alloc::Global;

/// Reads the ack at the front of the bytes, and how many bytes it has. A message has at most
/// 65,536 bytes, and an ack at most 16 replies. It takes no memory.
pub fn decode_ack(bytes: &[u8]) -> Result<(Ack, usize), AckFault>
    // What is read is spelled there, what is spelled there is read, whatever follows, and no
    // spelling is a proper prefix of another.
    ensures found { IfOk result (λ x. SpellsAck x.0 (take x.1 bytes.now)) }
    ensures within { IfOk result (λ x. x.1 ≤ length bytes.now) }
    ensures only { (ack : Ack) (text rest : List ℕ) → SpellsAck ack text → bytes.now ≡ text ++ rest
        → result ≡ Ok (ack, length text) }
    ensures prefix { (a b : Ack) (text more : List ℕ) → SpellsAck a text → SpellsAck b (text ++ more) → more ≡ [] }

    // The fault is the one that stands there, and the one that stands there comes.
    ensures refused { IfErr result (λ e. IsRefusedAck e bytes.now) }
    ensures refuses { (e : AckFault) → IsRefusedAck e bytes.now → result ≡ Err e }

    // No reply is an `Other` in place of a status that is listed.
    ensures listed { IfOk result (λ x. All IsStatus x.0.replies) }

    // The same as a function of the bytes.
    ensures exact { result ≡ ack_at bytes.now }
{
    framed_ack(bytes)
}

/// Reads the frame at the front and the ack in it.
#[tactic(auto, unfolding(proto_fields::specs::Framed::framed_at))]
fn framed_ack(bytes: &[u8]) -> Result<(Ack, usize), AckFault>
    ensures { result ≡ ack_at bytes.now }
{
    let (message, size) = read_frame(bytes)?;
    let ack = ack_of(message)?;
    Ok((ack, size))
}

/// Reads the status at the front of the bytes that a reader answers with (HDFS
/// `ClientReadStatusProto`), and how many bytes it has. A message has at most 65,536 bytes.
/// `Replies` never comes. It takes no memory.
pub fn decode_read_status(bytes: &[u8]) -> Result<(Status, usize), AckFault>
    // What is read is spelled there, what is spelled there is read, whatever follows, and no
    // spelling is a proper prefix of another.
    ensures found { IfOk result (λ x. SpellsReadStatus x.0 (take x.1 bytes.now)) }
    ensures within { IfOk result (λ x. x.1 ≤ length bytes.now) }
    ensures only { (status : Status) (text rest : List ℕ) → SpellsReadStatus status text → bytes.now ≡ text ++ rest
        → result ≡ Ok (status, length text) }
    ensures prefix { (a b : Status) (text more : List ℕ) → SpellsReadStatus a text → SpellsReadStatus b (text ++ more)
        → more ≡ [] }

    // The fault is the one that stands there, and the one that stands there comes.
    ensures refused { IfErr result (λ e. IsRefusedReadStatus e bytes.now) }
    ensures refuses { (e : AckFault) → IsRefusedReadStatus e bytes.now → result ≡ Err e }

    // The status is no `Other` in place of one that is listed.
    ensures listed { IfOk result (λ x. IsStatus x.0) }

    // The same as a function of the bytes.
    ensures exact { result ≡ read_status_at bytes.now }
{
    framed_read_status(bytes)
}

/// Reads the frame at the front and the status in it.
#[tactic(auto, unfolding(proto_fields::specs::Framed::framed_at))]
fn framed_read_status(bytes: &[u8]) -> Result<(Status, usize), AckFault>
    ensures { result ≡ read_status_at bytes.now }
{
    let (message, size) = read_frame(bytes)?;
    let status = read_status_of(message)?;
    Ok((status, size))
}

/// Reads the response at the front of the bytes, and how many bytes it has. A message has at most
/// 65,536 bytes.
pub fn decode_response(alloc: Global, bytes: &[u8]) -> Result<(Response, usize), ResponseFault>
    // What is read is spelled there, what is spelled there is read, whatever follows, and no
    // spelling is a proper prefix of another.
    ensures found { IfOk result (λ x. SpellsResponse x.0 (take x.1 bytes.now)) }
    ensures within { IfOk result (λ x. x.1 ≤ length bytes.now) }
    ensures only { (response : Response) (text rest : List ℕ) → SpellsResponse response text → bytes.now ≡ text ++ rest
        → Gives ResponseFault.Memory result (Ok (response, length text)) }
    ensures prefix { (a b : Response) (text more : List ℕ) → SpellsResponse a text → SpellsResponse b (text ++ more)
        → more ≡ [] }

    // The fault is the one that stands there, and the one that stands there comes, unless memory
    // runs out.
    ensures refused { IfErr result (λ e. FailsFor ResponseFault.Memory IsRefusedResponse e bytes.now) }
    ensures refuses { (e : ResponseFault) → IsRefusedResponse e bytes.now → Gives ResponseFault.Memory result (Err e) }

    // The status is no `Other` in place of one that is listed.
    ensures listed { IfOk result (λ x. IsStatus x.0.status) }

    // The same as a function of the bytes.
    ensures exact { Gives ResponseFault.Memory result (response_at bytes.now) }
{
    framed_response(alloc, bytes)
}

/// Reads the frame at the front and the response in it.
#[tactic(auto, unfolding(proto_fields::specs::Framed::framed_at))]
fn framed_response(alloc: Global, bytes: &[u8]) -> Result<(Response, usize), ResponseFault>
    ensures { Gives ResponseFault.Memory result (response_at bytes.now) }
{
    let (message, size) = read_frame(bytes)?;
    let response = response_of(alloc, message)?;
    Ok((response, size))
}
