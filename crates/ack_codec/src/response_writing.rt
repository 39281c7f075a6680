//! Writing responses.

ghost use Rattle.std.specs.Prelude.{
  ◌≡◌,
  ◌^◌,
  ◌<◌,
  ◌≤◌,
  ◌↔◌,
  [],
  ◌++◌,
  length,
  take,
  OnOk,
  OnErr,
  IfOk,
  IsSome,
  IsTrue,
};
ghost use Rattle.hd_base.specs.Wire.{IsStatus, status_number};
ghost use Rattle.proto_fields.specs.Writing.{bytes_field};
ghost use Rattle.proto_fields.specs.Frames.{limit};
ghost use Rattle.ack_codec.specs.Responses.{SpellsResponse};
ghost use Rattle.ack_codec.specs.ResponseTexts.{
  checksum_text,
  info_text,
  body_text,
  reason_text,
  response_message,
  response_text,
  HasListedKind,
  HasWidths,
  IsEncodable,
  ReadsResponse,
};

use crate::responses::Response;
use hd_base::{Status, SumKind};
use proto_fields::{MAX_MESSAGE_SIZE, cut_back, put_bytes, put_number, put_varint};
use std::alloc::{AllocError, Global};

/// Appends a response: status, then firstBadLink, also where it is empty, where no sums begin and
/// readOpChecksumInfo where they do, and message where it isn't empty. Its message has at most
/// 65,536 bytes, where sums begin there is no firstBadLink and their kind is at most 2, and the
/// status is no `Other` in place of one that is listed: `Response::is_encodable` tests this. Want
/// of memory leaves `out` as it was.
pub fn encode_response(response: &Response, out: &mut Vec<u8>) -> Result<(), AllocError>
    requires listed { IsStatus response.now.status }
    requires no_link { IsSome response.now.sums_from → response.now.first_bad ≡ [] }
    requires listed_kind { HasListedKind response.now.sums_from }
    requires within_limit { length (response_message response.now) ≤ limit }
    ensures ok { OnOk result (out.new.items ≡ out.old.items ++ response_text response.now) }
    ensures err { OnErr result (out.new.items ≡ out.old.items) }
    ensures spelled { OnOk result (SpellsResponse response.now (response_text response.now)) }
    ensures again { OnOk result (ReadsResponse out.old.items out.new.items response.now) }
{
    let before = out.len();
    let done = push_response(response, out);
    cut_back(out, before, done)
}

impl Response {
    /// Whether `encode_response` may write the response. It writes the message into a list of its
    /// own to see its length, so it may want memory.
    pub fn is_encodable(&self, alloc: Global) -> Result<bool, AllocError>
        ensures { IfOk result (λ may. IsTrue may ↔ IsEncodable self.now) }
    {
        if !is_listed(self.status) || !has_lawful_sums(self.sums_from, self.first_bad.as_slice()) {
            return Ok(false);
        }
        let mut message = Vec::new(alloc);
        push_message(self, &mut message)?;
        Ok(message.len() as u64 <= MAX_MESSAGE_SIZE)
    }
}

/// Whether the status is no `Other` in place of one that is listed.
fn is_listed(status: Status) -> bool
    ensures { IsTrue result ↔ IsStatus status }
{
    match status {
        Status::Other(number) => number > 7,
        _ => true,
    }
}

/// Whether sums begin nowhere, or are of a listed kind in a response without firstBadLink.
fn has_lawful_sums(sums_from: Option<(u32, u32, u64)>, first_bad: &[u8]) -> bool
    ensures { IsTrue result ↔ ((IsSome sums_from → first_bad.now ≡ []) × HasListedKind sums_from) }
{
    match sums_from {
        Some((kind, _, _)) => first_bad.is_empty() && SumKind::from_number(kind).is_some(),
        None => true,
    }
}

/// Appends the length of the message and the message.
fn push_response(response: &Response, out: &mut Vec<u8>) -> Result<(), AllocError>
    ensures ok { OnOk result (out.new.items ≡ out.old.items ++ response_text response.now) }
    ensures front { take (length out.old.items) out.new.items ≡ out.old.items }
    ensures status { OnOk result (status_number response.now.status < 2 ^ 32) }
    ensures widths { OnOk result (HasWidths response.now.sums_from) }
{
    let mut message = Vec::new(*out.allocator());
    push_message(response, &mut message)?;
    put_number(out, message.len() as u64)?;
    out.extend_from_slice(message.as_slice())
}

/// Appends the message of a response.
#[tactic(auto, unfolding(crate::specs::ResponseTexts::response_message))]
fn push_message(response: &Response, out: &mut Vec<u8>) -> Result<(), AllocError>
    ensures ok { OnOk result (out.new.items ≡ out.old.items ++ response_message response.now) }
    ensures status { OnOk result (status_number response.now.status < 2 ^ 32) }
    ensures widths { OnOk result (HasWidths response.now.sums_from) }
{
    put_varint(out, 1, u64::from(response.status.number()))?;
    push_body(response.sums_from, response.first_bad.as_slice(), out)?;
    push_reason(response.message.as_slice(), out)
}

/// Appends readOpChecksumInfo where sums begin, and else firstBadLink.
#[tactic(auto, unfolding(crate::specs::ResponseTexts::body_text))]
fn push_body(
    sums_from: Option<(u32, u32, u64)>,
    first_bad: &[u8],
    out: &mut Vec<u8>,
) -> Result<(), AllocError>
    ensures ok { OnOk result (out.new.items ≡ out.old.items ++ body_text sums_from first_bad.now) }
    ensures widths { HasWidths sums_from }
{
    match sums_from {
        Some((kind, chunk, offset)) => push_info(kind, chunk, offset, out),
        None => put_bytes(out, 2, first_bad),
    }
}

/// Appends readOpChecksumInfo.
#[tactic(auto, unfolding(crate::specs::ResponseTexts::info_text))]
fn push_info(kind: u32, chunk: u32, offset: u64, out: &mut Vec<u8>) -> Result<(), AllocError>
    ensures ok { OnOk result (out.new.items ≡ out.old.items ++ bytes_field 4 (info_text (kind, chunk, offset))) }
    ensures widths { (chunk < 2 ^ 32) × (offset < 2 ^ 64) }
{
    let mut checksum = Vec::new(*out.allocator());
    push_checksum(kind, chunk, &mut checksum)?;
    let mut info = Vec::new(*out.allocator());
    put_bytes(&mut info, 1, checksum.as_slice())?;
    put_varint(&mut info, 2, offset)?;
    put_bytes(out, 4, info.as_slice())
}

/// Appends a kind of sums and how many bytes a chunk has.
#[tactic(auto, unfolding(crate::specs::ResponseTexts::checksum_text))]
fn push_checksum(kind: u32, chunk: u32, out: &mut Vec<u8>) -> Result<(), AllocError>
    ensures { OnOk result (out.new.items ≡ out.old.items ++ checksum_text kind chunk) }
{
    put_varint(out, 1, u64::from(kind))?;
    put_varint(out, 2, u64::from(chunk))
}

/// Appends message, where it isn't empty.
fn push_reason(message: &[u8], out: &mut Vec<u8>) -> Result<(), AllocError>
    ensures ok { OnOk result (out.new.items ≡ out.old.items ++ reason_text message.now) }
{
    if message.is_empty() {
        return Ok(());
    }
    put_bytes(out, 5, message)
}
