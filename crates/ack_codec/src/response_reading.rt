//! The messages of responses.

ghost use Rattle.std.specs.Prelude.{◌≡◌, length, Ok, IfOk, IfErr, option_map};
ghost use Rattle.hd_base.specs.Results.{with_cause, with_value, Gives};
ghost use Rattle.proto_fields.specs.Fields.{fields_at};
ghost use Rattle.proto_fields.specs.Inner.{joined, inner, text_of, PlacedWithin};
ghost use Rattle.ack_codec.specs.Responses.{
  listed_kind,
  checksum_in,
  no_checksum,
  newer_checksum,
  found_sums_at,
  found_checksum_at,
  found_info_at,
  found_response_at,
  checked_sums,
  decoded_checksum,
  decoded_info,
  decoded_parts,
  response_of as response_said,
};

use crate::faults::ResponseFault;
use crate::responses::Response;
use hd_base::{ByteList, Status};
use proto_fields::{Fields, Wire, WireFault, fields, merged, next_field, text_at};
use std::alloc::Global;

/// The bound of a number of 32 bits.
const UINT32: u64 = 0x1_0000_0000;

/// How many kinds of sums there are.
const KINDS: u64 = 3;

/// What was found of a block's checksum (HDFS `OpBlockChecksumResponseProto`).
#[derive(Clone, Copy)]
struct FoundSums {
    per_crc: Option<u64>,
    crcs: Option<u64>,
    sum: Option<(u64, u64)>,
}

/// What was found of a kind of sums (HDFS `ChecksumProto`).
#[derive(Clone, Copy)]
struct FoundChecksum {
    kind: Option<u64>,
    chunk: Option<u64>,
}

/// What was found of the sums of a read's answer (HDFS `ReadOpChecksumInfoProto`).
#[derive(Clone, Copy)]
struct FoundInfo {
    checksum: Option<FoundChecksum>,
    offset: Option<u64>,
}

/// What was found of a response, its texts by their places.
#[derive(Clone, Copy)]
struct FoundResponse {
    status: Option<u64>,
    first_bad: Option<(u64, u64)>,
    sums: Option<FoundSums>,
    info: Option<FoundInfo>,
    message: Option<(u64, u64)>,
}

impl FoundChecksum {
    /// What is found once a field of this number and value is behind. A kind that isn't listed
    /// counts as a field that isn't there.
    fn after(self, number: u32, value: Wire) -> FoundChecksum
        ensures { result ≡ newer_checksum self (number, value) }
    {
        match (number, value) {
            (1, Wire::Varint(kind)) if kind % UINT32 < KINDS => FoundChecksum {
                kind: Some(kind),
                ..self
            },
            (2, Wire::Varint(chunk)) => FoundChecksum {
                chunk: Some(chunk),
                ..self
            },
            _ => self,
        }
    }
}

/// Reads the response that a message says: status in field 1, firstBadLink in field 2,
/// checksumResponse in field 3, which is whole but not kept, readOpChecksumInfo in field 4, and
/// message in field 5. A message within that is given several times
/// is its parts joined; of other fields the last counts. Unknown fields are skipped.
#[tactic(auto, unfolding(crate::specs::Responses::response_of))]
pub(crate) fn response_of(alloc: Global, message: &[u8]) -> Result<Response, ResponseFault>
    ensures { Gives ResponseFault.Memory result (response_said message.now) }
{
    let found = found_response(alloc, message)?;
    let (status, sums_from) = found.parts()?;
    Ok(Response {
        status,
        first_bad: text_or_empty(alloc, message, found.first_bad)?,
        sums_from,
        message: text_or_empty(alloc, message, found.message)?,
    })
}

/// The text at this place, which is empty where there is none.
fn text_or_empty(
    alloc: Global,
    message: &[u8],
    place: Option<(u64, u64)>,
) -> Result<ByteList, ResponseFault>
    requires { PlacedWithin (length message.now) place }
    ensures { Gives ResponseFault.Memory result (Ok (text_of message.now place)) }
{
    let text = text_at(alloc, message, place)?;
    Ok(text.unwrap_or(ByteList::from_vec(Vec::new(alloc))))
}

/// What a message has, and each message within it.
fn found_response(alloc: Global, message: &[u8]) -> Result<FoundResponse, ResponseFault>
    ensures found { Gives ResponseFault.Memory result (with_cause ResponseFault.Wire (found_response_at message.now)) }
    ensures first_bad { IfOk result (λ f. PlacedWithin (length message.now) f.first_bad) }
    ensures message { IfOk result (λ f. PlacedWithin (length message.now) f.message) }
{
    let listed = fields(alloc, message)?;
    let sums = sums_under(alloc, message, &listed)?;
    let info = info_under(alloc, message, &listed)?;
    Ok(FoundResponse {
        status: listed.number(1),
        first_bad: listed.part(2),
        sums,
        info,
        message: listed.part(5),
    })
}

/// What checksumResponse has, where it is there.
fn sums_under(
    alloc: Global,
    message: &[u8],
    listed: &Fields,
) -> Result<Option<FoundSums>, ResponseFault>
    requires { fields_at message.now ≡ Ok listed.now }
    ensures { Gives ResponseFault.Memory result
        (with_cause ResponseFault.Wire (inner found_sums_at (joined 3 message.now listed.now))) }
{
    let Some(bytes) = merged(alloc, message, 3, listed)? else {
        return Ok(None);
    };
    let listed = fields(alloc, bytes.as_slice())?;
    Ok(Some(FoundSums {
        per_crc: listed.number(1),
        crcs: listed.number(2),
        sum: listed.part(3),
    }))
}

/// What readOpChecksumInfo has, where it is there.
fn info_under(
    alloc: Global,
    message: &[u8],
    listed: &Fields,
) -> Result<Option<FoundInfo>, ResponseFault>
    requires { fields_at message.now ≡ Ok listed.now }
    ensures { Gives ResponseFault.Memory result
        (with_cause ResponseFault.Wire (inner found_info_at (joined 4 message.now listed.now))) }
{
    let Some(bytes) = merged(alloc, message, 4, listed)? else {
        return Ok(None);
    };
    let listed = fields(alloc, bytes.as_slice())?;
    let checksum = checksum_under(alloc, bytes.as_slice(), &listed)?;
    Ok(Some(FoundInfo {
        checksum,
        offset: listed.number(2),
    }))
}

/// What the checksum in a readOpChecksumInfo has, where it is there.
fn checksum_under(
    alloc: Global,
    message: &[u8],
    listed: &Fields,
) -> Result<Option<FoundChecksum>, ResponseFault>
    requires { fields_at message.now ≡ Ok listed.now }
    ensures { Gives ResponseFault.Memory result
        (with_cause ResponseFault.Wire (inner found_checksum_at (joined 1 message.now listed.now))) }
{
    let Some(bytes) = merged(alloc, message, 1, listed)? else {
        return Ok(None);
    };
    let found = found_checksum(bytes.as_slice())?;
    Ok(Some(found))
}

/// What a ChecksumProto has. It takes no memory.
fn found_checksum(bytes: &[u8]) -> Result<FoundChecksum, WireFault>
    ensures { result ≡ with_value checksum_in (fields_at bytes.now) }
{
    let mut found = FoundChecksum {
        kind: None,
        chunk: None,
    };
    let mut at = 0;
    while let Some((number, value, next)) = next_field(bytes, at)? {
        found = found.after(number, value);
        at = next;
    }
    Ok(found)
}

impl FoundResponse {
    /// The status and the sums, or the first required field that is missing.
    #[tactic(auto, unfolding(crate::specs::Responses::decoded_parts))]
    fn parts(self) -> Result<(Status, Option<(u32, u32, u64)>), ResponseFault>
        ensures { result ≡ with_cause ResponseFault.Missing (decoded_parts self) }
    {
        let number = self.status.ok_or(ResponseFault::Missing { field: 1 })?;
        if let Some(sums) = self.sums {
            sums.check()?;
        }
        let sums_from = match self.info {
            Some(info) => Some(info.sums_from()?),
            None => None,
        };
        Ok((Status::from_varint(number), sums_from))
    }
}

impl FoundSums {
    /// Whether a block's checksum has all that it must have.
    #[tactic(auto, unfolding(crate::specs::Responses::checked_sums))]
    fn check(self) -> Result<(), ResponseFault>
        ensures { result ≡ with_cause ResponseFault.Missing (checked_sums self) }
    {
        self.per_crc.ok_or(ResponseFault::Missing { field: 1 })?;
        self.crcs.ok_or(ResponseFault::Missing { field: 2 })?;
        self.sum.ok_or(ResponseFault::Missing { field: 3 })?;
        Ok(())
    }
}

impl FoundChecksum {
    /// The kind of the sums and how many bytes a chunk has: the low 32 bits of each.
    #[tactic(auto, unfolding(crate::specs::Responses::decoded_checksum))]
    fn kind_and_chunk(self) -> Result<(u32, u32), ResponseFault>
        ensures { result ≡ with_cause ResponseFault.Missing (decoded_checksum self) }
    {
        let kind = self.kind.ok_or(ResponseFault::Missing { field: 1 })?;
        let chunk = self.chunk.ok_or(ResponseFault::Missing { field: 2 })?;
        Ok(((kind % UINT32) as u32, (chunk % UINT32) as u32))
    }
}

impl FoundInfo {
    /// The kind of the sums, how many bytes a chunk has, and where in the block they begin.
    #[tactic(auto, unfolding(crate::specs::Responses::decoded_info))]
    fn sums_from(self) -> Result<(u32, u32, u64), ResponseFault>
        ensures { result ≡ with_cause ResponseFault.Missing (decoded_info self) }
    {
        let checksum = self.checksum.ok_or(ResponseFault::Missing { field: 1 })?;
        let (kind, chunk) = checksum.kind_and_chunk()?;
        let offset = self.offset.ok_or(ResponseFault::Missing { field: 2 })?;
        Ok((kind, chunk, offset))
    }
}
