//! What the fields of a message have: numbers, texts and messages.

ghost use Rattle.std.specs.Prelude.{◌≡◌, ◌<◌, ◌≤◌, ◌^◌, Ok, IfOk, IfSome};
ghost use Rattle.proto_fields.specs.Fields.{fields_at};
ghost use Rattle.hd_base.specs.Results.{with_cause, Gives};
ghost use Rattle.proto_fields.specs.Values.{picked, last_of};
ghost use Rattle.proto_fields.specs.Inner.{joined, inner};
ghost use Rattle.op_headers.specs.Tables.{Below, number_of, text_under as decoded_text};

use crate::paths::Decoded;
use hd_base::ByteList;
use proto_fields::{Fields, FieldsFault, Wire, merged, text_at};
use std::alloc::{AllocError, Global};

/// The bound of a number of 32 bits.
pub(crate) const UINT32: u64 = 0x1_0000_0000;

/// A type of message, which is read by its table.
pub(crate) trait Message: Drop {
    ghost use Rattle.std.specs.Prelude.{ℕ, List};
    ghost use Rattle.hd_base.specs.Results.{with_cause, Gives};
    ghost use Rattle.op_headers.specs.Tables.{Format};

    /// How it is read and written.
    ghost format: { Format Self };

    /// Reads the message: its value, or the first required field that is missing.
    fn read(alloc: Global, bytes: &[u8]) -> Result<Decoded<Self>, FieldsFault>
        ensures { Gives FieldsFault.Memory result (with_cause FieldsFault.Wire (format.read bytes.now)) };
}

/// The text under a field number: its last part.
pub(crate) fn text_under(
    alloc: Global,
    bytes: &[u8],
    field: u32,
    listed: &Fields,
) -> Result<Option<ByteList>, AllocError>
    requires { fields_at bytes.now ≡ Ok listed.now }
    ensures { IfOk result (λ text. text ≡ decoded_text field bytes.now listed.now) }
{
    text_at(alloc, bytes, listed.part(field))
}

/// The last number under a field number whose low 32 bits are below the bound.
pub(crate) fn small_under(listed: &Fields, field: u32, bound: u64) -> Option<u32>
    requires { bound ≤ 2 ^ 32 }
    ensures last { result ≡ last_of (number_of (Below bound)) field listed.now }
    ensures below { IfSome result (λ n. n < bound) }
{
    let mut last = None;
    for (number, value) in listed.entries() {
        last = small_of(field, bound, *number, *value).or(last);
    }
    last
}

/// The number of a field, if it has this field number and its low 32 bits are below the bound.
fn small_of(field: u32, bound: u64, number: u32, value: Wire) -> Option<u32>
    requires { bound ≤ 2 ^ 32 }
    ensures picked { result ≡ picked (number_of (Below bound)) field (number, value) }
    ensures below { IfSome result (λ n. n < bound) }
{
    match value {
        Wire::Varint(n) if number == field => {
            let low = n % UINT32;
            if low < bound { Some(low as u32) } else { None }
        }
        _ => None,
    }
}

/// What the message under a field number says, all its parts joined.
pub(crate) fn message_under<M: Message>(
    alloc: Global,
    bytes: &[u8],
    field: u32,
    listed: &Fields,
) -> Result<Option<Decoded<M>>, FieldsFault>
    requires { fields_at bytes.now ≡ Ok listed.now }
    ensures { Gives FieldsFault.Memory result
        (with_cause FieldsFault.Wire (inner M.format.read (joined field bytes.now listed.now))) }
{
    let Some(message) = merged(alloc, bytes, field, listed)? else {
        return Ok(None);
    };
    let decoded = M::read(alloc, message.as_slice())?;
    Ok(Some(decoded))
}
