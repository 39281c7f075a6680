//! All fields of a message, its texts, and the messages within it.

ghost use Rattle.std.specs.Prelude.{
  ◌≡◌,
  ℕ,
  ◌↔◌,
  List,
  Ok,
  Err,
  IfOk,
  IfSome,
  option_map,
  vec_items,
  length,
};
ghost use Rattle.std.specs.Cow.{cow_slice_items, IsBorrowedSlice};
ghost use Rattle.hd_base.specs.Results.{with_cause, Gives};
ghost use Rattle.proto_fields.specs.Fields.{Spells, FirstFault, fields_at};
ghost use Rattle.proto_fields.specs.Values.{part_of, part_bytes, picked, parts, joined_parts};
ghost use Rattle.proto_fields.specs.Inner.{joined, places_of, one_more, IsSingle, PlacedWithin};
ghost use Rattle.proto_fields.specs.declared.reading.Wire.{Wire};
ghost use Rattle.proto_fields.specs.declared.reading.WireFault.{WireFault};

use crate::listing::{Fields, FieldsFault, listed};
use crate::reading::Wire;
use hd_base::ByteList;
use std::alloc::{AllocError, Global};
use std::borrow::CowSlice;

/// Lists all fields of a message.
pub fn fields(alloc: Global, bytes: &[u8]) -> Result<Fields, FieldsFault>
    // What is read is spelled so, and what is spelled so is read, unless memory runs out.
    ensures found { IfOk result (λ fs. Spells fs bytes.now) }
    ensures only { (fs : List (ℕ × Wire)) → Spells fs bytes.now → Gives FieldsFault.Memory result (Ok fs) }

    // The fault is the first, and the first comes, unless memory runs out.
    ensures fault { (e : WireFault) → result ≡ Err (FieldsFault.Wire e) → FirstFault bytes.now e }
    ensures refused { (e : WireFault) → FirstFault bytes.now e
        → Gives FieldsFault.Memory result (Err (FieldsFault.Wire e)) }

    // The same as a function of the bytes.
    ensures exact { Gives FieldsFault.Memory result (with_cause FieldsFault.Wire (fields_at bytes.now)) }
{
    listed(alloc, bytes)
}

/// Where the parts of one field number lie.
#[derive(Clone, Copy)]
enum Places {
    Nowhere,
    Once { from: u64, to: u64 },
    Several,
}

impl Places {
    /// The places with one part more.
    fn with(self, from: u64, to: u64) -> Places
        ensures { result ≡ one_more self (from, to) }
    {
        match self {
            Places::Nowhere => Places::Once { from, to },
            Places::Once { from: _, to: _ } | Places::Several => Places::Several,
        }
    }
}

/// The bytes of all parts of the field number, one after the other; `None` where there is no part
/// of it. `of` is the list of the message's fields. A single part is lent and not copied.
pub fn merged<'a>(
    alloc: Global,
    bytes: &'a [u8],
    field: u32,
    of: &Fields,
) -> Result<Option<CowSlice<'a, u8, Global>>, AllocError>
    requires { fields_at bytes.now ≡ Ok of.now }
    ensures joined { IfOk result (λ m. option_map cow_slice_items m ≡ joined field bytes.now of.now) }
    ensures lent { IfOk result (λ m. IfSome m (λ bytes. IsBorrowedSlice bytes ↔ IsSingle (parts field of.now))) }
{
    match places_under(of.entries(), field) {
        Places::Nowhere => Ok(None),
        Places::Once { from, to } => {
            Ok(Some(CowSlice::Borrowed(&bytes[from as usize..to as usize])))
        }
        Places::Several => {
            let copy = joined_copy(alloc, bytes, field, of)?;
            Ok(Some(CowSlice::Owned(copy)))
        }
    }
}

/// Where the parts of the field number lie.
fn places_under(entries: &[(u32, Wire)], field: u32) -> Places
    ensures { result ≡ places_of (parts field entries.now) }
{
    let mut places = Places::Nowhere;
    for (number, value) in entries {
        let Some((from, to)) = part_under(field, *number, *value) else {
            continue;
        };
        places = places.with(from, to);
    }
    places
}

/// A copy of all parts of the field number, one after the other.
fn joined_copy(alloc: Global, bytes: &[u8], field: u32, of: &Fields) -> Result<Vec<u8>, AllocError>
    requires { fields_at bytes.now ≡ Ok of.now }
    ensures { IfOk result (λ v. v.items ≡ joined_parts bytes.now field of.now) }
{
    let mut joined = Vec::new(alloc);
    for (number, value) in of.entries() {
        let Some((from, to)) = part_under(field, *number, *value) else {
            continue;
        };
        joined.extend_from_slice(&bytes[from as usize..to as usize])?;
    }
    Ok(joined)
}

/// The places of a field's value, if the field has the number `field` and the value is a part.
pub fn part_under(field: u32, number: u32, value: Wire) -> Option<(u64, u64)>
    ensures { result ≡ picked part_of field (number, value) }
{
    match value {
        Wire::Part { from, to } if number == field => Some((from, to)),
        _ => None,
    }
}

/// A copy of the text that lies at these places of a message, `None` where there are none.
pub fn text_at(
    alloc: Global,
    message: &[u8],
    places: Option<(u64, u64)>,
) -> Result<Option<ByteList>, AllocError>
    requires { PlacedWithin (length message.now) places }
    ensures { IfOk result (λ text. text ≡ option_map (part_bytes message.now) places) }
{
    let Some((from, to)) = places else {
        return Ok(None);
    };
    let text = Vec::from_slice(alloc, &message[from as usize..to as usize])?;
    Ok(Some(ByteList::from_vec(text)))
}
