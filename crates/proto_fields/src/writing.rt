//! Fields and bare varints, written in their least spelling.

ghost use Rattle.std.specs.Prelude.{
  ◌≡◌,
  ℕ,
  ◌-◌,
  ◌^◌,
  ◌<◌,
  ◌≤◌,
  ◌↔◌,
  List,
  ◌++◌,
  length,
  take,
  OnOk,
  OnErr,
  IsTrue,
};
ghost use Rattle.proto_fields.specs.Varint.{SpellsVarint, least_varint};
ghost use Rattle.proto_fields.specs.Writing.{
  IsFieldNumber,
  tag_text,
  varint_field,
  fixed64_field,
  bytes_field,
  fixed32_field,
  ReadsVarint,
  ReadsField,
};
ghost use Rattle.proto_fields.specs.declared.reading.Wire.{Wire};

use crate::reading::WireType;
use std::alloc::AllocError;

/// The greatest number that a field may have, of 29 bits.
pub const MAX_FIELD_NUMBER: u32 = 536_870_911;

/// Whether a field may have this number: 1 to 536,870,911.
pub fn is_field_number(number: u32) -> bool
    ensures { IsTrue result ↔ IsFieldNumber number }
{
    (1..=MAX_FIELD_NUMBER).contains(&number)
}

/// Cuts a list back to `before` bytes where what was to be put behind them failed, and answers as
/// that did.
pub fn cut_back(
    out: &mut Vec<u8>,
    before: usize,
    done: Result<(), AllocError>,
) -> Result<(), AllocError>
    ensures same { result ≡ done }
    ensures ok { OnOk result (out.new.items ≡ out.old.items) }
    ensures err { OnErr result (out.new.items ≡ take before out.old.items) }
{
    if done.is_err() {
        out.truncate(before);
    }
    done
}

/// Appends a number as a bare varint, as before the bytes of a message or a part.
/// Want of memory leaves `out` as it was.
pub fn put_number(out: &mut Vec<u8>, value: u64) -> Result<(), AllocError>
    ensures ok { OnOk result (out.new.items ≡ out.old.items ++ least_varint value) }
    ensures err { OnErr result (out.new.items ≡ out.old.items) }
    ensures least { (text : List ℕ) → SpellsVarint text value → length (least_varint value) ≤ length text }
    ensures again { OnOk result (ReadsVarint out.old.items out.new.items value) }
{
    let before = out.len();
    let done = push_number(out, value);
    cut_back(out, before, done)
}

/// Appends a field whose value is a varint. Its number is from 1 to 536,870,911.
/// Want of memory leaves `out` as it was.
pub fn put_varint(out: &mut Vec<u8>, field: u32, value: u64) -> Result<(), AllocError>
    requires least { 1 ≤ field }
    requires most { field < 2 ^ 29 }
    ensures ok { OnOk result (out.new.items ≡ out.old.items ++ varint_field field value) }
    ensures err { OnErr result (out.new.items ≡ out.old.items) }
    ensures again { OnOk result (ReadsField out.old.items out.new.items field (Wire.Varint value)) }
{
    let before = out.len();
    let done = push_varint(out, field, value);
    cut_back(out, before, done)
}

/// Appends a field whose value is these bytes. Its number is from 1 to 536,870,911.
/// Want of memory leaves `out` as it was.
pub fn put_bytes(out: &mut Vec<u8>, field: u32, value: &[u8]) -> Result<(), AllocError>
    requires least { 1 ≤ field }
    requires most { field < 2 ^ 29 }
    ensures ok { OnOk result (out.new.items ≡ out.old.items ++ bytes_field field value.now) }
    ensures err { OnErr result (out.new.items ≡ out.old.items) }
    ensures again { let end = length out.new.items in
        OnOk result (ReadsField out.old.items out.new.items field (Wire.Part (end - length value.now) end)) }
{
    let before = out.len();
    let done = push_bytes(out, field, value);
    cut_back(out, before, done)
}

/// Appends a field whose value is eight bytes, little-endian. Its number is from 1 to 536,870,911.
/// Want of memory leaves `out` as it was.
pub fn put_fixed64(out: &mut Vec<u8>, field: u32, value: u64) -> Result<(), AllocError>
    requires least { 1 ≤ field }
    requires most { field < 2 ^ 29 }
    ensures ok { OnOk result (out.new.items ≡ out.old.items ++ fixed64_field field value) }
    ensures err { OnErr result (out.new.items ≡ out.old.items) }
    ensures again { OnOk result (ReadsField out.old.items out.new.items field (Wire.Eight value)) }
{
    let before = out.len();
    let done = push_fixed64(out, field, value);
    cut_back(out, before, done)
}

/// Appends a field whose value is four bytes, little-endian. Its number is from 1 to 536,870,911.
/// Want of memory leaves `out` as it was.
pub fn put_fixed32(out: &mut Vec<u8>, field: u32, value: u32) -> Result<(), AllocError>
    requires least { 1 ≤ field }
    requires most { field < 2 ^ 29 }
    ensures ok { OnOk result (out.new.items ≡ out.old.items ++ fixed32_field field value) }
    ensures err { OnErr result (out.new.items ≡ out.old.items) }
    ensures again { OnOk result (ReadsField out.old.items out.new.items field (Wire.Four value)) }
{
    let before = out.len();
    let done = push_fixed32(out, field, value);
    cut_back(out, before, done)
}

#[tactic(auto, unfolding(crate::specs::Writing::varint_field))]
fn push_varint(out: &mut Vec<u8>, field: u32, value: u64) -> Result<(), AllocError>
    requires { field < 2 ^ 29 }
    ensures ok { OnOk result (out.new.items ≡ out.old.items ++ varint_field field value) }
    ensures front { take (length out.old.items) out.new.items ≡ out.old.items }
{
    push_tag(out, field, WireType::Varint)?;
    push_number(out, value)
}

#[tactic(auto, unfolding(crate::specs::Writing::bytes_field))]
fn push_bytes(out: &mut Vec<u8>, field: u32, value: &[u8]) -> Result<(), AllocError>
    requires { field < 2 ^ 29 }
    ensures ok { OnOk result (out.new.items ≡ out.old.items ++ bytes_field field value.now) }
    ensures front { take (length out.old.items) out.new.items ≡ out.old.items }
{
    push_tag(out, field, WireType::LengthDelimited)?;
    push_number(out, value.len() as u64)?;
    out.extend_from_slice(value)
}

#[tactic(auto, unfolding(crate::specs::Writing::fixed64_field))]
fn push_fixed64(out: &mut Vec<u8>, field: u32, value: u64) -> Result<(), AllocError>
    requires { field < 2 ^ 29 }
    ensures ok { OnOk result (out.new.items ≡ out.old.items ++ fixed64_field field value) }
    ensures front { take (length out.old.items) out.new.items ≡ out.old.items }
{
    push_tag(out, field, WireType::Fixed64)?;
    out.extend_from_slice(&value.to_le_bytes())
}

#[tactic(auto, unfolding(crate::specs::Writing::fixed32_field))]
fn push_fixed32(out: &mut Vec<u8>, field: u32, value: u32) -> Result<(), AllocError>
    requires { field < 2 ^ 29 }
    ensures ok { OnOk result (out.new.items ≡ out.old.items ++ fixed32_field field value) }
    ensures front { take (length out.old.items) out.new.items ≡ out.old.items }
{
    push_tag(out, field, WireType::Fixed32)?;
    out.extend_from_slice(&value.to_le_bytes())
}

/// Appends a tag: the field number times 8 and the code of the wire type.
#[tactic(auto, unfolding(crate::specs::Writing::tag_text))]
fn push_tag(out: &mut Vec<u8>, field: u32, wire_type: WireType) -> Result<(), AllocError>
    requires { field < 2 ^ 29 }
    ensures ok { OnOk result (out.new.items ≡ out.old.items ++ tag_text field wire_type) }
    ensures front { take (length out.old.items) out.new.items ≡ out.old.items }
{
    push_number(out, u64::from(field) * 8 + wire_type.code())
}

/// Appends the least spelling of a number, seven bits a byte.
fn push_number(out: &mut Vec<u8>, value: u64) -> Result<(), AllocError>
    ensures ok { OnOk result (out.new.items ≡ out.old.items ++ least_varint value) }
    ensures front { take (length out.old.items) out.new.items ≡ out.old.items }
{
    if value < 128 {
        out.push(value as u8)?;
        return Ok(());
    }
    out.push((value % 128) as u8 + 128)?;
    push_number(out, value / 128)
}
