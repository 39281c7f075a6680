//! Fields, one after the other.

ghost use Rattle.std.specs.Prelude.{◌≡◌, ℕ, ◌≤◌, ◌<◌, ◌↔◌, length, IfOk, IfErr, IfSome};
ghost use Rattle.hd_base.specs.Results.{read_of};
ghost use Rattle.proto_fields.specs.Fields.{StandsAt, FaultAt, tag_at, part_at, value_at, field_at, next_at, type_at};
ghost use Rattle.proto_fields.specs.declared.reading.Wire.{Wire};
ghost use Rattle.proto_fields.specs.declared.reading.WireFault.{WireFault};

use crate::varints::{VarintFault, read_varint};
use thiserror::Error;

/// Why a field is not whole and lawful. Each fault has the place where that field begins.
#[derive(Clone, Copy, Debug, PartialEq, Eq, Error)]
pub enum WireFault {
    /// The bytes end before the field does.
    #[error("the field at {at} is cut off")]
    Short { at: u64 },
    /// The tag, the value or the length of a part is a varint of more than ten bytes.
    #[error("the field at {at} has a varint of more than ten bytes")]
    LongVarint { at: u64 },
    /// The wire type is 3, 4, 6 or 7.
    #[error("the field at {at} has a wire type that is not read")]
    Kind { at: u64 },
    /// The field number is 0.
    #[error("the field at {at} has the number 0")]
    FieldZero { at: u64 },
}

/// The value of a field.
#[derive(Clone, Copy, Debug, PartialEq, Eq)]
pub enum Wire {
    /// A varint, its low 64 bits.
    Varint(u64),
    /// Eight bytes, little-endian.
    Eight(u64),
    /// A length and so many bytes: these lie from place `from` up to place `to`.
    Part { from: u64, to: u64 },
    /// Four bytes, little-endian.
    Four(u32),
}

/// The wire types that a field may have.
#[derive(Clone, Copy, Debug, PartialEq, Eq)]
pub enum WireType {
    /// Wire type 0.
    Varint,
    /// Wire type 1, of fixed64, sfixed64 and double.
    Fixed64,
    /// Wire type 2, of strings, bytes, messages and packed lists.
    LengthDelimited,
    /// Wire type 5, of fixed32, sfixed32 and float.
    Fixed32,
}

impl WireType {
    ghost use Rattle.std.specs.Prelude.{◌≡◌};
    ghost use Rattle.proto_fields.specs.Fields.{code_of};

    /// The number that a tag has for this wire type.
    pub(crate) fn code(self) -> u64
        ensures { result ≡ code_of self }
    {
        match self {
            WireType::Varint => 0,
            WireType::Fixed64 => 1,
            WireType::LengthDelimited => 2,
            WireType::Fixed32 => 5,
        }
    }
}

/// A fault without its place.
#[derive(Clone, Copy)]
enum Cause {
    Short,
    LongVarint,
    Kind,
    FieldZero,
}

impl From<VarintFault> for Cause {
    ghost use Rattle.std.specs.Prelude.{◌≡◌};
    ghost use Rattle.proto_fields.specs.Fields.{varint_cause};

    ghost from_gives = { λ f c. c ≡ varint_cause f };

    fn from(fault: VarintFault) -> Cause {
        match fault {
            VarintFault::Short => Cause::Short,
            VarintFault::Long => Cause::LongVarint,
        }
    }
}

impl Cause {
    ghost use Rattle.std.specs.Prelude.{◌≡◌};
    ghost use Rattle.proto_fields.specs.Fields.{fault_at};

    /// This fault of the field that begins at the place `at`.
    fn at(self, at: u64) -> WireFault
        ensures { result ≡ fault_at at self }
    {
        match self {
            Cause::Short => WireFault::Short { at },
            Cause::LongVarint => WireFault::LongVarint { at },
            Cause::Kind => WireFault::Kind { at },
            Cause::FieldZero => WireFault::FieldZero { at },
        }
    }
}

/// Reads the field at the place `at`, which is at most the length: its number, its value and the
/// place behind it; `None` at the end. It takes no memory.
pub fn next_field(bytes: &[u8], at: u64) -> Result<Option<(u32, Wire, u64)>, WireFault>
    requires { at ≤ length bytes.now }

    // What is read stands there, and what stands there is read.
    ensures found { IfOk result (λ o. IfSome o (λ f. StandsAt bytes.now at f)) }
    ensures only { (f : ℕ × Wire × ℕ) → StandsAt bytes.now at f → result ≡ Ok (Some f) }
    ensures end { (result ≡ Ok None) ↔ (at ≡ length bytes.now) }

    // The fault is the one that stands there, and the one that stands there comes.
    ensures fault { IfErr result (λ e. FaultAt bytes.now at e) }
    ensures refused { (e : WireFault) → FaultAt bytes.now at e → result ≡ Err e }

    // The same as a function of the bytes, and where the next place is.
    ensures exact { result ≡ next_at bytes.now at }
    ensures room { IfOk result (λ o. IfSome o (λ f. (at < f.2) × (f.2 ≤ length bytes.now))) }
{
    next_of(bytes, at)
}

/// Reads the field at the place `at`.
#[tactic(auto, unfolding(crate::specs::Fields::next_at))]
fn next_of(bytes: &[u8], at: u64) -> Result<Option<(u32, Wire, u64)>, WireFault>
    requires { at ≤ length bytes.now }
    ensures exact { result ≡ next_at bytes.now at }
    ensures room { IfOk result (λ o. IfSome o (λ f. (at < f.2) × (f.2 ≤ length bytes.now))) }
{
    let rest = &bytes[at as usize..];
    if rest.is_empty() {
        return Ok(None);
    }
    let end = bytes.len() as u64;
    match field_of(end, rest) {
        Ok(((number, value), behind)) => Ok(Some((number, value, end - behind.len() as u64))),
        Err(cause) => Err(cause.at(at)),
    }
}

/// Reads the field at the front of bytes that end at the place `end`.
#[tactic(auto, unfolding(crate::specs::Fields::field_at))]
fn field_of(end: u64, bytes: &[u8]) -> Result<((u32, Wire), &[u8]), Cause>
    requires { length bytes.now ≤ end }
    ensures exact { read_of result ≡ field_at end bytes.now }
    ensures rest { IfOk result (λ x. length x.1.now < length bytes.now) }
{
    let ((number, wire_type), rest) = tag_of(bytes)?;
    let (value, rest) = value_of(end, wire_type, rest)?;
    Ok(((number, value), rest))
}

/// Reads the tag at the front: a varint whose low 32 bits are the field number times 8 and the wire type.
#[tactic(auto, unfolding(crate::specs::Fields::tag_at))]
fn tag_of(bytes: &[u8]) -> Result<((u32, WireType), &[u8]), Cause>
    ensures exact { read_of result ≡ tag_at bytes.now }
    ensures rest { IfOk result (λ x. length x.1.now < length bytes.now) }
{
    let (varint, rest) = read_varint(bytes)?;
    let key = (varint % 0x1_0000_0000) as u32;
    let wire_type = wire_type_of(key % 8)?;
    if key / 8 == 0 {
        return Err(Cause::FieldZero);
    }
    Ok(((key / 8, wire_type), rest))
}

/// The wire type that has this code in a tag.
fn wire_type_of(code: u32) -> Result<WireType, Cause>
    ensures { result ≡ type_at code }
{
    match code {
        0 => Ok(WireType::Varint),
        1 => Ok(WireType::Fixed64),
        2 => Ok(WireType::LengthDelimited),
        5 => Ok(WireType::Fixed32),
        _ => Err(Cause::Kind),
    }
}

/// Reads the value of a wire type at the front of bytes that end at the place `end`.
#[tactic(auto, unfolding(crate::specs::Fields::value_at))]
fn value_of(end: u64, wire_type: WireType, bytes: &[u8]) -> Result<(Wire, &[u8]), Cause>
    requires { length bytes.now ≤ end }
    ensures exact { read_of result ≡ value_at end wire_type bytes.now }
    ensures rest { IfOk result (λ x. length x.1.now ≤ length bytes.now) }
{
    match wire_type {
        WireType::Varint => {
            let (value, rest) = read_varint(bytes)?;
            Ok((Wire::Varint(value), rest))
        }
        WireType::Fixed64 => {
            let (number, rest) = bytes.split_first_chunk::<8>().ok_or(Cause::Short)?;
            Ok((Wire::Eight(u64::from_le_bytes(*number)), rest))
        }
        WireType::LengthDelimited => part_of(end, bytes),
        WireType::Fixed32 => {
            let (number, rest) = bytes.split_first_chunk::<4>().ok_or(Cause::Short)?;
            Ok((Wire::Four(u32::from_le_bytes(*number)), rest))
        }
    }
}

/// Reads a length and so many bytes, at the front of bytes that end at the place `end`.
#[tactic(auto, unfolding(crate::specs::Fields::part_at))]
fn part_of(end: u64, bytes: &[u8]) -> Result<(Wire, &[u8]), Cause>
    requires { length bytes.now ≤ end }
    ensures exact { read_of result ≡ part_at end bytes.now }
    ensures rest { IfOk result (λ x. length x.1.now ≤ length bytes.now) }
{
    let (len, rest) = read_varint(bytes)?;
    let left = rest.len() as u64;
    if left < len {
        return Err(Cause::Short);
    }
    let from = end - left;
    let (_, behind) = rest.split_at(len as usize);
    Ok((
        Wire::Part {
            from,
            to: from + len,
        },
        behind,
    ))
}
