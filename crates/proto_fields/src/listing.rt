//! The fields of a message as a list, and the last values of one number.

ghost use Rattle.std.specs.Prelude.{◌≡◌};
ghost use Rattle.hd_base.specs.Results.{with_cause, with_value, Gives};
ghost use Rattle.proto_fields.specs.Fields.{fields_at};
ghost use Rattle.proto_fields.specs.Values.{last_varint, last_part, last_values_of, last_values_from, newer_list};

use crate::reading::{Wire, WireFault, next_field};
use std::alloc::{AllocError, AllocFailed, Global};
use std::marker::Model;
use thiserror::Error;

/// Why the fields of a message could not be listed.
#[derive(Clone, Copy, Debug, PartialEq, Eq, Error)]
pub enum FieldsFault {
    /// The first field that is not whole and lawful has this fault.
    #[error("{0}")]
    Wire(WireFault),
    /// Memory ran out.
    #[error("out of memory")]
    Memory,
}

impl From<WireFault> for FieldsFault {
    ghost use Rattle.std.specs.Prelude.{◌≡◌};
    ghost use Rattle.proto_fields.specs.declared.listing.FieldsFault.TheVariants.{Wire};

    ghost from_gives = { λ fault e. e ≡ Wire fault };

    fn from(fault: WireFault) -> FieldsFault {
        FieldsFault::Wire(fault)
    }
}

impl<T: Drop> From<AllocFailed<T>> for FieldsFault {
    ghost use Rattle.std.specs.Prelude.{◌≡◌};
    ghost use Rattle.proto_fields.specs.declared.listing.FieldsFault.TheVariants.{Memory};

    ghost from_gives = { λ _ e. e ≡ Memory };

    fn from(_failed: AllocFailed<T>) -> FieldsFault {
        FieldsFault::Memory
    }
}

impl From<AllocError> for FieldsFault {
    ghost use Rattle.std.specs.Prelude.{◌≡◌};
    ghost use Rattle.proto_fields.specs.declared.listing.FieldsFault.TheVariants.{Memory};

    ghost from_gives = { λ _ e. e ≡ Memory };

    fn from(_error: AllocError) -> FieldsFault {
        FieldsFault::Memory
    }
}

/// The fields of a message in order, each a number and a value.
#[derive(Debug, Drop)]
pub struct Fields {
    entries: Vec<(u32, Wire)>,
}

impl Model for Fields {
    ghost use Rattle.std.specs.Prelude.{ℕ, List};
    ghost use Rattle.proto_fields.specs.declared.reading.Wire.{Wire};

    ghost Value = { List (ℕ × Wire) };

    ghost view = { λ f. f.entries.items };
}

/// Lists all fields of a message.
pub(crate) fn listed(alloc: Global, bytes: &[u8]) -> Result<Fields, FieldsFault>
    ensures { Gives FieldsFault.Memory result (with_cause FieldsFault.Wire (fields_at bytes.now)) }
{
    let mut entries = Vec::new(alloc);
    let mut at = 0;
    while let Some((number, value, next)) = next_field(bytes, at)? {
        entries.push((number, value))?;
        at = next;
    }
    Ok(Fields { entries })
}

impl Fields {
    /// The fields in order.
    pub fn entries(&self) -> &[(u32, Wire)]
        ensures { result.now ≡ self.now }
    {
        &self.entries
    }

    /// The last values of the fields 1 to `N` in one walk over the list: those of field k stand at
    /// place k - 1.
    pub fn last_values<const N: usize>(&self) -> [LastValues; N]
        ensures { result ≡ last_values_from N 1 self.now }
    {
        let mut last = [LastValues::none(); N];
        for (number, value) in &self.entries {
            replace_last(&mut last, *number, *value);
        }
        last
    }

    /// The last varint of this field number.
    pub fn number(&self, field: u32) -> Option<u64>
        ensures { result ≡ last_varint field self.now }
    {
        last_among(&self.entries, field).varint
    }

    /// The places from and to of the last part of this field number.
    pub fn part(&self, field: u32) -> Option<(u64, u64)>
        ensures { result ≡ last_part field self.now }
    {
        last_among(&self.entries, field).part
    }
}

/// The last value of each wire type that one field number has.
#[derive(Clone, Copy, Debug, PartialEq, Eq, Default)]
pub struct LastValues {
    /// The last varint, its low 64 bits.
    pub varint: Option<u64>,
    /// The last `Eight`.
    pub fixed64: Option<u64>,
    /// The places from and to of the last part.
    pub part: Option<(u64, u64)>,
    /// The last `Four`.
    pub fixed32: Option<u32>,
}

impl LastValues {
    ghost use Rattle.std.specs.Prelude.{◌≡◌};
    ghost use Rattle.proto_fields.specs.Values.{newer_values, no_values};

    /// No value of any wire type.
    fn none() -> Self
        ensures { result ≡ no_values }
    {
        LastValues::default()
    }

    /// The last values of the number `field` once a field of this number and value is behind.
    fn after(self, field: u32, number: u32, value: Wire) -> Self
        ensures { result ≡ newer_values field self (number, value) }
    {
        if number != field {
            return self;
        }
        match value {
            Wire::Varint(number) => LastValues {
                varint: Some(number),
                ..self
            },
            Wire::Eight(number) => LastValues {
                fixed64: Some(number),
                ..self
            },
            Wire::Part { from, to } => LastValues {
                part: Some((from, to)),
                ..self
            },
            Wire::Four(number) => LastValues {
                fixed32: Some(number),
                ..self
            },
        }
    }
}

/// Puts a field's value in place of the last one of its number, where that is from 1 to the length
/// of the list.
fn replace_last(last: &mut [LastValues], number: u32, value: Wire)
    ensures { last.new ≡ newer_list 1 last.old (number, value) }
{
    if number == 0 {
        return;
    }
    let place = number as usize - 1;
    if place < last.len() {
        last[place] = last[place].after(number, number, value);
    }
}

/// The last values that the field number has among these fields.
fn last_among(entries: &[(u32, Wire)], field: u32) -> LastValues
    ensures { result ≡ last_values_of field entries.now }
{
    let mut last = LastValues::none();
    for (number, value) in entries {
        last = last.after(field, *number, *value);
    }
    last
}

/// The last values that the field number has in a message. It takes no memory.
pub fn last_values(bytes: &[u8], field: u32) -> Result<LastValues, WireFault>
    ensures { result ≡ with_value (last_values_of field) (fields_at bytes.now) }
{
    let mut last = LastValues::none();
    let mut at = 0;
    while let Some((number, value, next)) = next_field(bytes, at)? {
        last = last.after(field, number, value);
        at = next;
    }
    Ok(last)
}
