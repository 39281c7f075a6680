//! The header of a packet.

ghost use Rattle.std.specs.Prelude.{◌≡◌};
ghost use Rattle.hd_base.specs.Results.{with_value};
ghost use Rattle.proto_fields.specs.Fields.{fields_at};
ghost use Rattle.packet_codec.specs.Headers.{
  found_in,
  none_found,
  newer_found,
  required as required_of,
  header_from,
  header_at,
  is_set,
  is_set_if_there,
};

use crate::faults::HeaderCause;
use proto_fields::{Wire, WireFault, next_field};

/// The fields of a packet's header (HDFS `PacketHeaderProto`).
#[derive(Clone, Copy, Debug, PartialEq, Eq)]
pub struct Header {
    /// Where in the block the body begins, in bytes.
    pub offset: i64,
    /// The packet's number in its stream; -1 is a heartbeat.
    pub seqno: i64,
    /// Whether it is the last packet of the block.
    pub last: bool,
    /// Whether the member is to bring the block to the disk.
    pub sync: bool,
    /// How many bytes the body has.
    pub data_len: i32,
}

/// The last values of the header's fields.
#[derive(Clone, Copy, Debug)]
struct Found {
    offset: Option<u64>,
    seqno: Option<u64>,
    last: Option<u64>,
    data_len: Option<u32>,
    sync: Option<u64>,
}

impl Found {
    /// No field so far.
    fn new() -> Found
        ensures { result ≡ none_found }
    {
        Found {
            offset: None,
            seqno: None,
            last: None,
            data_len: None,
            sync: None,
        }
    }

    /// The last values once a field of this number and value is behind.
    fn after(self, number: u32, value: Wire) -> Found
        ensures { result ≡ newer_found self (number, value) }
    {
        let mut found = self;
        match (number, value) {
            (1, Wire::Eight(offset)) => found.offset = Some(offset),
            (2, Wire::Eight(seqno)) => found.seqno = Some(seqno),
            (3, Wire::Varint(last)) => found.last = Some(last),
            (4, Wire::Four(data_len)) => found.data_len = Some(data_len),
            (5, Wire::Varint(sync)) => found.sync = Some(sync),
            _ => {}
        }
        found
    }

    /// The header that the last values make, or the first required field that is missing.
    #[tactic(auto, unfolding(crate::specs::Headers::header_from))]
    fn header(self) -> Result<Header, HeaderCause>
        ensures { result ≡ header_from self }
    {
        let offset = required(1, self.offset)?;
        let seqno = required(2, self.seqno)?;
        let last = required(3, self.last)?;
        let data_len = required(4, self.data_len)?;
        Ok(Header {
            offset: offset.cast_signed(),
            seqno: seqno.cast_signed(),
            last: last != 0,
            sync: self.sync.is_some_and(|sync| sync != 0),
            data_len: data_len.cast_signed(),
        })
    }
}

/// Reads the header that a message spells. Unknown fields are skipped, the last of a repeated
/// field counts, and a bool is any varint.
pub(crate) fn header_of(bytes: &[u8]) -> Result<Header, HeaderCause>
    ensures { result ≡ header_at bytes.now }
{
    let found = found_fields(bytes)?;
    found.header()
}

/// The last values of the header's fields in a message.
fn found_fields(bytes: &[u8]) -> Result<Found, WireFault>
    ensures { result ≡ with_value found_in (fields_at bytes.now) }
{
    let mut found = Found::new();
    let mut at = 0;
    while let Some((number, value, next)) = next_field(bytes, at)? {
        found = found.after(number, value);
        at = next;
    }
    Ok(found)
}

/// A required field's value.
fn required<T: Copy>(field: u32, value: Option<T>) -> Result<T, HeaderCause>
    ensures { result ≡ required_of field value }
{
    value.ok_or(HeaderCause::Missing { field })
}
