//! The messages of acks and read statuses.

ghost use Rattle.std.specs.Prelude.{◌≡◌, length, Ok};
ghost use Rattle.hd_base.specs.Results.{with_value};
ghost use Rattle.proto_fields.specs.Fields.{fields_at};
ghost use Rattle.ack_codec.specs.Tallies.{LiesWithin};
ghost use Rattle.ack_codec.specs.Acks.{
  none_found,
  newer_found,
  found_in,
  unzigzag,
  ack_from,
  ack_of as ack_said,
  read_status_of as read_status_said,
};

use crate::acks::Ack;
use crate::faults::AckFault;
use crate::replies::MAX_REPLIES;
use crate::tallies::{Tally, newer};
use hd_base::Status;
use proto_fields::{Wire, WireFault, last_values, next_field};

/// What was found of an ack's fields.
#[derive(Drop)]
struct FoundAck {
    seqno: Option<u64>,
    replies: Result<Tally, WireFault>,
    flags: Result<Tally, WireFault>,
}

impl FoundAck {
    /// No field so far.
    fn new() -> FoundAck
        ensures { result ≡ none_found }
    {
        FoundAck {
            seqno: None,
            replies: Ok(Tally::new()),
            flags: Ok(Tally::new()),
        }
    }

    /// What is found once a field of this number and value is behind.
    fn after(self, bytes: &[u8], number: u32, value: Wire) -> FoundAck
        requires { LiesWithin (length bytes.now) value }
        ensures { result ≡ newer_found bytes.now self (number, value) }
    {
        let seqno = match (number, value) {
            (1, Wire::Varint(seqno)) => Some(seqno),
            _ => self.seqno,
        };
        FoundAck {
            seqno,
            replies: newer(2, self.replies, bytes, number, value),
            flags: newer(4, self.flags, bytes, number, value),
        }
    }

    /// The ack that was found, or why there is none.
    #[tactic(auto, unfolding(crate::specs::Acks::ack_from))]
    fn ack(self) -> Result<Ack, AckFault>
        ensures { result ≡ ack_from self }
    {
        let replies = self.replies?;
        self.flags?;
        let seqno = self.seqno.ok_or(AckFault::Missing { field: 1 })?;
        if replies.count > MAX_REPLIES as u64 {
            return Err(AckFault::Replies {
                count: replies.count,
            });
        }
        Ok(Ack {
            seqno: signed(seqno),
            replies: replies.kept,
        })
    }
}

/// Reads the ack that a message says: seqno in field 1, replies in field 2 and flags, which are
/// not kept, in field 4. Replies and flags stand alone or in packed lists. Other fields are
/// skipped, and the last seqno counts.
pub(crate) fn ack_of(message: &[u8]) -> Result<Ack, AckFault>
    ensures { result ≡ ack_said message.now }
{
    let found = found_fields(message)?;
    found.ack()
}

/// What the fields of a message have.
fn found_fields(message: &[u8]) -> Result<FoundAck, WireFault>
    ensures { result ≡ with_value (found_in message.now) (fields_at message.now) }
{
    let mut found = FoundAck::new();
    let mut at = 0;
    while let Some((number, value, next)) = next_field(message, at)? {
        found = found.after(message, number, value);
        at = next;
    }
    Ok(found)
}

/// The signed number that a zigzag number stands for.
fn signed(zigzag: u64) -> i64
    ensures { result ≡ unzigzag zigzag }
{
    let half = (zigzag / 2) as i64;
    if zigzag % 2 == 0 { half } else { -1 - half }
}

/// Reads the status that a message says, in field 1.
pub(crate) fn read_status_of(message: &[u8]) -> Result<Status, AckFault>
    ensures { result ≡ read_status_said message.now }
{
    let number = last_values(message, 1)?.varint;
    let number = number.ok_or(AckFault::Missing { field: 1 })?;
    Ok(Status::from_varint(number))
}
