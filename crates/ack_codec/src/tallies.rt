//! Repeated numbers, counted while they are read.

ghost use Rattle.std.specs.Prelude.{◌≡◌, ◌^◌, ◌<◌, ◌≤◌, length, fold};
ghost use Rattle.hd_base.specs.Results.{with_value};
ghost use Rattle.hd_base.specs.Wire.{decoded_status};
ghost use Rattle.ack_codec.specs.Packed.{numbers_at, varint_fault};
ghost use Rattle.ack_codec.specs.Tallies.{empty_tally, counted, tallied, newer_tally, LiesWithin};

use crate::replies::{MAX_REPLIES, Replies};
use hd_base::Status;
use proto_fields::{VarintFault, Wire, WireFault, read_varint};

/// How many numbers a repeated field has, and the first 16 of them as statuses.
#[derive(Drop)]
pub(crate) struct Tally {
    pub kept: Replies,
    pub count: u64,
}

impl Tally {
    /// No number so far.
    pub(crate) fn new() -> Tally
        ensures { result ≡ empty_tally }
    {
        Tally {
            kept: Replies::empty(),
            count: 0,
        }
    }

    /// Counts one number more.
    #[tactic(auto, unfolding(crate::specs::Tallies::counted))]
    fn add(&mut self, number: u64)
        ensures { self.new ≡ counted self.old number }
    {
        if self.kept.len() < MAX_REPLIES {
            self.kept.push(Status::from_varint(number));
        }
        self.count = self.count.saturating_add(1);
    }

    /// Counts the numbers of a packed list.
    fn with_list(mut self, list: &[u8]) -> Result<Tally, WireFault>
        ensures { result ≡ with_value (fold counted self) (numbers_at list.now) }
    {
        let mut rest = list;
        while !rest.is_empty() {
            let (number, behind) = match read_varint(rest) {
                Ok(read) => read,
                Err(fault) => return Err(fault_at((list.len() - rest.len()) as u64, fault)),
            };
            self.add(number);
            rest = behind;
        }
        Ok(self)
    }

    /// Counts the numbers that a value gives: a varint itself, and a part those of its list.
    fn with(mut self, bytes: &[u8], value: Wire) -> Result<Tally, WireFault>
        requires { LiesWithin (length bytes.now) value }
        ensures { result ≡ tallied bytes.now self value }
    {
        match value {
            Wire::Varint(number) => {
                self.add(number);
                Ok(self)
            }
            Wire::Part { from, to } => self.with_list(&bytes[from as usize..to as usize]),
            Wire::Eight(_) | Wire::Four(_) => Ok(self),
        }
    }
}

/// What was found of the repeated field `wanted` once a field of this number and value is behind.
pub(crate) fn newer(
    wanted: u32,
    found: Result<Tally, WireFault>,
    bytes: &[u8],
    number: u32,
    value: Wire,
) -> Result<Tally, WireFault>
    requires { LiesWithin (length bytes.now) value }
    ensures { result ≡ newer_tally wanted bytes.now found (number, value) }
{
    let tally = found?;
    if number != wanted {
        return Ok(tally);
    }
    tally.with(bytes, value)
}

/// The fault of a varint at this place.
fn fault_at(at: u64, fault: VarintFault) -> WireFault
    ensures { result ≡ varint_fault at fault }
{
    match fault {
        VarintFault::Short => WireFault::Short { at },
        VarintFault::Long => WireFault::LongVarint { at },
    }
}
