//! Writing acks.

ghost use Rattle.std.specs.Prelude.{◌≡◌, ℕ, ◌+◌, ◌^◌, ◌<◌, ◌≤◌, List, ◌++◌, length, All, Ok};
ghost use Rattle.hd_base.specs.Wire.{IsStatus, status_number};
ghost use Rattle.ack_codec.specs.Acks.{SpellsAck, ack_at};
ghost use Rattle.ack_codec.specs.AckTexts.{zigzag, ack_message, ack_text};

use crate::acks::Ack;
use crate::texts::AckBytes;

/// Writes the ack in place of what `out` had: its fields in ascending number, each reply a field
/// of its own, and each varint in its least spelling. No reply may be an `Other` in place of a
/// status that is listed. It takes no memory.
pub fn encode_ack(ack: &Ack, out: &mut AckBytes)
    requires { All IsStatus ack.now.replies }
    ensures written { out.new ≡ ack_text ack.now }
    ensures spelled { SpellsAck ack.now out.new }
    ensures again { (rest : List ℕ) → ack_at (out.new ++ rest) ≡ Ok (ack.now, length out.new) }
{
    out.clear();
    out.push(0);
    put_message(ack, out);
    out.set_first((out.len() - 1) as u8);
}

/// Appends the message of an ack, which has at most 107 bytes.
fn put_message(ack: &Ack, out: &mut AckBytes)
    requires { length out.old ≤ 1 }
    ensures message { out.new ≡ out.old ++ ack_message ack.now }
    ensures few { length out.new ≤ length out.old + 107 }
    ensures count { length ack.now.replies ≤ 16 }
    ensures seqno { zigzag ack.now.seqno < 2 ^ 64 }
    ensures replies { All (λ s. status_number s < 2 ^ 32) ack.now.replies }
{
    out.push_field(1, zigzag_of(ack.seqno));
    for status in ack.replies.as_slice() {
        out.push_field(2, u64::from(status.number()));
    }
}

/// The zigzag number of a signed number: 0, -1, 1, -2 have 0, 1, 2, 3.
fn zigzag_of(number: i64) -> u64
    ensures { result ≡ zigzag number }
{
    if number < 0 {
        (-1 - number) as u64 * 2 + 1
    } else {
        number as u64 * 2
    }
}
