//! The bytes of a written ack.

ghost use Rattle.std.specs.Prelude.{◌≡◌, ◌==◌, ◌+◌, ◌<◌, ◌≤◌, [], ◌∷◌, ◌++◌, length, drop};
ghost use Rattle.proto_fields.specs.Varint.{least_varint};
ghost use Rattle.proto_fields.specs.Writing.{varint_field};

use std::fmt;
use std::fmt::{Debug, Formatter, Write};
use std::marker::Model;

/// The most bytes that a written ack has.
pub const MAX_ACK_SIZE: usize = 108;

/// The bytes of a written ack, which are at most 108, seen as their list. Takes no memory.
#[derive(Drop)]
pub struct AckBytes {
    bytes: [u8; MAX_ACK_SIZE],
    count: usize,
}

impl Model for AckBytes {
    ghost use Rattle.std.specs.Prelude.{ℕ, ◌≤◌, List, take};

    ghost Value = { List ℕ };

    ghost view = { λ t. take t.count t.bytes };

    ghost invariant = { λ t. t.count ≤ 108 };
}

impl AckBytes {
    /// No bytes.
    pub fn new() -> AckBytes
        ensures { result ≡ [] }
    {
        AckBytes {
            bytes: [0; MAX_ACK_SIZE],
            count: 0,
        }
    }

    /// The bytes.
    pub fn as_slice(&self) -> &[u8]
        ensures value { result.now ≡ self.now }
        ensures within_limit { length result.now ≤ MAX_ACK_SIZE }
    {
        &self.bytes[..self.count]
    }

    /// How many bytes there are, at most 108.
    pub fn len(&self) -> usize
        ensures value { result ≡ length self.now }
        ensures within_limit { result ≤ MAX_ACK_SIZE }
    {
        self.as_slice().len()
    }

    /// Whether there is no byte.
    pub fn is_empty(&self) -> bool
        ensures { result ≡ (length self.now == 0) }
    {
        self.as_slice().is_empty()
    }

    /// Leaves no byte.
    pub(crate) fn clear(&mut self)
        ensures { self.new ≡ [] }
    {
        self.count = 0;
    }

    /// Writes the byte in place of the first.
    pub(crate) fn set_first(&mut self, byte: u8)
        requires { 0 < length self.old }
        ensures { self.new ≡ byte ∷ drop 1 self.old }
    {
        self.bytes[0] = byte;
    }

    /// Appends a byte.
    pub(crate) fn push(&mut self, byte: u8)
        requires { length self.old < MAX_ACK_SIZE }
        ensures { self.new ≡ self.old ++ byte ∷ [] }
    {
        self.bytes[self.count] = byte;
        self.count += 1;
    }

    /// Appends the least spelling of a number, seven bits a byte.
    fn push_varint(&mut self, value: u64)
        requires { length self.old + length (least_varint value) ≤ 108 }
        ensures { self.new ≡ self.old ++ least_varint value }
    {
        if value < 128 {
            self.push(value as u8);
            return;
        }
        self.push((value % 128) as u8 + 128);
        self.push_varint(value / 128);
    }

    /// Appends a field whose value is a varint.
    #[tactic(auto, unfolding(proto_fields::specs::Writing::varint_field, proto_fields::specs::Writing::tag_text))]
    pub(crate) fn push_field(&mut self, field: u32, value: u64)
        requires { length self.old + length (varint_field field value) ≤ 108 }
        ensures { self.new ≡ self.old ++ varint_field field value }
    {
        self.push_varint(u64::from(field) * 8);
        self.push_varint(value);
    }
}

impl Debug for AckBytes {
    fn fmt<W: Write>(&self, f: &mut Formatter<W>) -> fmt::Result {
        Debug::fmt(&self.as_slice(), f)
    }
}
