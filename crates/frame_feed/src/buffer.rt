//! The bytes of a stream that are not yet taken.

ghost use Rattle.std.specs.Prelude.{◌≡◌, ◌+◌, ◌^◌, ◌<◌, ◌≤◌, [], ◌++◌, length, take, drop, IfOk, OnOk, OnErr};
ghost use Rattle.hd_base.specs.Bytes.{IsBytes};
ghost use Rattle.frame_feed.specs.Buffers.{held};

use bytes::{Bytes, BytesMut};
use std::alloc::{AllocError, Global};

/// How many bytes have room from the beginning.
const FIRST_ROOM: usize = 4096;

/// The bytes of a stream that are not yet taken.
#[derive(Debug, Drop)]
pub(crate) struct Buffer {
    /// The message at the front, where cutting it found no memory and stopped halfway; else empty.
    pub front: Bytes,
    /// The bytes behind it.
    pub bytes: BytesMut,
}

impl Buffer {
    /// No byte.
    pub fn new(alloc: Global) -> Result<Buffer, AllocError>
        ensures { IfOk result (λ buffer. held buffer ≡ []) }
    {
        Ok(Buffer {
            front: Bytes::new(),
            bytes: BytesMut::with_capacity(alloc, FIRST_ROOM)?,
        })
    }

    /// How many bytes there are.
    pub fn len(&self) -> usize
        ensures len { result ≡ length (held self.now) }
        ensures bytes { IsBytes (held self.now) }
    {
        len_of(self.front.as_slice()) + len_of(self.bytes.as_slice())
    }

    /// Puts a piece behind the bytes, once there is room for so many: the bytes don't move again
    /// until that many came. Want of memory leaves them as they were.
    pub fn push(&mut self, piece: &[u8], coming: usize) -> Result<(), AllocError>
        ensures ok { OnOk result (held self.new ≡ held self.old ++ piece.now) }
        ensures room { OnOk result (coming ≤ length piece.now + self.new.bytes.spare) }
        ensures err { OnErr result (held self.new ≡ held self.old) }
    {
        self.bytes.reserve(coming.max(piece.len()))?;
        self.bytes.extend_reserved(piece);
        Ok(())
    }

    /// Brings the bytes into one piece. They are in one, unless a cut stopped halfway.
    pub fn join(&mut self) -> Result<(), AllocError>
        ensures joined { OnOk result (self.new.front ≡ []) }
        ensures same { held self.new ≡ held self.old }
    {
        if self.front.is_empty() {
            return Ok(());
        }
        let mut whole = BytesMut::with_capacity(self.allocator(), self.len())?;
        whole.extend_from_slice(self.front.as_slice())?;
        whole.extend_from_slice(self.bytes.as_slice())?;
        self.front = Bytes::new();
        self.bytes = whole;
        Ok(())
    }

    /// The allocator that the bytes lie with.
    pub fn allocator(&self) -> Global {
        *self.bytes.allocator()
    }

    /// The bytes.
    pub fn as_slice(&self) -> &[u8]
        requires { self.now.front ≡ [] }
        ensures { result.now ≡ held self.now }
    {
        self.bytes.as_slice()
    }

    /// Takes so many bytes off the front.
    pub fn advance(&mut self, count: usize)
        requires joined { self.old.front ≡ [] }
        requires within { count ≤ length (held self.old) }
        ensures { held self.new ≡ drop count (held self.old) }
    {
        self.bytes.advance(count);
    }

    /// Takes `size` bytes off the front, and gives a share of them all, one of the first `count` of
    /// those from `from` on, and one of the others. Nothing is copied. Want of memory leaves the
    /// bytes as they were.
    pub fn cut(
        &mut self,
        size: usize,
        from: usize,
        count: usize,
    ) -> Result<(Bytes, Bytes, Bytes), AllocError>
        requires joined { self.old.front ≡ [] }
        requires parts { from + count ≤ size }
        requires within { size ≤ length (held self.old) }
        ensures whole { IfOk result (λ shares. shares.0 ≡ take size (held self.old)) }
        ensures first { IfOk result (λ shares. shares.1 ≡ take count (drop from (take size (held self.old)))) }
        ensures second { IfOk result (λ shares. shares.2 ≡ drop count (drop from (take size (held self.old)))) }
        ensures rest { OnOk result (held self.new ≡ drop size (held self.old)) }
        ensures err { OnErr result (held self.new ≡ held self.old) }
    {
        let message = self.bytes.freeze_to(size)?;
        match shares(&message, from, count) {
            Ok((first, second)) => Ok((message, first, second)),
            Err(error) => {
                self.front = message;
                Err(error)
            }
        }
    }
}

/// The bytes from `from` on in two shares: the first `count` of them, and the others.
fn shares(message: &Bytes, from: usize, count: usize) -> Result<(Bytes, Bytes), AllocError>
    requires { from + count ≤ length message.now }
    ensures first { IfOk result (λ shares. shares.0 ≡ take count (drop from message.now)) }
    ensures second { IfOk result (λ shares. shares.1 ≡ drop count (drop from message.now)) }
{
    let mut second = message.slice(from..)?;
    let first = second.split_to(count)?;
    Ok((first, second))
}

/// How many bytes there are.
fn len_of(bytes: &[u8]) -> usize
    ensures len { result ≡ length bytes.now }
    ensures small { result < 2 ^ 63 }
    ensures bytes { IsBytes bytes.now }
{
    bytes.len()
}
