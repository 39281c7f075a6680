//! Packets that were taken and aren't acked yet.

ghost use Rattle.std.specs.Prelude.{◌≡◌, ◌<◌, ◌≤◌, ◌↔◌, ◌∷◌, ◌++◌, [], IsTrue, IfOk, length, drop, slice_get};

use circular_buffer::HeapCircularBuffer;
use std::alloc::{AllocError, Global};
use std::marker::Model;

/// A packet that was taken and isn't acked yet.
#[derive(Clone, Copy, Debug, PartialEq, Eq)]
pub struct PendingPacket {
    /// The packet's seqno, -1 for a heartbeat.
    pub seqno: i64,
    /// Where in the block the packet's bytes end, 0 for a heartbeat.
    pub end: u64,
    /// Whether it is the last packet.
    pub last: bool,
    /// Whether the client asks that the bytes be brought to the disk.
    pub sync: bool,
}

/// How many packets may be pending.
pub const MAX_PENDING: usize = 1024;

/// The pending packets, the oldest first: at most `MAX_PENDING`, in one block of memory.
#[derive(Debug, Drop)]
pub struct AckQueue {
    ring: HeapCircularBuffer<PendingPacket>,
}

impl Model for AckQueue {
    ghost use Rattle.std.specs.Prelude.{◌≡◌, List};
    ghost use Rattle.replica_core.specs.declared.ack_queue.PendingPacket.{PendingPacket};
    ghost use Rattle.replica_core.specs.declared.ack_queue.TheConstants.{MAX_PENDING};

    ghost Value = { List PendingPacket };

    ghost view = { λ p. p.ring.items };

    ghost invariant = { λ p. p.ring.capacity ≡ MAX_PENDING };
}

impl AckQueue {
    /// No packet, with room for all.
    pub fn new(alloc: Global) -> Result<AckQueue, AllocError>
        ensures { IfOk result (λ p. p ≡ []) }
    {
        let ring = HeapCircularBuffer::with_capacity(alloc, MAX_PENDING)?;
        Ok(AckQueue { ring })
    }

    /// The oldest packet.
    pub fn oldest(&self) -> Option<PendingPacket>
        ensures { result ≡ slice_get self.now 0 }
    {
        self.ring.front().copied()
    }

    /// Whether there is no room for a packet.
    pub fn is_full(&self) -> bool
        ensures full { IsTrue result ↔ (length self.now ≡ MAX_PENDING) }
        ensures within { length self.now ≤ MAX_PENDING }
    {
        self.ring.len() == MAX_PENDING
    }

    /// Puts a packet behind the others.
    pub fn push(&mut self, packet: PendingPacket)
        requires { length self.old < MAX_PENDING }
        ensures { self.new ≡ self.old ++ packet ∷ [] }
    {
        self.ring.push_back(packet);
    }

    /// Drops the oldest packet.
    pub fn drop_oldest(&mut self)
        ensures { self.new ≡ drop 1 self.old }
    {
        self.ring.pop_front();
    }

    /// Drops all packets.
    pub fn clear(&mut self)
        ensures { self.new ≡ [] }
    {
        self.ring.clear();
    }
}
