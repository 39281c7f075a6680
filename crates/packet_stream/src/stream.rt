//! The stream of packets.

ghost use Rattle.std.specs.Prelude.{◌≡◌, ◌≤◌, ◌<◌, ◌+◌, ◌^◌, ◌==◌, ◌↔◌, IsTrue, IfOk, IfSome, OnOk, OnErr, OnSome, Option, Some, None, length, slice_get, option_copied};
ghost use Rattle.hd_base.specs.SumRules.{Rule, IsChunkSize};
ghost use Rattle.packet_stream.specs.Extents.{greatest_end, next_start};
ghost use Rattle.packet_stream.specs.Streams.{start_in, written_in, begun, with_bytes, fill_bytes, next_packet, formed};
ghost use Rattle.packet_stream.specs.Streams.{sync_packet, sync_formed, last_packet, last_formed, oldest_acked, oldest_is_last, oldest_seqno};

use crate::extents::{BLOCK_LIMIT, greatest_end_from, start_behind};
use crate::fills::fill_bytes;
use crate::packets::{data_packet, empty_packet, share};
use bytes::BytesMut;
use circular_buffer::HeapCircularBuffer;
use hd_base::{BlockId, SumRule};
use packet_codec::Packet;
use std::alloc::{AllocError, Global};
use std::marker::Model;

/// How many packets a writer may have sent that aren't acked (HDFS
/// `dfs.client-write-max-packets-in-flight`).
pub const MAX_UNACKED: usize = 80;

/// The stream of packets of one create or append after the other. It has room for `MAX_UNACKED`
/// packets from the start; only what writes, fills, forms or sends again takes memory. Bytes that
/// are acked are given up.
#[derive(Drop)]
pub struct PacketStream {
    rule: SumRule,
    base: u64,
    sent: u64,
    acked: u64,
    seqno: u64,
    tail: BytesMut,
    unacked: HeapCircularBuffer<Packet>,
}

impl Model for PacketStream {
    ghost use Rattle.std.specs.Prelude.{◌≡◌};
    ghost use Rattle.packet_stream.specs.declared.stream.TheConstants.{MAX_UNACKED};
    ghost use Rattle.packet_stream.specs.Streams.{StreamState, IsStream};

    ghost Value = { StreamState };

    ghost view = { λ s. record {
      rule = s.rule;
      base = s.base;
      sent = s.sent;
      acked = s.acked;
      seqno = s.seqno;
      tail = s.tail.items;
      unacked = s.unacked.items;
    } };

    ghost invariant = { λ s. (s.unacked.capacity ≡ MAX_UNACKED) × IsStream (record {
      rule = s.rule;
      base = s.base;
      sent = s.sent;
      acked = s.acked;
      seqno = s.seqno;
      tail = s.tail.items;
      unacked = s.unacked.items;
    }) };
}

impl PacketStream {
    /// A stream of a new block: nothing is written.
    pub fn new(alloc: Global, rule: SumRule) -> Result<PacketStream, AllocError>
        ensures { IfOk result (λ s. s ≡ begun rule 0) }
    {
        Ok(PacketStream {
            rule,
            base: 0,
            sent: 0,
            acked: 0,
            seqno: 0,
            tail: BytesMut::new(alloc),
            unacked: HeapCircularBuffer::with_capacity(alloc, MAX_UNACKED)?,
        })
    }

    /// Begins at the length that the block has: nothing is written behind it, and nothing is unacked.
    pub fn begin(&mut self, base: u64)
        requires { base ≤ BLOCK_LIMIT }
        ensures { self.new ≡ begun self.old.rule base }
    {
        self.base = base;
        self.sent = base;
        self.acked = base;
        self.seqno = 0;
        self.tail.clear();
        self.unacked.clear();
    }

    /// The allocator that the stream takes memory from.
    pub fn allocator(&self) -> Global {
        *self.tail.allocator()
    }

    /// The rule of the block's sums.
    pub fn rule(&self) -> SumRule
        ensures { result ≡ self.now.rule }
    {
        self.rule
    }

    /// Where the packets formed so far end, in bytes of the block.
    pub fn sent(&self) -> u64
        ensures value { result ≡ self.now.sent }
        ensures within { result ≤ written_in self.now }
    {
        self.sent
    }

    /// Where the packets that were acked end.
    pub fn acked(&self) -> u64
        ensures { result ≡ self.now.acked }
    {
        self.acked
    }

    /// The number of the next packet.
    pub fn seqno(&self) -> u64
        ensures { result ≡ self.now.seqno }
    {
        self.seqno
    }

    /// How many bytes the block has, with those that are only written.
    pub fn written(&self) -> u64
        ensures value { result ≡ written_in self.now }
        ensures within { result ≤ BLOCK_LIMIT }
    {
        self.start() + self.tail.len() as u64
    }

    /// Where the next packet begins.
    fn start(&self) -> u64
        ensures value { result ≡ start_in self.now }
        ensures near { result ≤ self.now.sent }
    {
        start_behind(u64::from(self.rule.chunk()), self.base, self.sent)
    }

    /// Where the packet behind the next one begins, if the next one ends here.
    fn start_behind(&self, end: u64) -> u64
        requires { self.now.sent ≤ end }
        ensures value { result ≡ next_start self.now.rule.chunk self.now.base end }
        ensures later { start_in self.now ≤ result }
        ensures near { result ≤ end }
    {
        start_behind(u64::from(self.rule.chunk()), self.base, end)
    }

    /// The greatest end that the next packet may have.
    pub fn greatest_end(&self) -> u64
        ensures value { result ≡ greatest_end self.now.rule.chunk (start_in self.now) }
        ensures past { self.now.sent < result }
    {
        greatest_end_from(u64::from(self.rule.chunk()), self.start())
    }

    /// The oldest packet that isn't acked.
    pub fn oldest(&self) -> Option<&Packet>
        ensures { option_copied result ≡ slice_get self.now.unacked 0 }
    {
        self.unacked.front()
    }

    /// The number of the oldest packet that isn't acked.
    pub fn oldest_seqno(&self) -> Option<i64>
        ensures { result ≡ oldest_seqno self.now }
    {
        self.unacked.front().map(|packet| packet.seqno)
    }

    /// Whether one packet more may be unacked.
    pub fn has_room(&self) -> bool
        ensures { IsTrue result ↔ (length self.now.unacked < MAX_UNACKED) }
    {
        self.unacked.len() < MAX_UNACKED
    }

    /// How many packets aren't acked.
    pub fn unacked(&self) -> usize
        ensures value { result ≡ length self.now.unacked }
        ensures few { result ≤ MAX_UNACKED }
    {
        self.unacked.len()
    }

    /// Writes these bytes behind the others. Want of memory changes nothing.
    pub fn write(&mut self, bytes: &[u8]) -> Result<(), AllocError>
        requires { written_in self.old + length bytes.now ≤ BLOCK_LIMIT }
        ensures ok { OnOk result (self.new ≡ with_bytes self.old bytes.now) }
        ensures err { OnErr result (self.new ≡ self.old) }
    {
        self.tail.extend_from_slice(bytes)
    }

    /// Writes so many bytes behind the others, each told by where in the block it lies. Want of memory
    /// changes nothing.
    pub fn fill(&mut self, block: BlockId, count: u64) -> Result<(), AllocError>
        requires { written_in self.old + count ≤ BLOCK_LIMIT }
        ensures ok { OnOk result (self.new ≡ with_bytes self.old (fill_bytes block (written_in self.old) count)) }
        ensures err { OnErr result (self.new ≡ self.old) }
    {
        let alloc = *self.tail.allocator();
        let bytes = fill_bytes(alloc, block, self.written(), count)?;
        self.write(bytes.as_slice())
    }

    /// Forms the next packet, which ends here. Want of memory changes nothing.
    pub fn form(&mut self, end: u64, sync: bool) -> Result<Packet, AllocError>
        requires some { self.old.sent < end }
        requires within { end ≤ written_in self.old }
        requires room { length self.old.unacked < MAX_UNACKED }
        requires number { self.old.seqno + 1 < 2 ^ 63 }
        ensures packet { IfOk result (λ packet. packet ≡ next_packet self.old end sync) }
        ensures ok { OnOk result (self.new ≡ formed self.old end sync) }
        ensures err { OnErr result (self.new ≡ self.old) }
    {
        let start = self.start();
        let alloc = *self.tail.allocator();
        let body = &self.tail.as_slice()[..(end - start) as usize];
        let packet = data_packet(alloc, self.rule, start, self.seqno, sync, body)?;
        let copy = share(&packet)?;
        let next = self.start_behind(end);
        self.sent = end;
        self.seqno += 1;
        self.tail.advance((next - start) as usize);
        self.unacked.push_back(packet);
        Ok(copy)
    }

    /// Forms the packet without bytes that asks that what was sent be brought to the disk. Want of
    /// memory changes nothing.
    pub fn form_sync(&mut self) -> Result<Packet, AllocError>
        requires room { length self.old.unacked < MAX_UNACKED }
        requires number { self.old.seqno + 1 < 2 ^ 63 }
        ensures packet { IfOk result (λ packet. packet ≡ sync_packet self.old) }
        ensures ok { OnOk result (self.new ≡ sync_formed self.old) }
        ensures err { OnErr result (self.new ≡ self.old) }
    {
        let packet = empty_packet(self.sent, self.seqno, false, true);
        let copy = share(&packet)?;
        self.seqno += 1;
        self.unacked.push_back(packet);
        Ok(copy)
    }

    /// Forms the last packet. Want of memory changes nothing.
    pub fn form_last(&mut self, sync: bool) -> Result<Packet, AllocError>
        requires { length self.old.unacked < MAX_UNACKED }
        ensures packet { IfOk result (λ packet. packet ≡ last_packet self.old sync) }
        ensures ok { OnOk result (self.new ≡ last_formed self.old sync) }
        ensures err { OnErr result (self.new ≡ self.old) }
    {
        let packet = empty_packet(self.written(), self.seqno, true, sync);
        let copy = share(&packet)?;
        self.unacked.push_back(packet);
        Ok(copy)
    }

    /// The packet at this place among those that aren't acked, unchanged, to be sent again; `None`
    /// where there are no more.
    pub fn again(&self, index: usize) -> Result<Option<Packet>, AllocError>
        ensures packet { IfOk result (λ packet. packet ≡ slice_get self.now.unacked index) }
        ensures within { IfOk result (λ packet. OnSome packet (index < MAX_UNACKED)) }
    {
        match self.unacked.get(index) {
            Some(packet) => Ok(Some(share(packet)?)),
            None => Ok(None),
        }
    }

    /// The oldest packet is acked: its bytes are given up. Answers whether it was the last one.
    pub fn ack_oldest(&mut self) -> bool
        ensures stream { self.new ≡ oldest_acked self.old }
        ensures last { result ≡ oldest_is_last self.old }
    {
        let Some(packet) = self.unacked.pop_front() else {
            return false;
        };
        let end = packet.offset.unsigned_abs() + packet.body.len() as u64;
        self.acked = self.acked.max(end);
        packet.last
    }
}
