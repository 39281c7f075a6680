//! What a packet says of the bytes of a block that it carries, and the rules that it keeps.

ghost use Rattle.std.specs.Prelude.{◌≡◌, ◌+◌, ◌<◌, ◌≤◌, IfOk, IfSome};
ghost use Rattle.replica_core.specs.Extents.{IsPacket, IsExtentOf, heartbeat_of, start_of, place_check, packet_at};
ghost use Rattle.replica_core.specs.Extents.{pending_of, chunk_count, sum_count, sums_under};

use crate::ack_queue::PendingPacket;
use crate::events::Event;
use crate::refusals::{PieceRule, Refusal};
use hd_base::{SumKind, SumRule};

/// How many bytes a block may have.
const BLOCK_LIMIT: u64 = 134_217_728;

/// What a packet says of the bytes that it carries: offset and length in bytes, how many sums it
/// has, and the least of its chunks whose sum differs.
#[derive(Clone, Copy, Debug, PartialEq, Eq)]
pub struct PacketExtent {
    pub seqno: i64,
    pub offset: i64,
    pub length: u64,
    pub sums: u64,
    pub last: bool,
    pub sync: bool,
    pub bad: Option<u64>,
}

impl PacketExtent {
    /// What this packet says.
    pub fn of(packet: &Event) -> PacketExtent
        requires { IsPacket packet.now }
        ensures { IsExtentOf packet.now result }
    {
        match *packet {
            Event::Packet {
                seqno,
                offset,
                length,
                sums,
                last,
                sync,
                bad,
                ..
            } => PacketExtent {
                seqno,
                offset,
                length,
                sums,
                last,
                sync,
                bad,
            },
            _ => unreachable!(),
        }
    }

    /// What a heartbeat leaves pending.
    #[tactic(auto, unfolding(crate::specs::Extents::heartbeat_of))]
    pub fn heartbeat(&self) -> Result<PendingPacket, Refusal>
        ensures { result ≡ heartbeat_of self.now }
    {
        if self.length != 0 || self.sums != 0 || self.last {
            return Err(breach(PieceRule::Heartbeat));
        }
        Ok(PendingPacket {
            seqno: self.seqno,
            end: 0,
            last: false,
            sync: self.sync,
        })
    }

    /// What a packet that isn't a heartbeat leaves pending, where the replica has this rule of sums
    /// and so many bytes are written.
    pub fn packet(&self, rule: SumRule, written: u64) -> Result<PendingPacket, Refusal>
        requires { IfSome self.now.bad (λ bad. bad < self.now.sums) }
        ensures { result ≡ pending_of rule self.now written }
    {
        let offset = self.start()?;
        self.check_place(offset, written)?;
        self.packet_at(rule, offset)
    }

    /// Where the packet begins.
    #[tactic(auto, unfolding(crate::specs::Extents::start_of))]
    fn start(&self) -> Result<u64, Refusal>
        ensures value { result ≡ start_of self.now }
        ensures within { IfOk result (λ offset. offset + self.now.length ≤ BLOCK_LIMIT) }
    {
        if self.offset < 0 {
            return Err(breach(PieceRule::Negative));
        }
        let offset = self.offset.unsigned_abs();
        if offset.saturating_add(self.length) > BLOCK_LIMIT {
            return Err(breach(PieceRule::TooLong));
        }
        Ok(offset)
    }

    /// Refuses a packet that doesn't adjoin the written bytes.
    #[tactic(auto, unfolding(crate::specs::Extents::place_check))]
    fn check_place(&self, offset: u64, written: u64) -> Result<(), Refusal>
        ensures { result ≡ place_check self.now written offset }
    {
        if offset > written {
            return Err(Refusal::Gap { written, offset });
        }
        if self.last && (self.length != 0 || offset != written) {
            return Err(breach(PieceRule::LastShape));
        }
        Ok(())
    }

    /// What a packet that begins here leaves pending.
    #[tactic(auto, unfolding(crate::specs::Extents::packet_at))]
    fn packet_at(&self, rule: SumRule, offset: u64) -> Result<PendingPacket, Refusal>
        requires within { offset + self.now.length ≤ BLOCK_LIMIT }
        requires bad { IfSome self.now.bad (λ bad. bad < self.now.sums) }
        ensures { result ≡ packet_at rule self.now offset }
    {
        let size = u64::from(rule.chunk());
        let end = offset + self.length;
        if offset % size != 0 && end > offset - offset % size + size {
            return Err(breach(PieceRule::MidChunk));
        }
        if self.sums != sum_count(rule, offset, self.length) {
            return Err(breach(PieceRule::Sums));
        }
        if let Some(bad) = self.bad {
            return Err(Refusal::BadSum {
                chunk: offset / size + bad,
            });
        }
        Ok(PendingPacket {
            seqno: self.seqno,
            end,
            last: self.last,
            sync: self.sync,
        })
    }
}

/// How many sums the bytes of a packet have.
fn sum_count(rule: SumRule, offset: u64, length: u64) -> u64
    requires { offset + length ≤ BLOCK_LIMIT }
    ensures value { result ≡ sum_count rule offset length }
    ensures few { result ≤ BLOCK_LIMIT }
{
    sums_under(
        rule.kind(),
        chunk_count(u64::from(rule.chunk()), offset, length),
    )
}

/// So many sums, but none under `Null`.
fn sums_under(kind: SumKind, count: u64) -> u64
    ensures value { result ≡ sums_under kind count }
    ensures few { result ≤ count }
{
    match kind {
        SumKind::Null => 0,
        SumKind::Crc32 | SumKind::Crc32c => count,
    }
}

/// How many chunks of so many bytes, or parts of one, the bytes of a packet are.
fn chunk_count(size: u64, offset: u64, length: u64) -> u64
    requires some { 1 ≤ size }
    requires within { offset + length ≤ BLOCK_LIMIT }
    ensures value { result ≡ chunk_count size offset length }
    ensures few { result ≤ BLOCK_LIMIT }
{
    if length == 0 {
        0
    } else if offset % size == 0 {
        length.div_ceil(size)
    } else {
        1
    }
}

/// The refusal of a packet that breaks this rule.
fn breach(rule: PieceRule) -> Refusal
    ensures { result ≡ Refusal.Piece rule }
{
    Refusal::Piece { rule }
}
