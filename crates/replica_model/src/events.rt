//! What happens to a replica, with the bytes that a packet brings.

ghost use Rattle.std.specs.Prelude.{◌≡◌, ◌*◌, ◌≤◌, ◌↔◌, IsTrue, length, nat_abs};
ghost use Rattle.chunk_sums.specs.Chunks.{summed_chunks};
ghost use Rattle.replica_core.specs.Transitions.{IsLawful};
ghost use Rattle.replica_model.specs.Sums.{first_len, bad_from, bad_chunk};
ghost use Rattle.replica_model.specs.Rows.{bad_under, record_event, IsWithBytes};

use chunk_sums::{first_bad, piece_count};
use hd_base::{ConnId, SumRule};
use packet_codec::Packet;
use replica_core::Event;

/// What happens to a replica. A clone shares a packet's sums and body.
#[derive(Clone, Debug, Drop, PartialEq, Eq)]
pub enum ReplicaEvent {
    /// A packet of the stream of a connection.
    Packet { conn: ConnId, packet: Packet },
    /// Any other event.
    Other(Event),
}

/// How many bytes the chunk in which this offset lies has from there on.
pub fn first_len(rule: SumRule, offset: u64) -> u64
    ensures value { result ≡ first_len rule offset }
    ensures some { 1 ≤ result }
    ensures within { result ≤ rule.chunk }
{
    let chunk = u64::from(rule.chunk());
    chunk - offset % chunk
}

/// Whether a packet has as many sums, of four bytes each, as its body has chunks under this rule, the first
/// one of so many bytes.
fn has_all_sums(rule: SumRule, first: u64, packet: &Packet) -> bool
    requires { 1 ≤ first }
    ensures { IsTrue result
        ↔ (length packet.now.sums ≡ 4 * length (summed_chunks rule.kind first rule.chunk packet.now.body)) }
{
    let count = piece_count(
        rule.kind(),
        packet.body.len() as u64,
        first,
        u64::from(rule.chunk()),
    );
    packet.sums.len() % 4 == 0 && packet.sums.len() as u64 / 4 == count
}

/// The least chunk of a packet whose first chunk has so many bytes, whose sum differs.
fn bad_from(rule: SumRule, first: u64, packet: &Packet) -> Option<u64>
    requires some { 1 ≤ first }
    requires within { first ≤ rule.chunk }
    ensures { result ≡ bad_from rule first packet.now.body packet.now.sums }
{
    if !has_all_sums(rule, first, packet) {
        return None;
    }
    let chunk = u64::from(rule.chunk());
    first_bad(rule.kind(), &packet.body, &packet.sums, first, chunk)
}

/// The least chunk of a packet, counting from 0, whose sum differs from the one that the packet has for
/// it under this rule, `None` where all agree, or where there aren't as many sums as chunks.
pub fn bad_chunk(rule: SumRule, packet: &Packet) -> Option<u64>
    ensures { result ≡ bad_chunk rule (nat_abs packet.now.offset) packet.now.body packet.now.sums }
{
    let first = first_len(rule, packet.offset.unsigned_abs());
    bad_from(rule, first, packet)
}

/// The event of the state machine that a packet is at a replica with this rule: its lengths, and the
/// least chunk whose sum differs.
pub fn packet_event(rule: Option<SumRule>, conn: ConnId, packet: &Packet) -> Event
    ensures value { result ≡ record_event rule (ReplicaEvent.Packet conn packet.now) }
    ensures lawful { IsLawful result }
{
    Event::Packet {
        conn,
        seqno: packet.seqno,
        offset: packet.offset,
        length: packet.body.len() as u64,
        sums: packet.sums.len() as u64 / 4,
        last: packet.last,
        sync: packet.sync,
        bad: bad_under(rule, packet),
    }
}

/// The least chunk of a packet whose sum differs under this rule, if there is one.
fn bad_under(rule: Option<SumRule>, packet: &Packet) -> Option<u64>
    ensures { result ≡ bad_under rule packet.now }
{
    bad_chunk(rule?, packet)
}
