//! The packets of a stream.

ghost use Rattle.std.specs.Prelude.{◌≡◌, ◌≤◌, ◌<◌, ◌^◌, length, IfOk};
ghost use Rattle.hd_base.specs.SumRules.{IsChunkSize};
ghost use Rattle.packet_stream.specs.Streams.{data_packet, empty_packet, packet_end, sums_from};

use crate::extents::{BLOCK_LIMIT, rest_of_chunk};
use bytes::Bytes;
use chunk_sums::{piece_count, write_sums_and_copy};
use hd_base::SumRule;
use packet_codec::Packet;
use std::alloc::{AllocError, Global};

/// The packet of these bytes, which begin here.
pub(crate) fn data_packet(
    alloc: Global,
    rule: SumRule,
    start: u64,
    seqno: u64,
    sync: bool,
    body: &[u8],
) -> Result<Packet, AllocError>
    requires start { start ≤ BLOCK_LIMIT }
    requires number { seqno < 2 ^ 63 }
    requires body { length body.now ≤ BLOCK_LIMIT }
    ensures { IfOk result (λ packet. packet ≡ data_packet rule start seqno sync body.now) }
{
    let (sums, body) = summed_copy(alloc, rule, start, body)?;
    Ok(Packet {
        offset: start as i64,
        seqno: seqno as i64,
        last: false,
        sync,
        sums,
        body,
    })
}

/// The sums of bytes that begin here, each computed once, and a copy of the bytes, made in the same pass.
fn summed_copy(
    alloc: Global,
    rule: SumRule,
    start: u64,
    body: &[u8],
) -> Result<(Bytes, Bytes), AllocError>
    requires { length body.now ≤ BLOCK_LIMIT }
    ensures sums { IfOk result (λ x. x.0 ≡ sums_from rule start body.now) }
    ensures copied { IfOk result (λ x. x.1 ≡ body.now) }
{
    let chunk = u64::from(rule.chunk());
    let first = rest_of_chunk(chunk, start);
    let count = piece_count(rule.kind(), body.len() as u64, first, chunk);
    let mut sums = vec![in alloc; 0; 4 * count as usize]?;
    let mut copy = Vec::with_capacity(alloc, body.len())?;
    write_sums_and_copy(rule.kind(), body, first, chunk, &mut sums, &mut copy);
    Ok((shared(sums)?, shared(copy)?))
}

/// A packet without bytes.
pub(crate) fn empty_packet(at: u64, seqno: u64, last: bool, sync: bool) -> Packet
    requires at { at ≤ BLOCK_LIMIT }
    requires number { seqno < 2 ^ 63 }
    ensures { result ≡ empty_packet at seqno last sync }
{
    Packet {
        offset: at as i64,
        seqno: seqno as i64,
        last,
        sync,
        sums: Bytes::new(),
        body: Bytes::new(),
    }
}

/// The same packet once more, which shares the bytes.
pub(crate) fn share(packet: &Packet) -> Result<Packet, AllocError>
    ensures { IfOk result (λ copy. copy ≡ packet.now) }
{
    packet.clone()
}

/// Bytes that can be shared, of a vector, without a copy.
fn shared(bytes: Vec<u8>) -> Result<Bytes, AllocError>
    ensures { IfOk result (λ shared. shared ≡ bytes.items) }
{
    Bytes::from_vec(bytes).map_err(|_| AllocError)
}
