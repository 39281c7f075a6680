//! Worked examples.

use hd_base::{BlockId, SumRule};
use packet_codec::Packet;
use packet_stream::PacketStream;
use std::process::Abort;
use std::test::Fail;

/// A stream of the block 7 under the usual rule, which begins at `base` and is filled up to `end`.
fn filled(rt: &(impl Abort + AllocGlobal), base: u64, end: u64) -> Result<PacketStream, Fail> {
    let mut stream = PacketStream::new(rt.alloc(), SumRule::default())?;
    assert!(rt; base <= end && end <= 2_000_000);
    stream.begin(base);
    assert!(rt; stream.written() == base);
    stream.fill(BlockId(7), end - base)?;
    Ok(stream)
}

/// Forms the next packet, up to its greatest end or that of the bytes written.
fn form(rt: &impl Abort, stream: &mut PacketStream) -> Result<Packet, Fail> {
    let end = stream.greatest_end().min(stream.written());
    assert!(rt; stream.has_room() && stream.sent() < end && stream.seqno() < 100);
    Ok(stream.form(end, false)?)
}

/// Whether a packet is this one: where it begins, how many bytes it and its sums have, and its number.
fn is(packet: &Packet, offset: i64, bytes: usize, sums: usize, seqno: i64) -> bool {
    packet.offset == offset
        && packet.body.len() == bytes
        && packet.sums.len() == sums
        && packet.seqno == seqno
        && !packet.last
        && !packet.sync
}

#[test]
fn a_full_packet_and_a_byte(rt: HostRuntime) -> Result<(), Fail> {
    let mut stream = filled(&rt, 0, 64_513)?;
    assert!(rt; is(&form(&rt, &mut stream)?, 0, 64_512, 4 * 126, 0));
    assert!(rt; is(&form(&rt, &mut stream)?, 64_512, 1, 4 * 1, 1));
    assert!(rt; stream.has_room());
    let last = stream.form_last(false)?;
    assert!(rt; last.offset == 64_513 && last.seqno == 2 && last.last && last.body.len() == 0);
    Ok(())
}

#[test]
fn a_chunk_that_grew_is_sent_again(rt: HostRuntime) -> Result<(), Fail> {
    let mut stream = filled(&rt, 0, 600)?;
    assert!(rt; is(&form(&rt, &mut stream)?, 0, 600, 4 * 2, 0));
    assert!(rt; stream.written() == 600);
    stream.fill(BlockId(7), 100)?;
    let second = form(&rt, &mut stream)?;
    assert!(rt; is(&second, 512, 188, 4 * 1, 1));
    assert!(rt;
        second.body.first().copied() == Some(9) && second.body.last().copied() == Some(196)
    );
    Ok(())
}

#[test]
fn an_append_ends_the_chunk_first(rt: HostRuntime) -> Result<(), Fail> {
    let mut stream = filled(&rt, 600, 1600)?;
    assert!(rt; is(&form(&rt, &mut stream)?, 600, 424, 4 * 1, 0));
    assert!(rt; is(&form(&rt, &mut stream)?, 1024, 576, 4 * 2, 1));
    Ok(())
}

#[test]
fn an_ack_gives_bytes_up(rt: HostRuntime) -> Result<(), Fail> {
    let mut stream = filled(&rt, 0, 1000)?;
    assert!(rt; is(&form(&rt, &mut stream)?, 0, 1000, 4 * 2, 0));
    assert!(rt; stream.has_room() && stream.seqno() < 100);
    let sync = stream.form_sync()?;
    assert!(rt; sync.offset == 1000 && sync.seqno == 1 && sync.sync && sync.sums.len() == 0);
    assert!(rt;
        stream
            .again(0)?
            .is_some_and(|packet| is(&packet, 0, 1000, 4 * 2, 0))
    );
    assert!(rt; !stream.ack_oldest() && stream.acked() == 1000);
    assert!(rt; stream.oldest().is_some_and(|packet| packet.seqno == 1));
    assert!(rt; stream.again(1)?.is_none());
    assert!(rt; !stream.ack_oldest() && stream.oldest().is_none() && !stream.ack_oldest());
    Ok(())
}
