//! A packet byte by byte, by a worked example of its format.

use frame_feed::{Feed, FeedFault};
use packet_codec::PacketFault;
use std::process::Abort;
use std::test::Fail;

/// The packet of a block's nine bytes `123456789`.
const NINE: &[u8] = b"\0\0\0\x11\0\x19\x09\0\0\0\0\0\0\0\0\x11\0\0\0\0\0\0\0\0\x18\0\x25\x09\0\0\0\
    \xe3\x06\x92\x83123456789";

/// Why its payload's length can't be 3.
const LENGTH: FeedFault = FeedFault::Packet(PacketFault::Length {
    payload: 3,
    header: 25,
});

/// The packet of the nine bytes comes next.
fn takes_nine(rt: &impl Abort, feed: &mut Feed) -> Result<(), Fail> {
    let packet = feed.next_packet()?.ok_or("a packet")?;
    assert_eq!(rt; (packet.offset, packet.seqno), (0, 0));
    assert_eq!(rt; packet.sums.as_slice(), b"\xe3\x06\x92\x83".as_slice());
    assert_eq!(rt; packet.body.as_slice(), b"123456789".as_slice());
    Ok(())
}

/// No whole packet is there, and so many bytes are wanted.
fn wants(rt: &impl Abort, feed: &mut Feed, wanted: u64) -> Result<(), Fail> {
    assert!(rt; feed.next_packet()?.is_none());
    assert_eq!(rt; feed.wanted(), wanted);
    Ok(())
}

#[test]
fn takes_a_packet_byte_by_byte(rt: HostRuntime) -> Result<(), Fail> {
    let mut feed = Feed::new(rt.alloc())?;
    assert_eq!(rt; NINE.len(), 44);
    for (place, byte) in NINE.iter().enumerate() {
        wants(
            &rt,
            &mut feed,
            if place < 6 { 1 } else { 44 - place as u64 },
        )?;
        feed.push(&[*byte])?;
        assert_eq!(rt; feed.wanted(), 0);
    }
    takes_nine(&rt, &mut feed)?;
    wants(&rt, &mut feed, 1)
}

#[test]
fn prints_faults(rt: HostRuntime) -> Result<(), Fail> {
    let text = LENGTH.to_string(rt.alloc())?;
    assert_eq!(rt; text.as_str(), "a payload of 3 bytes under a header of 25");
    let text = FeedFault::Memory.to_string(rt.alloc())?;
    assert_eq!(rt; text.as_str(), "out of memory");
    Ok(())
}
