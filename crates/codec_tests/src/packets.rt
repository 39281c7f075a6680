//! Packets from worked examples, byte for byte, and other spellings of their headers.

use bytes::Bytes;
use packet_codec::{
    HeaderCause, Packet, PacketFault, decode_packet, encode_packet, packet_length, packet_parts,
};
use proto_fields::WireFault;
use std::alloc::{AllocError, Global};
use std::process::Abort;
use std::test::Fail;

/// The packet of a block's nine bytes `123456789`, as hsync sends it: the header has syncBlock.
const SYNCED: &[u8] =
    b"\0\0\0\x11\0\x1b\x09\0\0\0\0\0\0\0\0\x11\0\0\0\0\0\0\0\0\x18\0\x25\x09\0\0\0\x28\x01\
    \xe3\x06\x92\x83123456789";

/// The same without syncBlock.
const NINE: &[u8] = b"\0\0\0\x11\0\x19\x09\0\0\0\0\0\0\0\0\x11\0\0\0\0\0\0\0\0\x18\0\x25\x09\0\0\0\
    \xe3\x06\x92\x83123456789";

/// The last packet behind them.
const LAST: &[u8] =
    b"\0\0\0\x04\0\x19\x09\x09\0\0\0\0\0\0\0\x11\x01\0\0\0\0\0\0\0\x18\x01\x25\0\0\0\0";

/// A packet with its sums and its body.
fn packet(
    alloc: Global,
    (offset, seqno): (i64, i64),
    sync: bool,
    sums: &[u8],
    body: &[u8],
) -> Result<Packet, AllocError> {
    Ok(Packet {
        offset,
        seqno,
        last: body.is_empty(),
        sync,
        sums: Bytes::copy_from_slice(alloc, sums)?,
        body: Bytes::copy_from_slice(alloc, body)?,
    })
}

#[test]
fn packets_are_read_and_written(rt: HostRuntime) -> Result<(), Fail> {
    let alloc = rt.alloc();
    for (bytes, place, sync, sums, body) in [
        (
            NINE,
            (0, 0),
            false,
            b"\xe3\x06\x92\x83".as_slice(),
            b"123456789".as_slice(),
        ),
        (
            SYNCED,
            (0, 0),
            true,
            b"\xe3\x06\x92\x83".as_slice(),
            b"123456789".as_slice(),
        ),
        (LAST, (9, 1), false, b"".as_slice(), b"".as_slice()),
    ] {
        let wanted = packet(alloc, place, sync, sums, body)?;
        assert!(rt; is_read(alloc, bytes, &wanted)?);
        assert_eq!(rt; packet_length(bytes), Ok(bytes.len()));
        assert_eq!(rt; packet_parts(bytes)?.sums, sums.len());
        assert_eq!(rt; written(&rt, alloc, &wanted)?.as_slice(), bytes);
    }
    assert!(rt; !packet(alloc, (0, 0), false, b"\0\0\0", b"1")?.is_encodable());
    Ok(())
}

/// Whether the bytes are read as this packet, all of them.
fn is_read(alloc: Global, bytes: &[u8], wanted: &Packet) -> Result<bool, PacketFault> {
    let (read, size) = decode_packet(alloc, bytes)?;
    Ok(size == bytes.len() && read == *wanted)
}

/// A packet as it is written.
fn written(rt: &impl Abort, alloc: Global, packet: &Packet) -> Result<Vec<u8>, AllocError> {
    assert!(rt; packet.is_encodable());
    let mut out = Vec::new(alloc);
    encode_packet(packet, &mut out)?;
    Ok(out)
}

#[test]
fn refusals(rt: HostRuntime) -> Result<(), Fail> {
    let front = NINE.split_last().ok_or("bytes")?.1;
    assert_eq!(rt;
        decode_packet(rt.alloc(), front).err(),
        Some(PacketFault::Short)
    );
    let seven = b"\0\0\0\x11\0\x19\x09\0\0\0\0\0\0\0\0\x11\0\0\0\0\0\0\0\0\x18\0\x25\x07\0\0\0\
        \xe3\x06\x92\x83123456789";
    for (bytes, fault, text) in [
        (
            seven.as_slice(),
            PacketFault::SumCount { rest: 6 },
            "6 bytes are no sums",
        ),
        (
            b"\0\0\0\x04\0\x02\x18\0".as_slice(),
            PacketFault::from(HeaderCause::Missing { field: 1 }),
            "the packet's header: field 1 is missing",
        ),
        (
            b"\0\0\0\x04\0\x03\x18\0\x0b".as_slice(),
            PacketFault::from(HeaderCause::from(WireFault::Kind { at: 2 })),
            "the packet's header: the field at 2 has a wire type that is not read",
        ),
    ] {
        assert_eq!(rt; decode_packet(rt.alloc(), bytes).err(), Some(fault));
        assert_eq!(rt; fault.to_string(rt.alloc())?.as_str(), text);
    }
    Ok(())
}
