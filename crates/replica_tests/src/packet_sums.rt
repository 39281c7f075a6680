//! The sums of a packet of two chunks.

use bytes::Bytes;
use hd_base::{SumKind, SumRule};
use packet_codec::Packet;
use replica_model::bad_chunk;
use std::alloc::{AllocError, Global};
use std::test::Fail;

/// A packet of 32 bytes 00 and 32 bytes ff, with these sums.
fn packet(alloc: Global, sums: &[u8]) -> Result<Packet, AllocError> {
    let mut body = vec![in alloc; 0; 32]?;
    body.extend_from_slice(&[255; 32])?;
    Ok(Packet {
        offset: 0,
        seqno: 0,
        last: false,
        sync: false,
        sums: Bytes::copy_from_slice(alloc, sums)?,
        body: Bytes::copy_from_slice(alloc, &body)?,
    })
}

/// The least bad chunk under CRC32C and chunks of 32 bytes.
fn bad(alloc: Global, sums: &[u8]) -> Result<Option<u64>, Fail> {
    let rule = SumRule::new(SumKind::Crc32c, 32).ok_or("a rule")?;
    Ok(bad_chunk(rule, &packet(alloc, sums)?))
}

#[test]
fn the_least_bad_chunk_is_found(rt: HostRuntime) -> Result<(), Fail> {
    let alloc = rt.alloc();
    assert_eq!(rt; bad(alloc, b"\x8a\x91\x36\xaa\x62\xa8\xab\x43")?, None);
    assert_eq!(rt; bad(alloc, b"\x8a\x91\x36\xaa\x62\xa8\xab\x44")?, Some(1));
    assert_eq!(rt; bad(alloc, b"\x8a\x91\x36\xab\x62\xa8\xab\x44")?, Some(0));
    assert_eq!(rt; bad(alloc, b"\x8a\x91\x36\xab")?, None);
    Ok(())
}
