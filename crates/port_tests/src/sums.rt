//! The sums against known ones, and wrong sums of chunks.

use chunk_sums::{crc, extend, first_bad, piece_count, write_sums};
use hd_base::SumKind;
use std::alloc::{AllocError, Global};
use std::process::Abort;
use std::test::Fail;

#[test]
fn known_sums(rt: HostRuntime) {
    let rising = [
        0, 1, 2, 3, 4, 5, 6, 7, 8, 9, 10, 11, 12, 13, 14, 15, 16, 17, 18, 19, 20, 21, 22, 23, 24,
        25, 26, 27, 28, 29, 30, 31,
    ];
    assert_eq!(rt; crc(SumKind::Crc32c, b""), 0);
    assert_eq!(rt; crc(SumKind::Crc32c, b"123456789"), 0xe306_9283);
    assert_eq!(rt; crc(SumKind::Crc32c, &[0; 32]), 0x8a91_36aa);
    assert_eq!(rt; crc(SumKind::Crc32c, &rising), 0x46dd_794e);
    assert_eq!(rt;
        extend(SumKind::Crc32c, crc(SumKind::Crc32c, b"1234"), b"56789"),
        0xe306_9283
    );
    assert_eq!(rt; crc(SumKind::Crc32, b""), 0);
    assert_eq!(rt; crc(SumKind::Crc32, b"123456789"), 0xcbf4_3926);
    assert_eq!(rt;
        extend(SumKind::Crc32, crc(SumKind::Crc32, b"1234"), b"56789"),
        0xcbf4_3926
    );
}

/// So many equal bytes.
fn equal_bytes(alloc: Global, len: usize) -> Result<Vec<u8>, AllocError> {
    vec![in alloc; 0x5a; len]
}

/// What `write_sums` writes for the front of a body is right, and a wrong sum of any chunk is found.
fn check_chunks(
    rt: &impl Abort,
    kind: SumKind,
    body: &[u8],
    len: usize,
    first_len: u64,
    chunk: u64,
) {
    assert!(rt; len <= body.len());
    let (front, _) = body.split_at(len);
    let mut sums = [0; 40];
    assert!(rt; 1 <= first_len);
    assert!(rt; first_len <= chunk);
    assert_eq!(rt; piece_count(kind, front.len() as u64, first_len, chunk), 10);
    write_sums(kind, front, first_len, chunk, &mut sums);
    assert_eq!(rt; first_bad(kind, front, &sums, first_len, chunk), None);
    for number in 0..10 {
        sums[4 * number + 3] ^= 1;
        assert_eq!(rt;
            first_bad(kind, front, &sums, first_len, chunk),
            Some(number as u64)
        );
        sums[4 * number + 3] ^= 1;
    }
}

#[test]
fn wrong_sums_are_found(rt: HostRuntime) -> Result<(), Fail> {
    let body = equal_bytes(rt.alloc(), 4609)?;
    check_chunks(&rt, SumKind::Crc32c, &body, 4609, 1, 512);
    check_chunks(&rt, SumKind::Crc32, &body, 150, 10, 16);
    Ok(())
}
