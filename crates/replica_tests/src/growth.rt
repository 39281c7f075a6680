//! Sums of bytes that grow, within a chunk and past it.

use hd_base::{SumKind, SumRule};
use replica_calls::grown_sums;
use std::test::Fail;

#[test]
fn the_last_sum_goes_on(rt: HostRuntime) -> Result<(), Fail> {
    let alloc = rt.alloc();
    let rule = SumRule::new(SumKind::Crc32, 16).ok_or("a rule")?;
    // the sum of `12345`
    let grown = grown_sums(alloc, rule, 5, 0xcbf5_3a1c, b"6789")?;
    assert_eq!(rt; grown.sums.as_slice(), b"\xcb\xf4\x39\x26".as_slice());
    assert_eq!(rt; grown.last, 0xcbf4_3926);
    Ok(())
}
