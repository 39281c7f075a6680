//! What a report comes to.

use script_lang::read_line;
use std::test::Fail;
use storm_summary::{print_summary, summarize};

/// A report, a line each.
const REPORT: [&[u8]; 10] = [
    b"replica 0 1 FINALIZED 1001 3500 3500 d220d4ad ok\n",
    b"replica 0 2 RBW 1002 7 0 98c1d36c ok\n",
    b"replica 1 1 RWR 1001 512 512 - broken\n",
    b"replica 1 2 RUR 1002 7 7 98c1d36c ok\n",
    b"down 2\n",
    b"answer 1 0 create ok 1001\n",
    b"answer 1 2 close waiting\n",
    b"read 9 ok 98c1d36c\n",
    b"recovery 7 ok 1002 9 0,1\n",
    b"end\n",
];

/// What it comes to.
const SUMMARY: &[u8] =
    b"storm 7\nfinalized 1\nrbw 1\nrwr 0\nrur 1\nbroken 1\nbytes 3514\nok 1\nfailed 1\nrecovered 1\nend\n";

#[test]
fn a_report_is_summed_up(rt: HostRuntime) -> Result<(), Fail> {
    let mut lines = Vec::new(rt.alloc());
    for line in REPORT {
        lines.push(read_line(rt.alloc(), line)?)?;
    }
    let text = print_summary(rt.alloc(), 7, &summarize(&lines))?;
    assert_eq!(rt; text.as_slice(), SUMMARY);
    Ok(())
}
