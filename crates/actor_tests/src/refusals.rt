//! The messages of refusals.

use hd_base::{ReplicaState, Stamp};
use replica_core::{PieceRule, Refusal};
use request_refusals::RequestRefusal;
use std::test::Fail;

#[test]
fn a_message_has_the_number_and_the_values(rt: HostRuntime) -> Result<(), Fail> {
    let alloc = rt.alloc();
    let state = ReplicaState::Rur;
    let wrong = RequestRefusal::Core(Refusal::WrongState { state });
    assert_eq!(rt; wrong.text(alloc)?.as_slice(), b"3 3".as_slice());
    let stale = RequestRefusal::Core(Refusal::Stale {
        held: Stamp(1001),
        low: Stamp(1002),
        high: Stamp(1003),
    });
    assert_eq!(rt;
        stale.text(alloc)?.as_slice(),
        b"4 1001 1002 1003".as_slice()
    );
    let first = RequestRefusal::Core(Refusal::Seqno {
        want: None,
        got: -2,
    });
    assert_eq!(rt; first.text(alloc)?.as_slice(), b"12 - -2".as_slice());
    let rule = PieceRule::TooLong;
    let long = RequestRefusal::Core(Refusal::Piece { rule });
    assert_eq!(rt; long.text(alloc)?.as_slice(), b"9 6".as_slice());
    let sums = RequestRefusal::Checksum { kind: 2, chunk: 8 };
    assert_eq!(rt; sums.text(alloc)?.as_slice(), b"16 2 8".as_slice());
    assert_eq!(rt;
        RequestRefusal::Pool.text(alloc)?.as_slice(),
        b"15".as_slice()
    );
    Ok(())
}
