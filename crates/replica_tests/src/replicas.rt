//! Worked examples of the write pipeline, over lengths.

use hd_base::{BlockId, ConnId, ReplicaState, Stamp, SumKind, SumRule};
use replica_core::{Answer, Event, PieceRule, Refusal, Replica};
use std::process::Abort;
use std::test::Fail;

const BLOCK: BlockId = BlockId(7);

const CONN: ConnId = ConnId(1);

/// Takes an event whose numbers fit, where there is room.
fn step(rt: &impl Abort, replica: &mut Replica, event: Event) -> Answer {
    assert!(rt; event.is_lawful());
    assert!(rt; !replica.is_full());
    replica.step(&event)
}

/// An absent replica after these events, each of which is taken.
fn after(rt: &(impl Abort + AllocGlobal), events: &[Event]) -> Result<Replica, Fail> {
    let mut replica = Replica::new(rt.alloc(), BLOCK)?;
    for event in events {
        let answer = step(rt, &mut replica, *event);
        assert!(rt; !matches!(answer, Answer::Refused(_)));
    }
    Ok(replica)
}

/// The write request of a new block.
fn create() -> Event {
    Event::Create {
        conn: CONN,
        stamp: Stamp(1001),
        sums: SumRule::default(),
    }
}

/// The write request of a block that is transferred.
fn temporary(sums: SumRule) -> Event {
    Event::Temporary {
        conn: CONN,
        stamp: Stamp(1001),
        sums,
    }
}

/// A transfer's request of bytes from the block's beginning on.
fn give(named: u64, length: u64) -> Event {
    Event::Give {
        named: Stamp(named),
        offset: 0,
        length,
    }
}

/// A packet without fault.
fn packet(seqno: i64, offset: i64, length: u64, sums: u64) -> Event {
    Event::Packet {
        conn: CONN,
        seqno,
        offset,
        length,
        sums,
        last: false,
        sync: false,
        bad: None,
    }
}

/// The last packet.
fn last(seqno: i64, offset: i64) -> Event {
    Event::Packet {
        conn: CONN,
        seqno,
        offset,
        length: 0,
        sums: 0,
        last: true,
        sync: false,
        bad: None,
    }
}

/// A good ack.
fn ack(seqno: i64) -> Event {
    Event::Ack {
        conn: CONN,
        seqno,
        good: true,
    }
}

/// The beginning of a block recovery.
fn init(named: u64, recovery: u64) -> Event {
    Event::Init {
        named: Stamp(named),
        recovery: Stamp(recovery),
    }
}

/// A read under the first stamp.
fn read(offset: u64, length: u64) -> Event {
    Event::Read {
        named: Stamp(1001),
        offset,
        length,
    }
}

/// Plays events, each with the answer that is wanted.
fn play(rt: &impl Abort, replica: &mut Replica, events: &[(Event, Answer)]) {
    for (event, answer) in events {
        assert_eq!(rt; step(rt, replica, *event), *answer);
    }
}

/// What a replica shows: state, stamp, written and visible lengths, and writer.
type Shown = (
    Option<ReplicaState>,
    Option<Stamp>,
    u64,
    Option<u64>,
    Option<ConnId>,
);

fn shown(replica: &Replica) -> Shown {
    let (state, stamp) = (replica.state(), replica.stamp());
    let (visible, writer) = (replica.visible(), replica.writer());
    (state, stamp, replica.written(), visible, writer)
}

/// A replica as it is shown.
fn wanted(
    state: ReplicaState,
    stamp: u64,
    written: u64,
    visible: u64,
    writer: Option<ConnId>,
) -> Shown {
    let stamp = Some(Stamp(stamp));
    (Some(state), stamp, written, Some(visible), writer)
}

#[test]
fn a_block_is_recovered(rt: HostRuntime) -> Result<(), Fail> {
    let sent = [create(), packet(0, 0, 300, 1), ack(0), packet(1, 0, 900, 2)];
    let mut replica = after(&rt, &sent)?;
    let info = Answer::Info {
        state: ReplicaState::Rbw,
        stamp: Stamp(1001),
        length: 900,
    };
    let update = Event::Update {
        recovery: Stamp(1006),
        length: 700,
    };
    let visible = Answer::Visible { length: 300 };
    let events = [
        (init(1001, 1005), info),
        (init(1000, 1006), info),
        (ack(1), Answer::Refused(Refusal::NotWriter)),
        (read(0, 300), visible),
        (update, Answer::Done),
    ];
    play(&rt, &mut replica, &events);
    let closed = wanted(ReplicaState::Finalized, 1006, 700, 700, None);
    assert_eq!(rt; shown(&replica), closed);
    Ok(())
}

/// The refusal of a state.
fn wrong_state(state: ReplicaState) -> Answer {
    Answer::Refused(Refusal::WrongState { state })
}

#[test]
fn a_transfer_is_taken_and_given(rt: HostRuntime) -> Result<(), Fail> {
    let sums = SumRule::new(SumKind::Crc32, 512).ok_or("a rule")?;
    let mut replica = Replica::new(rt.alloc(), BLOCK)?;
    let absent = Answer::Refused(Refusal::NoReplica);
    let exists = Answer::Refused(Refusal::Exists);
    let gone = Answer::Refused(Refusal::NotWriter);
    let visible = Answer::Visible { length: 600 };
    let out = Answer::Refused(Refusal::OutOfRange { visible: 600 });
    let stale = Answer::Refused(Refusal::Stale {
        held: Stamp(1001),
        low: Stamp(1000),
        high: Stamp(1000),
    });
    let close = Event::CloseRecovery {
        named: Stamp(1001),
        new: Stamp(1002),
        length: 600,
    };
    let table = [
        (give(1001, 0), absent),
        (temporary(sums), Answer::Done),
        (temporary(sums), exists),
        (give(1001, 0), wrong_state(ReplicaState::Temporary)),
        (packet(0, 0, 600, 2), Answer::Done),
        (last(1, 600), Answer::Done),
        (ack(0), Answer::Done),
        (read(0, 1), wrong_state(ReplicaState::Temporary)),
        (ack(1), Answer::Done),
        (packet(2, 600, 1, 1), gone),
        (give(1001, 600), visible),
        (give(1001, 601), out),
        (give(1000, 600), stale),
        (close, Answer::Done),
        (give(1002, 600), wrong_state(ReplicaState::Finalized)),
        (Event::FileFault, Answer::Done),
        (temporary(sums), Answer::Refused(Refusal::Broken)),
    ];
    play(&rt, &mut replica, &table);
    assert_eq!(rt; replica.rule(), Some(sums));
    Ok(())
}

/// Compares what refusals print.
fn compare(rt: &(impl Abort + AllocGlobal), table: &[(Refusal, &str)]) -> Result<(), Fail> {
    for (refusal, text) in table {
        assert_eq!(rt; format!(in rt.alloc(); "{refusal}")?.as_str(), *text);
    }
    Ok(())
}

#[test]
fn refused_setups_are_printed(rt: HostRuntime) -> Result<(), Fail> {
    let state = ReplicaState::Rbw;
    let (held, low, high) = (Stamp(1001), Stamp(1002), Stamp(1003));
    let (acked, written, min, max) = (0, 600, 1, 500);
    let stale = Refusal::Stale { held, low, high };
    let length_out = Refusal::LengthOut {
        acked,
        written,
        min,
        max,
    };
    let table = [
        (Refusal::NoReplica, "no replica"),
        (Refusal::Exists, "the replica exists"),
        (Refusal::WrongState { state }, "the state is RBW"),
        (stale, "the stamp 1001 isn't from 1002 to 1003"),
        (length_out, "0 acked and 600 written don't fit 1 to 500"),
        (Refusal::Broken, "the replica is broken"),
        (
            Refusal::RecoveryHeld { id: held },
            "the recovery 1001 holds the replica",
        ),
    ];
    compare(&rt, &table)
}

#[test]
fn refused_packets_are_printed(rt: HostRuntime) -> Result<(), Fail> {
    let (written, offset, got) = (0, 512, 7);
    let rule = PieceRule::LastShape;
    let want = Some(6);
    let table = [
        (
            Refusal::NotWriter,
            "the connection doesn't write the replica",
        ),
        (
            Refusal::Gap { written, offset },
            "a packet at 512 leaves a gap behind 0",
        ),
        (Refusal::BadSum { chunk: 3 }, "the sum of chunk 3 differs"),
        (
            Refusal::Piece { rule },
            "the packet breaks the rule LastShape",
        ),
        (Refusal::Seqno { want, got }, "the seqno is 7, expected 6"),
        (
            Refusal::Seqno { want: None, got },
            "the seqno is 7, expected none",
        ),
        (
            Refusal::OutOfRange { visible: 9 },
            "only 9 bytes are visible",
        ),
    ];
    compare(&rt, &table)
}
