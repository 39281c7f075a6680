//! A block's life over files that stop at each call in turn.

use crate::helpers::{Book, new_book, packet, take};
use fault_ports::Keep;
use hd_base::{ConnId, Receipt, Stamp, SumKind, SumRule};
use packet_codec::Packet;
use replica_core::{Event, Refusal};
use replica_files::BookFault;
use std::alloc::{AllocError, Global};
use std::process::Abort;
use std::test::Fail;

/// An event of the life.
#[derive(Clone, Copy, Debug, PartialEq, Eq)]
enum Step {
    Create,
    First,
    Second,
    Third,
    Ack,
    Recover,
    Last,
    LastAck,
    Append,
    End,
    Init,
    Update,
}

/// The events of the life, in their order.
const LIFE: [Step; 12] = [
    Step::Create,
    Step::First,
    Step::Second,
    Step::Third,
    Step::Ack,
    Step::Recover,
    Step::Last,
    Step::LastAck,
    Step::Append,
    Step::End,
    Step::Init,
    Step::Update,
];

/// A rule of sums, and how many calls that aren't mere reads each event makes on the files under it.
#[derive(Clone, Copy)]
struct Case {
    rule: SumRule,
    calls: [u64; 12],
}

/// The case of a kind of sums.
fn case_of(kind: SumKind) -> Option<Case> {
    match kind {
        SumKind::Null => Some(Case {
            rule: SumRule::new(kind, 512)?,
            calls: [3, 1, 3, 1, 0, 2, 0, 2, 2, 0, 0, 3],
        }),
        SumKind::Crc32 => Some(Case {
            rule: SumRule::new(kind, 512)?,
            calls: [3, 2, 4, 2, 0, 3, 0, 2, 2, 0, 0, 4],
        }),
        SumKind::Crc32c => Some(Case {
            rule: SumRule::new(kind, 16)?,
            calls: [3, 2, 4, 2, 0, 3, 0, 2, 2, 0, 0, 5],
        }),
    }
}

/// The sums of the packets that have bytes, under this rule.
fn sums_of(kind: SumKind, step: Step) -> &'static [u8] {
    match (kind, step) {
        (SumKind::Crc32, Step::First) => b"\x92\x4c\x25\xe9",
        (SumKind::Crc32, Step::Second) => b"\xae\x1f\x33\xfb",
        (SumKind::Crc32, Step::Third) => b"\x2a\x45\x91\xa2",
        (SumKind::Crc32c, Step::First) => b"\x17\xb5\xc8\x60\x98\xd1\xaa\x59",
        (SumKind::Crc32c, Step::Second) => b"\x65\xbf\x0d\x3f",
        (SumKind::Crc32c, Step::Third) => b"\x4a\xbf\x05\x98",
        _ => b"",
    }
}

/// A packet's offset and its bytes.
fn bytes_of(step: Step) -> (i64, &'static [u8]) {
    match step {
        Step::First => (0, b"the quick brown fox "),
        Step::Second => (16, b"fox jump"),
        Step::Third => (16, b"fox jumps over"),
        _ => (20, b""),
    }
}

/// A packet's number in its stream.
fn seqno_of(step: Step) -> i64 {
    match step {
        Step::Second => 1,
        Step::Third => 2,
        _ => 0,
    }
}

/// The packets of the life: 20 bytes; the last four again with four more, to be synced; these with six more; and,
/// on the connection of the stream's recovery, the last one.
fn packet_of(alloc: Global, case: &Case, step: Step) -> Result<Packet, AllocError> {
    let sums = sums_of(case.rule.kind(), step);
    let (offset, bytes) = bytes_of(step);
    let mut made = packet(alloc, seqno_of(step), offset, sums, bytes)?;
    made.sync = step == Step::Second;
    made.last = step == Step::Last;
    Ok(made)
}

/// The write request of a step that sets the replica up.
fn set_up(book: &mut Book, case: &Case, step: Step) -> Result<Receipt, BookFault> {
    match step {
        Step::Create => book.setup(&Event::Create {
            conn: ConnId(0),
            stamp: Stamp(1001),
            sums: case.rule,
        }),
        Step::Recover => book.setup(&Event::StreamRecovery {
            conn: ConnId(1),
            named: Stamp(1001),
            new: Stamp(1002),
            min: 20,
            max: 30,
        }),
        _ => book.setup(&Event::Append {
            conn: ConnId(2),
            named: Stamp(1002),
            new: Stamp(1003),
            length: 20,
        }),
    }
}

/// Does a step of the life.
fn live(alloc: Global, book: &mut Book, case: &Case, step: Step) -> Result<Receipt, BookFault> {
    match step {
        Step::Create | Step::Recover | Step::Append => set_up(book, case, step),
        Step::First | Step::Second | Step::Third => {
            let packet = packet_of(alloc, case, step).map_err(|_| BookFault::Memory)?;
            take(book, ConnId(0), &packet)
        }
        Step::Last => {
            let packet = packet_of(alloc, case, step).map_err(|_| BookFault::Memory)?;
            take(book, ConnId(1), &packet)
        }
        Step::Ack => book.ack(ConnId(0), 0, true),
        Step::LastAck => book.ack(ConnId(1), 0, true),
        Step::End => book.ended(ConnId(2)),
        Step::Init => book
            .init(Stamp(1003), Stamp(1004))
            .map(|(_, receipt)| receipt),
        Step::Update => book.update(Stamp(1004), 12),
    }
}

/// What a step answered.
#[derive(Clone, Copy, Debug, PartialEq, Eq)]
enum Answer {
    Done,
    File,
    Broken,
    Other,
}

/// What a step answered, in short.
fn in_short(answer: Result<Receipt, BookFault>) -> Answer {
    match answer {
        Ok(_) => Answer::Done,
        Err(BookFault::File(_)) => Answer::File,
        Err(BookFault::Refused(Refusal::Broken, _)) => Answer::Broken,
        Err(BookFault::Refused(..) | BookFault::Memory) => Answer::Other,
    }
}

/// What a step is to answer: `left` more calls pass, of which it makes so many, and the files may have stopped
/// before.
fn wanted(step: Step, calls: u64, left: u64, stopped: bool) -> Answer {
    if stopped {
        if step == Step::End {
            Answer::Done
        } else {
            Answer::Broken
        }
    } else if calls > left {
        Answer::File
    } else {
        Answer::Done
    }
}

/// The life over files that stop at the call behind so many.
fn live_until(
    rt: &impl Abort,
    alloc: Global,
    case: &Case,
    calls: u64,
    keep: Keep,
) -> Result<(), Fail> {
    let mut book = new_book(alloc, calls, keep)?;
    let mut left = calls;
    let mut stopped = false;
    for (step, count) in LIFE.iter().zip(case.calls.iter()) {
        let answer = in_short(live(alloc, &mut book, case, *step));
        assert_eq!(rt;
            answer,
            wanted(*step, *count, left, stopped),
            "{step:?} of {calls}"
        );
        stopped = stopped || *count > left;
        left = left.saturating_sub(*count);
        assert_eq!(rt; book.replica().is_broken(), stopped);
    }
    assert_eq!(rt; book.entries(), 12);
    Ok(())
}

/// The life under a kind of sums, with a stop at each call, of which so much is kept, and with none.
fn live_all(rt: &impl Abort, alloc: Global, kind: SumKind, keep: Keep) -> Result<(), Fail> {
    let case = case_of(kind).ok_or("a rule")?;
    for calls in 0..24 {
        live_until(rt, alloc, &case, calls, keep)?;
    }
    Ok(())
}

#[test]
fn a_stop_at_any_call_breaks_the_replica(rt: HostRuntime) -> Result<(), Fail> {
    for keep in [Keep::Nothing, Keep::Half, Keep::All] {
        live_all(&rt, rt.alloc(), SumKind::Null, keep)?;
        live_all(&rt, rt.alloc(), SumKind::Crc32, keep)?;
        live_all(&rt, rt.alloc(), SumKind::Crc32c, keep)?;
    }
    Ok(())
}
