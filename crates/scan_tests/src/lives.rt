//! What scans find where the files of a replica stop at each call of its life in turn.
//!
//! An RWR may be found under the stamp before the event or behind it, with a front of the bytes before it or behind it;
//! a FINALIZED replica as it was in finalized, also with the length of its update already, or as the event finalizes it;
//! no replica where the event creates it. Calls that only sync leave a replica as it was. A TEMPORARY one is never
//! found, but for the RWR that its last ack makes of it.

use bytes::Bytes;
use fault_ports::{Keep, StopAt};
use hd_base::ReplicaState::{Finalized, Rwr};
use hd_base::{BlockId, ConnId, Receipt, ReplicaState, Shelf, Stamp, SumKind, SumRule};
use mem_ports::{MemDrawer, MemShelf};
use packet_codec::Packet;
use replica_core::Event;
use replica_files::{BookFault, ReplicaBook};
use restart_scan::{Seen, scan};
use std::alloc::{AllocError, Global};
use std::process::Abort;
use std::test::Fail;

const BLOCK: BlockId = BlockId(7);

const CONN: ConnId = ConnId(0);

/// A book over files that stop at some call.
type Book = ReplicaBook<StopAt<MemDrawer>>;

/// An event of a life.
#[derive(Clone, Copy)]
enum Step {
    Create,
    Temporary,
    /// A packet of 20 bytes.
    First,
    /// The last four of these again, with ten more.
    Second,
    /// The last packet behind 20 bytes, which is to be synced, with this number.
    Last(i64),
    /// The ack of the packet with this number.
    Ack(i64),
    Recover,
    Append,
    Init,
    Update,
    InitAgain,
    UpdateAgain,
}

/// What may be found.
enum Sight {
    /// No replica.
    Nothing,
    /// A replica in this state, with this stamp and this length.
    Just(ReplicaState, u64, u64),
    /// An RWR under this stamp, with no more than so many bytes.
    Front(u64, u64),
}

use Sight::{Front, Just, Nothing};

/// An event of a life, what is found after it, and what may be found where the files stop at a call of it.
struct Row {
    step: Step,
    after: Sight,
    within: &'static [Sight],
}

/// A replica is written, recovered amid the stream, finalized, appended to, and recovered twice: 24 calls.
const WRITTEN: [Row; 12] = [
    Row {
        step: Step::Create,
        after: Just(Rwr, 1001, 0),
        within: &[Nothing, Front(1001, 0)],
    },
    Row {
        step: Step::First,
        after: Just(Rwr, 1001, 20),
        within: &[Front(1001, 20)],
    },
    Row {
        step: Step::Second,
        after: Just(Rwr, 1001, 30),
        within: &[Front(1001, 30)],
    },
    Row {
        step: Step::Ack(0),
        after: Just(Rwr, 1001, 30),
        within: &[],
    },
    Row {
        step: Step::Recover,
        after: Just(Rwr, 1002, 20),
        within: &[Front(1001, 30), Front(1002, 30)],
    },
    Row {
        step: Step::Last(0),
        after: Just(Rwr, 1002, 20),
        within: &[Just(Rwr, 1002, 20)],
    },
    Row {
        step: Step::Ack(0),
        after: Just(Finalized, 1002, 20),
        within: &[Front(1002, 20), Just(Finalized, 1002, 20)],
    },
    Row {
        step: Step::Append,
        after: Just(Rwr, 1003, 20),
        within: &[Front(1002, 20), Front(1003, 20), Just(Finalized, 1002, 20)],
    },
    Row {
        step: Step::Init,
        after: Just(Rwr, 1003, 20),
        within: &[],
    },
    Row {
        step: Step::Update,
        after: Just(Finalized, 1004, 12),
        within: &[Front(1003, 20), Front(1004, 20), Just(Finalized, 1004, 12)],
    },
    Row {
        step: Step::InitAgain,
        after: Just(Finalized, 1004, 12),
        within: &[],
    },
    Row {
        step: Step::UpdateAgain,
        after: Just(Finalized, 1005, 8),
        within: &[
            Front(1004, 12),
            Front(1005, 12),
            Just(Finalized, 1004, 12),
            Just(Finalized, 1004, 8),
            Just(Finalized, 1005, 8),
        ],
    },
];

/// A replica is transferred: 11 calls.
const TRANSFERRED: [Row; 5] = [
    Row {
        step: Step::Temporary,
        after: Nothing,
        within: &[Nothing],
    },
    Row {
        step: Step::First,
        after: Nothing,
        within: &[Nothing],
    },
    Row {
        step: Step::Last(1),
        after: Nothing,
        within: &[Nothing],
    },
    Row {
        step: Step::Ack(0),
        after: Nothing,
        within: &[],
    },
    Row {
        step: Step::Ack(1),
        after: Just(Rwr, 1001, 20),
        within: &[Nothing, Just(Rwr, 1001, 20)],
    },
];

/// A packet with this number: its offset, its bytes and their sums. The one without bytes is the last.
fn packet(
    alloc: Global,
    seqno: i64,
    (offset, body, sums): (i64, &[u8], &[u8]),
) -> Result<Packet, AllocError> {
    Ok(Packet {
        offset,
        seqno,
        last: body.is_empty(),
        sync: body.is_empty(),
        sums: Bytes::copy_from_slice(alloc, sums)?,
        body: Bytes::copy_from_slice(alloc, body)?,
    })
}

/// The offset of an event's packet, its bytes and the sums of their chunks of 16 bytes.
fn bytes_of(step: Step) -> (i64, &'static [u8], &'static [u8]) {
    match step {
        Step::First => (
            0,
            b"the quick brown fox ",
            b"\x17\xb5\xc8\x60\x98\xd1\xaa\x59",
        ),
        Step::Second => (16, b"fox jumps over", b"\x4a\xbf\x05\x98"),
        _ => (20, b"", b""),
    }
}

/// Gives a book a packet, where there is room for one.
fn take(alloc: Global, book: &mut Book, seqno: i64, step: Step) -> Result<Receipt, BookFault> {
    let Ok(packet) = packet(alloc, seqno, bytes_of(step)) else {
        return Err(BookFault::Memory);
    };
    if book.replica().is_full() {
        return Err(BookFault::Memory);
    }
    book.packet(CONN, &packet)
}

/// The write request of a step that sets the replica up.
fn set_up(book: &mut Book, sums: SumRule, step: Step) -> Result<Receipt, BookFault> {
    match step {
        Step::Create => book.setup(&Event::Create {
            conn: CONN,
            stamp: Stamp(1001),
            sums,
        }),
        Step::Temporary => book.setup(&Event::Temporary {
            conn: CONN,
            stamp: Stamp(1001),
            sums,
        }),
        Step::Recover => book.setup(&Event::StreamRecovery {
            conn: CONN,
            named: Stamp(1001),
            new: Stamp(1002),
            min: 20,
            max: 30,
        }),
        _ => book.setup(&Event::Append {
            conn: CONN,
            named: Stamp(1002),
            new: Stamp(1003),
            length: 20,
        }),
    }
}

/// A step of a block recovery.
fn recover(book: &mut Book, step: Step) -> Result<Receipt, BookFault> {
    match step {
        Step::Init => Ok(book.init(Stamp(1003), Stamp(1004))?.1),
        Step::InitAgain => Ok(book.init(Stamp(1004), Stamp(1005))?.1),
        Step::Update => book.update(Stamp(1004), 12),
        _ => book.update(Stamp(1005), 8),
    }
}

/// Does a step of a life.
fn live(alloc: Global, book: &mut Book, sums: SumRule, step: Step) -> Result<Receipt, BookFault> {
    match step {
        Step::Create | Step::Temporary | Step::Recover | Step::Append => set_up(book, sums, step),
        Step::First => take(alloc, book, 0, step),
        Step::Second => take(alloc, book, 1, step),
        Step::Last(seqno) => take(alloc, book, seqno, step),
        Step::Ack(seqno) => book.ack(CONN, seqno, true),
        Step::Init | Step::Update | Step::InitAgain | Step::UpdateAgain => recover(book, step),
    }
}

/// The last event that a life came to, and whether the files stopped at a call of it.
#[derive(Drop)]
struct Outcome<'r> {
    row: Option<&'r Row>,
    stopped: bool,
}

/// Lives through so many events, or up to the one of which a call fails.
fn live_until<'r>(
    alloc: Global,
    book: &mut Book,
    sums: SumRule,
    rows: &'r [Row],
    count: usize,
) -> Result<Outcome<'r>, Fail> {
    let mut row = None;
    for next in rows.iter().take(count) {
        row = Some(next);
        match live(alloc, book, sums, next.step) {
            Ok(_) => {}
            Err(BookFault::File(_)) => return Ok(Outcome { row, stopped: true }),
            Err(_) => return Err(Fail::new("refused")),
        }
    }
    Ok(Outcome {
        row,
        stopped: false,
    })
}

/// Whether this is what is found.
fn fits(sight: &Sight, seen: Option<&Seen>) -> bool {
    match (sight, seen) {
        (Nothing, None) => true,
        (Just(state, stamp, length), Some(seen)) => {
            seen.state == *state && seen.stamp.0 == *stamp && seen.length == *length
        }
        (Front(stamp, most), Some(seen)) => {
            seen.state == Rwr && seen.stamp.0 == *stamp && seen.length <= *most
        }
        _ => false,
    }
}

/// Whether one of these is what is found.
fn one_fits(sights: &[Sight], seen: Option<&Seen>) -> bool {
    for sight in sights {
        if fits(sight, seen) {
            return true;
        }
    }
    false
}

/// Whether this may be found after a life.
fn may_find(outcome: &Outcome, seen: Option<&Seen>) -> bool {
    match outcome.row {
        Some(row) if outcome.stopped => one_fits(row.within, seen),
        Some(row) => fits(&row.after, seen),
        None => seen.is_none(),
    }
}

/// Lives through so many events over files that pass so many calls, and scans what is left of them. Answers whether
/// they stopped.
fn outlive(
    rt: &impl Abort,
    alloc: Global,
    rows: &[Row],
    count: usize,
    calls: u64,
    keep: Keep,
) -> Result<bool, Fail> {
    let sums = SumRule::new(SumKind::Crc32c, 16).ok_or("a rule")?;
    let mut shelf = MemShelf::new(alloc, &[])?;
    let drawer = shelf.lend(alloc, BLOCK)?;
    let Ok(mut book) = ReplicaBook::new(alloc, BLOCK, StopAt::new(drawer, calls, keep)) else {
        return Err(Fail::new("no book"));
    };
    let outcome = live_until(alloc, &mut book, sums, rows, count)?;
    let (drawer, _) = book.close_book();
    shelf.give_back(BLOCK, drawer.into_inner());
    let Ok(found) = scan(alloc, &mut shelf) else {
        return Err(Fail::new("scan"));
    };
    let seen = found.replicas.first();
    if let Some(seen) = seen {
        assert_eq!(rt; seen.sums, sums);
    }
    assert!(rt;
        may_find(&outcome, seen),
        "{count} events, {calls} calls, {keep:?}: {seen:?}"
    );
    Ok(outcome.stopped)
}

/// Stops a life at each of its calls, and behind them all.
fn stop_all(
    rt: &impl Abort,
    alloc: Global,
    rows: &[Row],
    calls: u64,
    keep: Keep,
) -> Result<(), Fail> {
    for call in 0..=calls {
        let stopped = outlive(rt, alloc, rows, rows.len(), call, keep)?;
        assert_eq!(rt; stopped, call < calls);
    }
    Ok(())
}

/// Ends a life behind each of its events.
fn end_all(rt: &impl Abort, alloc: Global, rows: &[Row]) -> Result<(), Fail> {
    for count in 0..=rows.len() {
        let stopped = outlive(rt, alloc, rows, count, u64::MAX, Keep::All)?;
        assert!(rt; !stopped);
    }
    Ok(())
}

#[test]
fn what_a_stop_leaves_is_allowed(rt: HostRuntime) -> Result<(), Fail> {
    for keep in [Keep::Nothing, Keep::Half, Keep::All] {
        stop_all(&rt, rt.alloc(), &WRITTEN, 24, keep)?;
        stop_all(&rt, rt.alloc(), &TRANSFERRED, 11, keep)?;
    }
    Ok(())
}

#[test]
fn what_an_event_leaves_is_found(rt: HostRuntime) -> Result<(), Fail> {
    end_all(&rt, rt.alloc(), &WRITTEN)?;
    end_all(&rt, rt.alloc(), &TRANSFERRED)
}
