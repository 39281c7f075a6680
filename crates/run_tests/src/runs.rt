//! Whole runs over memory: worked examples with what they carry and store, and each call that can fail failing in turn.

ghost use Rattle.std.specs.Prelude.{IfOk};
ghost use Rattle.dn_run.specs.NodeOpening.Listening.{AreUnused};

use dn_run::{Exit, Expected, new_roads_are_unused, run};
use fault_ports::{Cutting, Fused};
use hd_base::{BlockId, ConnId, FileName, Files, NodeId, ReplicaState, Roads, Shelf, Stamp};
use mem_ports::{MemRoads, MemShelf, MemSink, MemSource};
use run_words::UsageRule;
use script_lang::BadKind;
use std::alloc::{AllocError, Global};
use std::process::Abort;
use std::test::Fail;

/// A script of one write of nine bytes.
const NINE: &[u8] =
    b"nodes 1\nseed 0\ncreate 1073741825 0\nwrite 1073741825 313233343536373839\nclose 1073741825\n";

/// Its report.
const NINE_REPORT: &[u8] =
    b"replica 0 1073741825 FINALIZED 1001 9 9 e3069283 ok\nanswer 1073741825 0 create ok 1001\nanswer 1073741825 2 close ok 9 1001 0\nend\n";

/// The script without the write, and its report.
const EMPTY: &[u8] = b"nodes 1\nseed 0\ncreate 1073741825 0\nclose 1073741825\n";

const EMPTY_REPORT: &[u8] =
    b"replica 0 1073741825 FINALIZED 1001 0 0 00000000 ok\nanswer 1073741825 0 create ok 1001\nanswer 1073741825 1 close ok 0 1001 0\nend\n";

/// A closed block is appended to.
const APPEND: &[u8] =
    b"nodes 1\nseed 0\ncreate 1 0\nfill 1 600\nclose 1\nappend 1 0\nfill 1 1000\nclose 1\n";

const APPEND_REPORT: &[u8] =
    b"replica 0 1 FINALIZED 1002 1600 1600 6698c984 ok\nanswer 1 0 create ok 1001\nanswer 1 2 close ok 600 1001 0\nanswer 1 3 append ok 1002\nanswer 1 5 close ok 1600 1002 0\nend\n";

/// A byte more than a packet takes.
const TWO_PACKETS: &[u8] = b"nodes 1\nseed 0\ncreate 7 0\nfill 7 64513\nclose 7\n";

const TWO_PACKETS_REPORT: &[u8] =
    b"replica 0 7 FINALIZED 1001 64513 64513 914506a5 ok\nanswer 7 0 create ok 1001\nanswer 7 2 close ok 64513 1001 0\nend\n";

/// What goes up where two packets with bytes were sent, and the last one: the answer, and the acks of the packets 0 to 2.
const THREE_ACKS: &[u8] =
    b"\x04\x08\x00\x12\x00\x04\x08\x00\x10\x00\x04\x08\x02\x10\x00\x04\x08\x04\x10\x00";

/// Two flushes in the middle of chunks, at three members.
const FLUSHES: &[u8] =
    b"nodes 3\nseed 0\ncreate 1 0,1,2\nfill 1 600\nhflush 1\nfill 1 100\nhflush 1\n";

const FLUSHES_REPORT: &[u8] =
    b"replica 0 1 RBW 1001 700 700 3d0abcfd ok\nreplica 1 1 RBW 1001 700 700 3d0abcfd ok\nreplica 2 1 RBW 1001 700 700 3d0abcfd ok\nanswer 1 0 create ok 1001\nanswer 1 2 hflush ok 600 1001 0,1,2\nanswer 1 4 hflush ok 700 1001 0,1,2\nend\n";

/// The connection between the first two of three members is cut behind a packet that all have and no ack of which has come
/// back: the writer drops the second member, and sends the packet again to the others.
const CUT_STREAM: &[u8] =
    b"nodes 3\nseed 1\ncreate 1 0,1,2\nfill 1 512\nhflush 1\nsettle\nfill 1 488\nhflush 1\nstep 1 writer\nstep 1 writer\nstep 1 writer\nstep 1 down 0\nstep 1 down 1\nstep 1 down 2\nstep 1 ready 2\nstep 1 up 2\ncut 1 1 0 0\n";

const CUT_STREAM_REPORT: &[u8] =
    b"replica 0 1 RBW 1002 1000 1000 78ba7f28 ok\nreplica 1 1 RBW 1001 1000 1000 78ba7f28 ok\nreplica 2 1 RBW 1002 1000 1000 78ba7f28 ok\nanswer 1 0 create ok 1001\nanswer 1 2 hflush ok 512 1001 0,1,2\nanswer 1 4 hflush ok 1000 1002 0,2\nend\n";

/// The first write on the data file fails at the second of two members, and nothing of it is kept: the replica breaks, and
/// the writer goes on with the first member.
const FILE_FAULT: &[u8] =
    b"nodes 2\nseed 0\ncreate 1 0,1\nfault 1 1\nwrite 1 0000000000000000000000000000000000000000000000000000000000000000\nhflush 1\nclose 1\n";

const FILE_FAULT_REPORT: &[u8] =
    b"replica 0 1 FINALIZED 1002 32 32 8a9136aa ok\nreplica 1 1 RBW 1001 0 0 - broken\nanswer 1 0 create ok 1001\nanswer 1 2 hflush ok 32 1002 0\nanswer 1 3 close ok 32 1002 0\nend\n";

/// The second of three members stops: the writer drops it, and sends what it writes then to the others.
const STOP_STREAM: &[u8] =
    b"nodes 3\nseed 1\ncreate 1 0,1,2\nfill 1 512\nhflush 1\nsettle\nstop 1\nfill 1 488\nhflush 1\n";

const STOP_STREAM_REPORT: &[u8] =
    b"replica 0 1 RBW 1002 1000 1000 78ba7f28 ok\ndown 1\nreplica 2 1 RBW 1002 1000 1000 78ba7f28 ok\nanswer 1 0 create ok 1001\nanswer 1 2 hflush ok 512 1001 0,1,2\nanswer 1 4 hflush ok 1000 1002 0,2\nend\n";

/// A node that doesn't run answers no dial, neither a member's nor a writer's: the block is abandoned for it.
const STOP_FIRST: &[u8] =
    b"nodes 3\nseed 0\nstop 1\ncreate 1 0,1\nsettle\ncreate 2 1,2\nexpect 0 1 RBW 1001 0\n";

const STOP_FIRST_REPORT: &[u8] =
    b"replica 0 1 RBW 1001 0 0 00000000 ok\ndown 1\nanswer 1 0 create abandoned 1\nanswer 2 0 create abandoned 1\nend\n";

/// The second of two members stops and starts again: it finds what it wrote, waiting to be recovered, and the writer goes
/// on with the first.
const START_STREAM: &[u8] =
    b"nodes 2\nseed 75\ncreate 1073816389 0,1\ncreate 18446744073709551615 0,1\nrun 20\nhflush 18446744073709551615\nhflush 1073816389\nhflush 1073816389\nfill 1073816389 40000\nrun 300\nstop 1\nstart 1\ncut 18446744073709551615 1 2 0\nhflush 1073816389\nclose 18446744073709551615\nclose 1073816389\n";

const START_STREAM_REPORT: &[u8] =
    b"replica 0 1073816389 FINALIZED 1004 40000 40000 cfb18b5a ok\nreplica 0 18446744073709551615 FINALIZED 1003 0 0 00000000 ok\nreplica 1 1073816389 RWR 1001 0 0 00000000 ok\nreplica 1 18446744073709551615 RWR 1002 0 0 00000000 ok\nanswer 1073816389 0 create ok 1001\nanswer 1073816389 1 hflush ok 0 1001 0,1\nanswer 1073816389 2 hflush ok 0 1001 0,1\nanswer 1073816389 4 hflush ok 40000 1004 0\nanswer 1073816389 5 close ok 40000 1004 0\nanswer 18446744073709551615 0 create ok 1002\nanswer 18446744073709551615 1 hflush ok 0 1002 0,1\nanswer 18446744073709551615 2 close ok 0 1003 0\nend\n";

/// A closed block is appended to after its node has started again: all is as if it hadn't stopped.
const START_APPEND: &[u8] =
    b"nodes 1\nseed 0\ncreate 1 0\nfill 1 600\nclose 1\nsettle\nstop 0\nstart 0\nappend 1 0\nfill 1 1000\nclose 1\n";

/// Reads while a writer streams: up to what each node has acked, and none past it.
const VISIBLE_READ: &[u8] =
    b"nodes 3\nseed 4\ncreate 1 0,1,2\nfill 1 3000\nhflush 1\nsettle\nfill 1 500\nrun 3\nread 1 1 100 2000\nread 1 2 2990 20\nread 1 0 0 3000\nsettle\nclose 1\nread 1 2 0 3500\n";

const VISIBLE_READ_REPORT: &[u8] =
    b"replica 0 1 FINALIZED 1001 3500 3500 d220d4ad ok\nreplica 1 1 FINALIZED 1001 3500 3500 d220d4ad ok\nreplica 2 1 FINALIZED 1001 3500 3500 d220d4ad ok\nanswer 1 0 create ok 1001\nanswer 1 2 hflush ok 3000 1001 0,1,2\nanswer 1 4 close ok 3500 1001 0,1,2\nread 9 ok d352428b\nread 10 refused 13 3000\nread 11 ok 8d0fe748\nread 14 refused 13 3000\nend\n";

/// A block recovery takes a block from its writer.
const BLOCK_RECOVERY: &[u8] =
    b"nodes 2\nseed 0\ncreate 1 0,1\nwrite 1 313233343536373839\nhflush 1\nsettle\nrecover 1 0 0,1\nsettle\nwrite 1 00\nclose 1\n";

const BLOCK_RECOVERY_REPORT: &[u8] =
    b"replica 0 1 FINALIZED 1002 9 9 e3069283 ok\nreplica 1 1 FINALIZED 1002 9 9 e3069283 ok\nanswer 1 0 create ok 1001\nanswer 1 2 hflush ok 9 1001 0,1\nanswer 1 4 close lost 1002\nrecovery 7 ok 1002 9 0,1\nend\n";

/// The same behind a line that gives the block's sums.
const SUMS: [&[u8]; 3] = [
    b"sums 1 null 512\n",
    b"sums 1 crc32 512\n",
    b"sums 1 crc32c 512\n",
];

const SUMMED_RECOVERY: &[u8] =
    b"create 1 0,1\nwrite 1 313233343536373839\nhflush 1\nsettle\nrecover 1 0 0,1\nsettle\nwrite 1 00\nclose 1\n";

const SUMMED_RECOVERY_REPORT: &[u8] =
    b"replica 0 1 FINALIZED 1002 9 9 e3069283 ok\nreplica 1 1 FINALIZED 1002 9 9 e3069283 ok\nanswer 1 0 create ok 1001\nanswer 1 2 hflush ok 9 1001 0,1\nanswer 1 4 close lost 1002\nrecovery 8 ok 1002 9 0,1\nend\n";

/// A recovery cuts what is read: the writer has lost its second member, whose place in the pipeline nobody takes, and of
/// the two that are left the first has less than the third, which is read.
const HEADS: [&[u8]; 3] = [
    b"nodes 3\nseed 0\n",
    b"nodes 3\nseed 1\n",
    b"nodes 3\nseed 2\n",
];

const WRITTEN: &[u8] = b"create 1 0,1,2\nfill 1 512\nhflush 1\nsettle\nfill 1 65536\nhflush 1\n";

const STEPS: [(&[u8], usize); 6] = [
    (b"step 1 writer\n", 4),
    (b"step 1 down 0\n", 3),
    (b"step 1 down 1\n", 3),
    (b"step 1 down 2\n", 3),
    (b"step 1 ready 2\n", 3),
    (b"step 1 up 2\n", 3),
];

const REBUILT: &[u8] =
    b"cut 1 1 0 0\nstep 1 up 1\nstep 1 up 0\nstep 1 writer\nstep 1 down 0\nstep 1 down 1\nstep 1 up 1\nstep 1 up 0\nstep 1 writer\n";

const READ_WHILE_CUT: &[u8] =
    b"read 1 2 0 66048\nread 1 0 0 512\nread 1 0 0 513\nrecover 1 0 0,2\nsettle\n";

/// What such a read may come to: the bytes from 0 up to 66048, 512 and 513, no more than what is visible, or an end.
const MAY_BE_READ: [&[u8]; 6] = [
    b"read 37 ok d23b37f9",
    b"read 37 refused 13 ",
    b"read 37 ended",
    b"read 38 ok 5c2b5514",
    b"read 39 refused 13 512",
    b"read 39 ok 96b5db80",
];

/// A closed block is read from its first byte to its last.
const READ_BACK: &[u8] =
    b"nodes 1\nseed 0\ncreate 1 0\nfill 1 600\nclose 1\nsettle\nread 1 0 0 600\n";

/// Where a connection is cut of a pipeline of three members: while it is set up, while it streams, behind its last packet,
/// and while an append sets it up.
const CUT_PLACES: [(&[u8], &[u8]); 4] = [
    (
        b"create 1 0,1,2\nrun 6\n",
        b"fill 1 600\nhflush 1\nclose 1\n",
    ),
    (
        b"create 1 0,1,2\nfill 1 600\nhflush 1\nrun 20\n",
        b"fill 1 600\nclose 1\n",
    ),
    (
        b"create 1 0,1,2\nfill 1 600\nsettle\nclose 1\nrun 6\n",
        b"append 1 0,1,2\nclose 1\n",
    ),
    (
        b"create 1 0,1,2\nfill 1 600\nclose 1\nsettle\nappend 1 0,1,2\nrun 6\n",
        b"fill 1 9\nclose 1\n",
    ),
];

/// The cuts of each connection: nothing more arrives, or a message down and two up do.
const CUTS: [&[u8]; 6] = [
    b"cut 1 0 0 0\n",
    b"cut 1 0 1 2\n",
    b"cut 1 1 0 0\n",
    b"cut 1 1 1 2\n",
    b"cut 1 2 0 0\n",
    b"cut 1 2 1 2\n",
];

/// A block without sums.
const UNSUMMED: &[u8] =
    b"nodes 2\nseed 0\nsums 1073741825 null 512\ncreate 1073741825 0,1\nwrite 1073741825 313233343536373839\nclose 1073741825\n";

const UNSUMMED_REPORT: &[u8] =
    b"replica 0 1073741825 FINALIZED 1001 9 9 e3069283 ok\nreplica 1 1073741825 FINALIZED 1001 9 9 e3069283 ok\nanswer 1073741825 0 create ok 1001\nanswer 1073741825 2 close ok 9 1001 0,1\nend\n";

/// What goes down of a run: the request to write the block, the packet of the nine bytes and the last
/// packet.
const NINE_DOWN: &[u8] =
    b"\x00\x1c\x50\x4a\x0a\x37\x0a\x1f\x0a\x1d\x0a\x10\x42\x50\x2d\x31\x2d\x31\x32\x37\x2e\x30\x2e\x30\x2e\x31\x2d\x31\x10\x81\x80\x80\x80\x04\x18\xe9\x07\x20\x00\x12\x14\x44\x46\x53\x43\x6c\x69\x65\x6e\x74\x5f\x31\x30\x37\x33\x37\x34\x31\x38\x32\x35\x20\x06\x28\x01\x30\x00\x38\x00\x40\x00\x4a\x05\x08\x02\x10\x80\x04\x00\x00\x00\x11\x00\x19\x09\x00\x00\x00\x00\x00\x00\x00\x00\x11\x00\x00\x00\x00\x00\x00\x00\x00\x18\x00\x25\x09\x00\x00\x00\xe3\x06\x92\x83\x31\x32\x33\x34\x35\x36\x37\x38\x39\x00\x00\x00\x04\x00\x19\x09\x09\x00\x00\x00\x00\x00\x00\x00\x11\x01\x00\x00\x00\x00\x00\x00\x00\x18\x01\x25\x00\x00\x00\x00";

/// What goes up: the answer, and the acks of the packets 0 and 1.
const NINE_UP: &[u8] = b"\x04\x08\x00\x12\x00\x04\x08\x00\x10\x00\x04\x08\x02\x10\x00";

/// The same of an empty block, which has the last packet alone.
const EMPTY_DOWN: &[u8] =
    b"\x00\x1c\x50\x4a\x0a\x37\x0a\x1f\x0a\x1d\x0a\x10\x42\x50\x2d\x31\x2d\x31\x32\x37\x2e\x30\x2e\x30\x2e\x31\x2d\x31\x10\x81\x80\x80\x80\x04\x18\xe9\x07\x20\x00\x12\x14\x44\x46\x53\x43\x6c\x69\x65\x6e\x74\x5f\x31\x30\x37\x33\x37\x34\x31\x38\x32\x35\x20\x06\x28\x01\x30\x00\x38\x00\x40\x00\x4a\x05\x08\x02\x10\x80\x04\x00\x00\x00\x04\x00\x19\x09\x00\x00\x00\x00\x00\x00\x00\x00\x11\x00\x00\x00\x00\x00\x00\x00\x00\x18\x01\x25\x00\x00\x00\x00";

const EMPTY_UP: &[u8] = b"\x04\x08\x00\x12\x00\x04\x08\x00\x10\x00";

/// The summary of the storm 7.
const STORM_SEVEN: &[u8] =
    b"storm 7\nfinalized 1\nrbw 9\nrwr 11\nrur 0\nbroken 3\nbytes 4455424\nok 50\nfailed 94\nrecovered 1\nend\n";

/// How many flushes are told of one block.
const FLUSHES_IN_A_ROW: usize = 16;

/// More calls than any port of a run of nine bytes has.
const MOST_CALLS: u64 = 1000;

/// What a run stands on.
#[derive(Clone, Copy, PartialEq, Eq)]
enum Port {
    Script,
    Report,
    Roads,
    Shelf,
}

/// Which port fails, and at which of its calls, from 1; 0 is none.
#[derive(Clone, Copy)]
struct Failing {
    port: Port,
    number: u64,
}

impl Failing {
    /// The call at which this port fails.
    fn at(&self, port: Port) -> u64 {
        if self.port == port { self.number } else { 0 }
    }
}

/// No call fails.
const NONE: Failing = Failing {
    port: Port::Script,
    number: 0,
};

/// What a run leaves.
#[derive(Drop)]
struct Left {
    exit: Exit,
    report: MemSink,
    shelves: Vec<Fused<MemShelf>>,
    roads: MemRoads,
}

/// An empty shelf, of whose calls the one with this number fails; none with 0.
fn fused_shelf(alloc: Global, failing: u64) -> Result<Fused<MemShelf>, Fail> {
    let shelf = MemShelf::new(alloc, &[failing])?;
    Fused::new(shelf).map_err(|_| Fail::from("a shelf"))
}

/// So many empty shelves, of the first of which the call with this number fails.
fn fused_shelves(alloc: Global, count: usize, failing: u64) -> Result<Vec<Fused<MemShelf>>, Fail> {
    let mut shelves = vec![in alloc; fused_shelf(alloc, failing)?]?;
    for _ in 1..count {
        shelves.push(fused_shelf(alloc, 0)?)?;
    }
    Ok(shelves)
}

/// Runs a script on three shelves, with the words of this line.
fn run_one(alloc: Global, line: &str, text: &[u8], failing: Failing) -> Result<Left, Fail> {
    let shelves = fused_shelves(alloc, 3, failing.at(Port::Shelf))?;
    run_on(alloc, shelves, line, text, failing)
}

/// Runs what the words of this line ask for, on these shelves.
fn run_on(
    alloc: Global,
    shelves: Vec<Fused<MemShelf>>,
    line: &str,
    text: &[u8],
    failing: Failing,
) -> Result<Left, Fail> {
    new_roads_are_unused::<Cutting<MemRoads>>();
    let mut words = Vec::new(alloc);
    for word in line.split_whitespace() {
        words.push(String::from_str(alloc, word)?)?;
    }
    let mut source = MemSource::new(alloc, text, &[failing.at(Port::Script)])?;
    let mut report = MemSink::new(alloc, &[failing.at(Port::Report)])?;
    let mut shelves = shelves;
    let mut roads = Cutting::new(alloc, MemRoads::new(alloc, &[failing.at(Port::Roads)])?);
    let exit = run(
        alloc,
        &words,
        &mut source,
        &mut report,
        &mut shelves,
        &mut roads,
    );
    Ok(Left {
        exit,
        report,
        shelves,
        roads: roads.into_inner(),
    })
}

/// A script of these parts.
fn script_of(alloc: Global, parts: &[&[u8]]) -> Result<Vec<u8>, Fail> {
    let mut script = Vec::new(alloc);
    for part in parts {
        script.extend_from_slice(part)?;
    }
    Ok(script)
}

/// What each of the examples reports.
#[test]
fn examples_are_reported(rt: HostRuntime) -> Result<(), Fail> {
    let table: [(&[u8], &[u8]); 14] = [
        (NINE, NINE_REPORT),
        (TWO_PACKETS, TWO_PACKETS_REPORT),
        (EMPTY, EMPTY_REPORT),
        (APPEND, APPEND_REPORT),
        (FLUSHES, FLUSHES_REPORT),
        (CUT_STREAM, CUT_STREAM_REPORT),
        (FILE_FAULT, FILE_FAULT_REPORT),
        (STOP_STREAM, STOP_STREAM_REPORT),
        (STOP_FIRST, STOP_FIRST_REPORT),
        (START_STREAM, START_STREAM_REPORT),
        (START_APPEND, APPEND_REPORT),
        (VISIBLE_READ, VISIBLE_READ_REPORT),
        (BLOCK_RECOVERY, BLOCK_RECOVERY_REPORT),
        (UNSUMMED, UNSUMMED_REPORT),
    ];
    for (script, report) in table {
        let left = run_one(rt.alloc(), "play", script, NONE)?;
        assert_eq!(rt; left.exit, Exit::Done);
        assert_eq!(rt; left.report.bytes(), report);
    }
    Ok(())
}

/// What two of them carry.
#[test]
fn examples_are_carried(rt: HostRuntime) -> Result<(), Fail> {
    let table = [(NINE, NINE_DOWN, NINE_UP), (EMPTY, EMPTY_DOWN, EMPTY_UP)];
    for (script, down, up) in table {
        let left = run_one(rt.alloc(), "play", script, NONE)?;
        let carried = left.roads.carried_bytes(rt.alloc(), ConnId(0), true)?;
        assert_eq!(rt; carried.as_slice(), down);
        let carried = left.roads.carried_bytes(rt.alloc(), ConnId(0), false)?;
        assert_eq!(rt; carried.as_slice(), up);
    }
    Ok(())
}

/// The numbers of packets: they begin anew with each setup.
#[test]
fn packets_are_numbered(rt: HostRuntime) -> Result<(), Fail> {
    for (script, conn) in [(TWO_PACKETS, 0), (APPEND, 1)] {
        let left = run_one(rt.alloc(), "play", script, NONE)?;
        let carried = left.roads.carried_bytes(rt.alloc(), ConnId(conn), false)?;
        assert_eq!(rt; carried.as_slice(), THREE_ACKS);
    }
    Ok(())
}

/// Three members, and sixteen flushes of 64 KiB.
#[test]
fn flushes_are_answered(rt: HostRuntime) -> Result<(), Fail> {
    let mut script = Vec::new(rt.alloc());
    script.extend_from_slice(b"nodes 3\nseed 5\ncreate 1 0,1,2\n")?;
    for _ in 0..FLUSHES_IN_A_ROW {
        script.extend_from_slice(b"fill 1 65536\nhflush 1\n")?;
    }
    script.extend_from_slice(b"close 1\nexpect 0 1 FINALIZED 1001 1048576\n")?;
    script.extend_from_slice(b"expect 1 1 FINALIZED 1001 1048576\n")?;
    script.extend_from_slice(b"expect 2 1 FINALIZED 1001 1048576\n")?;
    let left = run_one(rt.alloc(), "play", &script, NONE)?;
    assert_eq!(rt; left.exit, Exit::Done);
    let lines = left.report.bytes().split(|byte| *byte == b'\n');
    let flushed = lines.filter(|line| line.ends_with(b" 1001 0,1,2")).count();
    assert_eq!(rt; flushed, FLUSHES_IN_A_ROW + 1);
    Ok(())
}

/// Each connection of a pipeline is cut, at each of its places: the play goes on to its end, and no command waits for an
/// answer.
#[test]
fn each_connection_is_cut(rt: HostRuntime) -> Result<(), Fail> {
    for (before, behind) in CUT_PLACES {
        for cut in CUTS {
            let parts = [b"nodes 3\nseed 7\n".as_slice(), before, cut, behind];
            let script = script_of(rt.alloc(), &parts)?;
            let left = run_one(rt.alloc(), "play", &script, NONE)?;
            assert_eq!(rt; left.exit, Exit::Done);
            let mut lines = left.report.bytes().split(|byte| *byte == b'\n');
            assert!(rt; !lines.any(|line| line.ends_with(b" waiting")));
        }
    }
    Ok(())
}

/// A block is recovered whatever its sums are.
#[test]
fn blocks_are_recovered_under_all_sums(rt: HostRuntime) -> Result<(), Fail> {
    for sums in SUMS {
        let parts = [b"nodes 2\nseed 0\n".as_slice(), sums, SUMMED_RECOVERY];
        let script = script_of(rt.alloc(), &parts)?;
        let left = run_one(rt.alloc(), "play", &script, NONE)?;
        assert_eq!(rt; left.report.bytes(), SUMMED_RECOVERY_REPORT);
    }
    Ok(())
}

/// The steps by which the packets reach the members, and the last one's acks the second.
fn stepped(alloc: Global) -> Result<Vec<u8>, Fail> {
    let mut steps = Vec::new(alloc);
    for (step, count) in STEPS {
        for _ in 0..count {
            steps.extend_from_slice(step)?;
        }
    }
    Ok(steps)
}

/// Whether each read of a report came to what it may.
fn are_lawful(report: &[u8]) -> bool {
    report
        .split(|byte| *byte == b'\n')
        .filter(|line| line.starts_with(b"read "))
        .all(|line| MAY_BE_READ.iter().any(|may| line.starts_with(may)))
}

/// Whether a read of a report ended.
fn has_ended(report: &[u8]) -> bool {
    report
        .split(|byte| *byte == b'\n')
        .any(|line| line == b"read 37 ended".as_slice())
}

/// What is reported of a read while a recovery cuts, behind this head.
fn read_while_cut(alloc: Global, head: &[u8]) -> Result<Left, Fail> {
    let steps = stepped(alloc)?;
    let parts = [head, WRITTEN, &steps, REBUILT, READ_WHILE_CUT];
    let script = script_of(alloc, &parts)?;
    run_one(alloc, "play", &script, NONE)
}

/// A read gets the bytes that were asked for, or is refused, or ends where a recovery cut its bytes off: one does.
#[test]
fn recoveries_cut_what_is_read(rt: HostRuntime) -> Result<(), Fail> {
    let mut ended = false;
    for head in HEADS {
        let left = read_while_cut(rt.alloc(), head)?;
        assert_eq!(rt; left.exit, Exit::Done);
        assert!(rt; are_lawful(left.report.bytes()));
        ended |= has_ended(left.report.bytes());
    }
    assert!(rt; ended);
    Ok(())
}

/// The storm of a number is the same each time, and needs five shelves.
#[test]
fn storms_are_summed_up(rt: HostRuntime) -> Result<(), Fail> {
    let few = Exit::BadScript {
        line: 1,
        kind: BadKind::TooManyNodes,
    };
    let table = [
        (5, Exit::Done, STORM_SEVEN),
        (5, Exit::Done, STORM_SEVEN),
        (4, few, b"".as_slice()),
    ];
    for (count, wanted, summary) in table {
        let shelves = fused_shelves(rt.alloc(), count, 0)?;
        let left = run_on(rt.alloc(), shelves, "storm 7", NINE, NONE)?;
        assert_eq!(rt; left.exit, wanted);
        assert_eq!(rt; left.report.bytes(), summary);
    }
    Ok(())
}

/// The replica is finalized with nine bytes, and ten are expected.
#[test]
fn a_difference_is_told(rt: HostRuntime) -> Result<(), Fail> {
    let mut script = Vec::new(rt.alloc());
    script.extend_from_slice(NINE)?;
    script.extend_from_slice(b"expect 0 1073741825 FINALIZED 1001 10\n")?;
    let left = run_one(rt.alloc(), "play", &script, NONE)?;
    let finalized = |length| Expected {
        state: ReplicaState::Finalized,
        stamp: Stamp(1001),
        length,
    };
    let differs = Exit::Differs {
        line: 6,
        want: finalized(10),
        got: Some(finalized(9)),
    };
    assert_eq!(rt; (left.exit.status(), left.exit.name()), (6, "Differs"));
    assert_eq!(rt; left.exit, differs);
    assert_eq!(rt; left.report.bytes(), NINE_REPORT);
    Ok(())
}

/// The bytes of a file in a drawer.
fn contents<F: Files>(alloc: Global, drawer: &mut F, name: &[u8]) -> Result<Vec<u8>, Fail> {
    let name = FileName::new(name).ok_or("a name")?;
    let mut bytes = vec![in alloc; 0; 64]?;
    let count = drawer.read_at(&name, 0, &mut bytes)?;
    bytes.truncate(count);
    Ok(bytes)
}

#[test]
fn both_files_are_stored(rt: HostRuntime) -> Result<(), Fail> {
    let mut left = run_one(rt.alloc(), "play", NINE, NONE)?;
    assert_eq!(rt; left.exit, Exit::Done);
    let shelf = left.shelves.first_mut().ok_or("a shelf")?;
    let mut drawer = shelf.lend(rt.alloc(), BlockId(1073741825))?;
    assert_eq!(rt; drawer.names(rt.alloc())?.len(), 2);
    let body = contents(
        rt.alloc(),
        &mut drawer,
        b"current/BP-1-127.0.0.1-1/current/finalized/subdir0/subdir0/blk_1073741825",
    )?;
    assert_eq!(rt; body.as_slice(), b"123456789".as_slice());
    let sums = contents(
        rt.alloc(),
        &mut drawer,
        b"current/BP-1-127.0.0.1-1/current/finalized/subdir0/subdir0/blk_1073741825_1001.meta",
    )?;
    assert_eq!(rt;
        sums.as_slice(),
        b"\x00\x01\x02\x00\x00\x02\x00\xe3\x06\x92\x83".as_slice()
    );
    Ok(())
}

/// Runs a script with each call of a port failing in turn, until the one that fails is never made.
fn fail_in_turn(
    rt: &impl Abort,
    alloc: Global,
    script: &[u8],
    port: Port,
    fault: &Exit,
) -> Result<(), Fail> {
    for number in 1..MOST_CALLS {
        let left = run_one(alloc, "play", script, Failing { port, number })?;
        if left.exit == Exit::Done {
            assert!(rt; number > 1);
            return Ok(());
        }
        assert_eq!(rt; &left.exit, fault, "call {number}");
    }
    Err(Fail::from("a call always fails"))
}

/// Each port's fault is told as its own.
#[test]
fn each_call_fails_in_turn(rt: HostRuntime) -> Result<(), Fail> {
    let shelf = Exit::ShelfFault { node: NodeId(0) };
    fail_in_turn(&rt, rt.alloc(), NINE, Port::Script, &Exit::ScriptFault)?;
    fail_in_turn(&rt, rt.alloc(), NINE, Port::Report, &Exit::ReportFault)?;
    fail_in_turn(&rt, rt.alloc(), START_APPEND, Port::Shelf, &shelf)?;
    fail_in_turn(&rt, rt.alloc(), READ_BACK, Port::Shelf, &shelf)?;
    fail_in_turn(&rt, rt.alloc(), READ_BACK, Port::Roads, &Exit::RoadFault)?;
    fail_in_turn(&rt, rt.alloc(), NINE, Port::Roads, &Exit::RoadFault)
}

/// Words that aren't `play`, and texts that are no script.
#[test]
fn words_and_scripts_are_refused(rt: HostRuntime) -> Result<(), Fail> {
    let usage = |rule| Exit::Usage { rule };
    let bad = |line, kind| Exit::BadScript { line, kind };
    let table: [(&str, &[u8], Exit); 9] = [
        ("", NINE, usage(UsageRule::Words)),
        ("walk", NINE, usage(UsageRule::Mode)),
        ("live", NINE, usage(UsageRule::Mode)),
        ("storm", NINE, usage(UsageRule::Number)),
        ("play --loopback", NINE, usage(UsageRule::Loopback)),
        (
            "play",
            b"nodes 1\nseed 0\nwrite 1 00\n",
            bad(3, BadKind::Block),
        ),
        ("play", b"nodes 1\n", bad(2, BadKind::Head)),
        ("play", b"", bad(1, BadKind::Head)),
        ("play", b"nodes 4\nseed 0\n", bad(1, BadKind::TooManyNodes)),
    ];
    for (mode, script, wanted) in table {
        let left = run_one(rt.alloc(), mode, script, NONE)?;
        assert_eq!(rt; left.exit, wanted);
        assert_eq!(rt; left.report.bytes(), b"".as_slice());
    }
    Ok(())
}
