//! Worked examples of the office's calls and of choices.

use hd_base::{BlockId, Members, NodeId, ReplicaState, Stamp};
use name_core::{
    ChooseFault, Chosen, Desk, Info, Infos, OfficeAnswer, OfficeBook, OfficeCall, OfficeFault,
    SharedDesk, choose,
};
use std::process::Abort;
use std::sync::{Arc, Mutex};
use std::test::Fail;
use std::thread;

const BLOCK: BlockId = BlockId(7);

/// The members of these numbers.
fn members(rt: &impl Abort, nodes: &[NodeId]) -> Members {
    Members::new(nodes).expect(rt, "nodes that differ")
}

/// What is learnt of a replica under this stamp.
fn info(node: u32, state: ReplicaState, stamp: u64, length: u64) -> Info {
    Info {
        node: NodeId(node),
        state,
        stamp: Stamp(stamp),
        length,
    }
}

/// The choice among these replicas of a block of stamp 1001.
fn chosen(rt: &impl Abort, infos: &[Info]) -> Result<Chosen, ChooseFault> {
    let infos = Infos::new(infos).expect(rt, "nodes that differ");
    choose(Stamp(1001), &infos)
}

/// A choice of this length at these nodes.
fn choice(rt: &impl Abort, length: u64, nodes: &[NodeId]) -> Result<Chosen, ChooseFault> {
    let members = members(rt, nodes);
    Ok(Chosen { length, members })
}

#[test]
fn replicas_are_chosen(rt: HostRuntime) {
    let (rbw, rwr, finalized) = (
        ReplicaState::Rbw,
        ReplicaState::Rwr,
        ReplicaState::Finalized,
    );
    let [zero, one, two] = [NodeId(0), NodeId(1), NodeId(2)];
    let written = [
        info(0, rbw, 1001, 700),
        info(1, rbw, 1001, 1000),
        info(2, rbw, 1001, 900),
    ];
    assert_eq!(rt; chosen(&rt, &written), choice(&rt, 700, &[zero, one, two]));
    let closed = [
        info(0, finalized, 1001, 1000),
        info(1, rbw, 1001, 1000),
        info(2, rbw, 1001, 900),
    ];
    assert_eq!(rt; chosen(&rt, &closed), choice(&rt, 1000, &[zero, one]));
    let waiting = [info(0, rwr, 1001, 600), info(1, rwr, 1001, 512)];
    assert_eq!(rt; chosen(&rt, &waiting), choice(&rt, 512, &[zero, one]));
    let older = [info(0, rbw, 1000, 400), info(1, rbw, 1001, 700)];
    assert_eq!(rt; chosen(&rt, &older), choice(&rt, 700, &[one]));
    assert_eq!(rt;
        chosen(&rt, &[info(0, rbw, 1001, 0)]),
        Err(ChooseFault::Nothing)
    );
    let unequal = [
        info(0, finalized, 1002, 512),
        info(1, finalized, 1001, 1000),
    ];
    assert_eq!(rt;
        chosen(&rt, &unequal),
        Err(ChooseFault::Unequal { a: 512, b: 1000 })
    );
}

/// A book that knows a block of node 0, under the stamp 1001.
fn book(rt: &(impl Abort + AllocGlobal)) -> Result<OfficeBook, Fail> {
    let mut book = OfficeBook::new(rt.alloc())?;
    book.create(BLOCK, &members(rt, &[NodeId(0)]))?;
    Ok(book)
}

/// The next stamp of the block, asked for at this desk.
fn next_stamp<D: Desk>(mut desk: D) -> Option<OfficeAnswer> {
    desk.ask(&OfficeCall::NewStamp { block: BLOCK }).ok()
}

#[test]
fn threads_share_a_book(rt: HostRuntime) -> Result<(), Fail> {
    let shared = Arc::new(rt.alloc(), Mutex::new(book(&rt)?))?;
    let mine = SharedDesk::new(rt, Arc::try_clone(&shared)?);
    let theirs = SharedDesk::new(rt, shared);
    let (one, two) = thread::join(&rt, move || next_stamp(mine), move || next_stamp(theirs));
    let (low, high) = (
        OfficeAnswer::Stamp(Stamp(1002)),
        OfficeAnswer::Stamp(Stamp(1003)),
    );
    assert!(rt; (one == Some(low) && two == Some(high)) || (one == Some(high) && two == Some(low)));
    Ok(())
}

#[test]
fn faults_are_printed(rt: HostRuntime) -> Result<(), Fail> {
    let cases = [
        (OfficeFault::Known, "the block is known"),
        (OfficeFault::Unknown, "the block isn't known"),
        (OfficeFault::NotOpen, "the block is closed"),
        (OfficeFault::NotClosed, "the block is open"),
        (
            OfficeFault::LeaseLost {
                recovery: Stamp(1002),
            },
            "the lease is lost to the recovery 1002",
        ),
        (
            OfficeFault::OldRecovery { latest: None },
            "the latest recovery is none",
        ),
        (
            OfficeFault::OldRecovery {
                latest: Some(Stamp(1002)),
            },
            "the latest recovery is 1002",
        ),
        (
            OfficeFault::TooLong { length: 9 },
            "the length 9 is too long for an append",
        ),
    ];
    for (fault, text) in cases {
        assert_eq!(rt; format!(in rt.alloc(); "{fault}")?.as_str(), text);
    }
    Ok(())
}
