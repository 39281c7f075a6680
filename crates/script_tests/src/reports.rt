//! Lines of worked reports: what they say, and that they print to themselves.

use hd_base::{BlockId, ByteList, Members, NodeId, ReplicaState, Stamp};
use script_lang::{
    Answer, Failure, FlushResult, LineFault, OfficeRefusal, ReadResult, RecoveryResult, ReportLine,
    SetupResult, print_line, read_line,
};
use std::alloc::{AllocError, Global};
use std::test::Fail;

/// What a line prints to.
fn text_of(alloc: Global, line: &ReportLine) -> Result<Vec<u8>, AllocError> {
    let mut text = Vec::new(alloc);
    print_line(line, &mut text)?;
    Ok(text)
}

/// Lines of reports.
const LINES: [&[u8]; 14] = [
    b"replica 1 1 RBW 1001 0 0 - broken\n",
    b"down 4294967295\n",
    b"answer 1073741825 0 create ok 1001\n",
    b"answer 1 2 hflush ok 512 1001 0,1,2\n",
    b"answer 1 4 close lost 1002\n",
    b"answer 1 4 append refused notclosed\n",
    b"answer 1 18446744073709551615 hsync waiting\n",
    b"read 9 ok 98c1d36c\n",
    b"read 9 refused 13 300\n",
    b"read 9 badsum 0\n",
    b"recovery 7 ok 1002 9 0,1\n",
    b"recovery 7 unequal 512 1000\n",
    b"recovery 7 noneupdated\n",
    b"end\n",
];

#[test]
fn what_is_read_prints_to_itself(rt: HostRuntime) -> Result<(), Fail> {
    for line in LINES {
        let read = read_line(rt.alloc(), line)?;
        assert_eq!(rt; text_of(rt.alloc(), &read)?.as_slice(), line);
    }
    Ok(())
}

/// Lines that no report has.
const OTHERS: [&[u8]; 12] = [
    b"",
    b"end",
    b"end \n",
    b"end\n\n",
    b"down 01\n",
    b"down 4294967296\n",
    b"read 9 ok 98C1D36C\n",
    b"read 9 ok 98c1d36\n",
    b"recovery 7 ok 1002 9 1,1\n",
    b"answer 1 0 create ok 1001 0\n",
    b"answer 1 0 fill waiting\n",
    b"replica 1 1 RBW 1001 0 0 - ok\n",
];

#[test]
fn other_lines_are_refused(rt: HostRuntime) {
    for line in OTHERS {
        assert_eq!(rt; read_line(rt.alloc(), line).err(), Some(LineFault::Line));
    }
}

#[test]
fn a_replica_is_read(rt: HostRuntime) -> Result<(), Fail> {
    let line = read_line(rt.alloc(), b"replica 0 7 FINALIZED 1001 9 8 e3069283 ok\n")?;
    let replica = ReportLine::Replica {
        node: NodeId(0),
        block: BlockId(7),
        state: ReplicaState::Finalized,
        stamp: Stamp(1001),
        written: 9,
        acked: 8,
        sum: Some(0xe306_9283),
    };
    assert_eq!(rt; line, replica);
    Ok(())
}

#[test]
fn answers_are_printed(rt: HostRuntime) -> Result<(), Fail> {
    let members = Members::new(&[NodeId(2), NodeId(0)]).ok_or("members")?;
    let close = ReportLine::Answer {
        block: BlockId(1),
        ordinal: 3,
        answer: Answer::Close(FlushResult::Ok {
            length: 32,
            stamp: Stamp(1002),
            members,
        }),
    };
    assert_eq!(rt;
        text_of(rt.alloc(), &close)?.as_slice(),
        b"answer 1 3 close ok 32 1002 2,0\n".as_slice()
    );
    let failed = ReportLine::Answer {
        block: BlockId(1),
        ordinal: 0,
        answer: Answer::Append(SetupResult::Failed(Failure::AllBad { node: NodeId(2) })),
    };
    assert_eq!(rt;
        text_of(rt.alloc(), &failed)?.as_slice(),
        b"answer 1 0 append allbad 2\n".as_slice()
    );
    Ok(())
}

#[test]
fn reads_and_recoveries_are_printed(rt: HostRuntime) -> Result<(), Fail> {
    let read = ReportLine::Read {
        line: 9,
        result: ReadResult::Refused {
            text: ByteList::from_slice(rt.alloc(), b"3 2")?,
        },
    };
    assert_eq!(rt;
        text_of(rt.alloc(), &read)?.as_slice(),
        b"read 9 refused 3 2\n".as_slice()
    );
    let recovery = ReportLine::Recovery {
        line: 7,
        result: RecoveryResult::Refused(OfficeRefusal::Unknown),
    };
    assert_eq!(rt;
        text_of(rt.alloc(), &recovery)?.as_slice(),
        b"recovery 7 refused unknown\n".as_slice()
    );
    Ok(())
}
