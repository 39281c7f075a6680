//! Worked scripts, one line for each rule, and reading with memory that runs out.

use hd_base::{BlockId, ByteList, Members, NodeId, ReplicaState, Stamp, SumKind, SumRule};
use script_lang::{BadKind, Instruction, ScriptError, ScriptLine, StepEvent, read_script};
use std::alloc::{AllocError, Global};
use std::test::Fail;

/// What is wrong with a body behind the head of a script of three nodes: the line and its rule.
fn fault(alloc: Global, body: &[u8]) -> Result<Option<(u64, BadKind)>, AllocError> {
    let mut text = Vec::from_slice(alloc, b"nodes 3\nseed 0\n")?;
    text.extend_from_slice(body)?;
    match read_script(alloc, text.as_slice(), 16) {
        Ok(_) => Ok(None),
        Err(ScriptError::Bad { line, kind }) => Ok(Some((line, kind))),
        Err(ScriptError::Memory) => Err(AllocError),
    }
}

/// What is wrong with a whole text, where there are two shelves.
fn fault_of(alloc: Global, text: &[u8]) -> Option<ScriptError> {
    read_script(alloc, text, 2).err()
}

#[test]
fn the_head_comes_first(rt: HostRuntime) {
    let head = |line: u64| {
        Some(ScriptError::Bad {
            line,
            kind: BadKind::Head,
        })
    };
    assert_eq!(rt; fault_of(rt.alloc(), b""), head(1));
    assert_eq!(rt; fault_of(rt.alloc(), b"nodes 1"), head(2));
    assert_eq!(rt; fault_of(rt.alloc(), b"# a\n\nseed 1\n"), head(3));
    assert_eq!(rt; fault_of(rt.alloc(), b"nodes 1\nnodes 1\n"), head(2));
    assert_eq!(rt; fault_of(rt.alloc(), b"nodes 1\r\nseed 0\r\n"), None);
}

#[test]
fn the_head_is_read_as_any_line(rt: HostRuntime) {
    let bad = |line: u64, kind: BadKind| Some(ScriptError::Bad { line, kind });
    assert_eq!(rt; fault_of(rt.alloc(), b"nodes\n"), bad(1, BadKind::Arity));
    assert_eq!(rt; fault_of(rt.alloc(), b"nodes 0\n"), bad(1, BadKind::Number));
    assert_eq!(rt;
        fault_of(rt.alloc(), b"nodes 17\n"),
        bad(1, BadKind::Number)
    );
    assert_eq!(rt;
        fault_of(rt.alloc(), b"nodes 3\n"),
        bad(1, BadKind::TooManyNodes)
    );
    assert_eq!(rt;
        fault_of(rt.alloc(), b"nodes 1\nseed 0 0\n"),
        bad(2, BadKind::Arity)
    );
    assert_eq!(rt;
        fault_of(rt.alloc(), b"nodes 1\nseed -1\n"),
        bad(2, BadKind::Number)
    );
}

/// Bodies of one line that break a rule by themselves.
const LINES: [(&[u8], BadKind); 32] = [
    (b"settle\x07", BadKind::Byte),
    (b"# caf\xe9", BadKind::Byte),
    (b"set\rtle", BadKind::Byte),
    (b"settle\r", BadKind::Byte),
    (b"nodes 3", BadKind::Word),
    (b"seed 0", BadKind::Word),
    (b"spare 1 0", BadKind::Word),
    (b"SETTLE", BadKind::Word),
    (b"sums x md5 512", BadKind::Word),
    (b"step x sideways", BadKind::Word),
    (b"expect 0 1 rbw", BadKind::Word),
    (b"settle 1", BadKind::Arity),
    (b"step 1", BadKind::Arity),
    (b"step x down", BadKind::Arity),
    (b"step 1 writer 0", BadKind::Arity),
    (b"expect 0 1", BadKind::Arity),
    (b"read 1 0 0", BadKind::Arity),
    (b"cut 1 0 0 0 0", BadKind::Arity),
    (b"run 1000001", BadKind::Number),
    (b"run 0x10", BadKind::Number),
    (b"fill 1 0", BadKind::Number),
    (b"fault 0 0", BadKind::Number),
    (b"sums 1 crc32 15", BadKind::Number),
    (b"close 18446744073709551616", BadKind::Number),
    (b"create 1 9,0x1", BadKind::Number),
    (b"write 1 0", BadKind::Hex),
    (b"create 1 0,", BadKind::Member),
    (b"create 1 0,3", BadKind::Member),
    (b"create 1 00,0", BadKind::Member),
    (b"stop 1099511627776", BadKind::Node),
    (b"start 0", BadKind::Node),
    (b"close 1", BadKind::Block),
];

#[test]
fn a_line_breaks_a_rule(rt: HostRuntime) -> Result<(), Fail> {
    for (line, kind) in LINES {
        assert_eq!(rt; fault(rt.alloc(), line)?, Some((3, kind)));
    }
    Ok(())
}

/// Bodies of two lines, of which the second doesn't fit the first.
const PAIRS: [(&[u8], BadKind); 14] = [
    (b"create 1 0\ncreate 1 1", BadKind::Block),
    (b"create 1 0\nappend 1 0", BadKind::Block),
    (b"create 1 0\nsums 1 null 512", BadKind::Block),
    (b"sums 1 null 512\nsums 1 crc32 16", BadKind::Block),
    (b"sums 1 null 512\nhflush 1", BadKind::Block),
    (b"create 1 0\nhsync 2", BadKind::Block),
    (b"create 1 0\nread 2 0 0 33554433", BadKind::Block),
    (b"create 1 0\nrecover 2 0 0", BadKind::Block),
    (b"create 1 0\ncut 2 0 0 0", BadKind::Block),
    (b"create 1 0\nstep 2 writer", BadKind::Block),
    (b"create 1 0\nfill 1 33554433", BadKind::TooMuch),
    (b"create 1 0\nread 1 0 0 33554433", BadKind::TooMuch),
    (b"stop 1\nstop 01", BadKind::Node),
    (b"# \r\nstart 1", BadKind::Node),
];

#[test]
fn a_line_does_not_fit(rt: HostRuntime) -> Result<(), Fail> {
    for (body, kind) in PAIRS {
        assert_eq!(rt; fault(rt.alloc(), body)?, Some((4, kind)));
    }
    Ok(())
}

/// Bodies that are good.
const GOOD: [&[u8]; 8] = [
    b"",
    b" \t \n#\n \tsettle \t\r\nrun 1000000",
    b"create 18446744073709551615 0,1,02\nclose 18446744073709551615\nappend 18446744073709551615 2",
    b"sums 1 crc32c 65536\ncreate 1 0\nfill 1 33554432\nread 1 2 9 33554432",
    b"expect 2 7 TEMPORARY 0 0\nfault 0 1\nfault 0 2",
    b"create 1 0\nstep 1 writer\nstep 1 down 0\nstep 1 ready 0\nstep 1 up 0\ncut 1 9 9 9",
    b"create 1 0\nwrite 1 aAfF00\nhflush 1\nhsync 1\nclose 1\nrecover 1 2 0,2",
    b"stop 0\nfault 0 1\nstart 0\nstop 0",
];

#[test]
fn good_bodies_are_read(rt: HostRuntime) -> Result<(), Fail> {
    for body in GOOD {
        assert_eq!(rt; fault(rt.alloc(), body)?, None);
    }
    Ok(())
}

#[test]
fn a_long_text_is_refused(rt: HostRuntime) -> Result<(), Fail> {
    let bad = |line: u64, kind: BadKind| Some(ScriptError::Bad { line, kind });
    let text = vec![in rt.alloc(); b'\n'; 65_537]?;
    assert_eq!(rt;
        fault_of(rt.alloc(), text.as_slice()),
        bad(65_537, BadKind::Lines)
    );
    let text = vec![in rt.alloc(); b' '; 16_777_217]?;
    assert_eq!(rt;
        fault_of(rt.alloc(), text.as_slice()),
        bad(0, BadKind::TooLong)
    );
    let text = vec![in rt.alloc(); b' '; 16_777_216]?;
    assert_eq!(rt;
        fault_of(rt.alloc(), text.as_slice()),
        bad(2, BadKind::Head)
    );
    Ok(())
}

/// A first write.
const FIRST_WRITE: &[u8] =
    b"nodes 1\nseed 0\ncreate 1073741825 0\nwrite 1073741825 313233343536373839\nclose 1073741825\n";

#[test]
fn a_first_write_is_read(rt: HostRuntime) -> Result<(), Fail> {
    let script = read_script(rt.alloc(), FIRST_WRITE, 1)?;
    let lines = script.as_slice();
    assert_eq!(rt; lines.len(), 5);
    let block = BlockId(1_073_741_825);
    assert_eq!(rt; lines[0].instruction, Instruction::Nodes { count: 1 });
    let write = Instruction::Write {
        block,
        bytes: ByteList::from_slice(rt.alloc(), b"123456789")?,
    };
    assert_eq!(rt;
        lines[3],
        ScriptLine {
            number: 4,
            instruction: write
        }
    );
    assert_eq!(rt; lines[4].instruction, Instruction::Close { block });
    Ok(())
}

#[test]
fn each_word_has_its_place(rt: HostRuntime) -> Result<(), Fail> {
    let text =
        b"nodes 3\nseed 7\ncreate 1 2,0\n\nread 1 2 3 4\ncut 1 5 6 7\nexpect 1 2 RWR 8 9\nstep 1 up 2";
    let script = read_script(rt.alloc(), text, 3)?;
    let lines = script.as_slice();
    assert_eq!(rt; lines.len(), 7);
    let block = BlockId(1);
    let members = Members::new(&[NodeId(2), NodeId(0)]).ok_or("members")?;
    assert_eq!(rt;
        lines[2].instruction,
        Instruction::Create { block, members }
    );
    let read = Instruction::Read {
        block,
        node: NodeId(2),
        offset: 3,
        count: 4,
    };
    assert_eq!(rt;
        lines[3],
        ScriptLine {
            number: 5,
            instruction: read
        }
    );
    let cut = Instruction::Cut {
        block,
        connection: 5,
        down: 6,
        up: 7,
    };
    assert_eq!(rt; lines[4].instruction, cut);
    let expect = Instruction::Expect {
        node: NodeId(1),
        block: BlockId(2),
        state: ReplicaState::Rwr,
        stamp: Stamp(8),
        written: 9,
    };
    assert_eq!(rt; lines[5].instruction, expect);
    let event = StepEvent::Up { connection: 2 };
    assert_eq!(rt; lines[6].instruction, Instruction::Step { block, event });
    Ok(())
}

#[test]
fn a_rule_of_sums_is_read(rt: HostRuntime) -> Result<(), Fail> {
    let script = read_script(rt.alloc(), b"nodes 1\nseed 0\nsums 1 null 16", 1)?;
    let lines = script.as_slice();
    assert_eq!(rt; lines.len(), 3);
    let rule = SumRule::new(SumKind::Null, 16).ok_or("rule")?;
    let block = BlockId(1);
    assert_eq!(rt; lines[2].instruction, Instruction::Sums { block, rule });
    Ok(())
}
