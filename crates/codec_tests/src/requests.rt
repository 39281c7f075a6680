//! Requests and answers of worked examples and of `protoc`, byte for byte.

use hd_base::{BlockId, ByteList, ReplicaState, Stamp, Status};
use op_headers::{
    AnswerFault, BlockRef, ChecksumOp, NodeRef, Op, OpFault, ReadOp, RecoveryAnswer, RecoveryKind,
    RecoveryOp, Targets, TransferOp, WriteOp, decode_answer, decode_op, encode_answer, encode_op,
};
use std::alloc::{AllocError, Global};
use std::process::Abort;
use std::test::Fail;

/// The write request of a first write to one member.
const FIRST: &[u8] = b"\
    \x00\x1cPJ\x0a7\x0a\x1f\x0a\x1d\x0a\x10BP-1-127.0.0.1-1\x10\x81\x80\x80\x80\x04\x18\xe9\
    \x07 \x00\x12\x14DFSClient_1073741825 \x06(\x010\x008\x00@\x00J\x05\x08\x02\x10\x80\x04";

// What follows are the bytes that `protoc` writes for the messages in data/, each behind its head.

/// A write request to a first member, with all that a client fills in.
const WRITE: &[u8] = b"\
    \x00\x1cP\x89\x04\x0ak\x0aL\x0a\x1e\x0a\x10BP-1-127.0.0.1-1\x10\x81\x80\x80\x80\x04\x18\
    \xe9\x07 \x80 \x12 \x0a\x02id\x12\x06secret\x1a\x10HDFS_BLOCK_TOKEN\x22\x00\x1a\x08\x08\
    \x07\x10\x08\x1a\x02\x01\x02\x12\x1bDFSClient_NONMAPREDUCE_-1_1\x12r\x0a$\x0a\x09127.\
    0.0.2\x12\x03dn2\x1a\x06uuid-2 \x8bM(\x89M0\x8cM8\x89M\x10\x80\xa0\x94\xa5\x8d\x1d\x18\
    \x01 \xff\x9f\x94\xa5\x8d\x1d(\x010\x80\xd4\x8e\x94\xac38\x03B\x0d/default-rackH\x00P\
    \x00X\x00`\x00h\x05r\x01ux\x80\xd4\x8e\x94\xac3\x80\x01\x06\x88\x01\x09\x92\x01\x053.\
    4.1\x12r\x0a$\x0a\x09127.0.0.3\x12\x03dn3\x1a\x06uuid-3 \x8cM(\x8aM0\x8dM8\x89M\x10\x80\
    \xa0\x94\xa5\x8d\x1d\x18\x01 \xff\x9f\x94\xa5\x8d\x1d(\x010\x80\xd4\x8e\x94\xac38\x03\
    B\x0d/default-rackH\x00P\x00X\x00`\x00h\x05r\x01ux\x80\xd4\x8e\x94\xac3\x80\x01\x06\x88\
    \x01\x09\x92\x01\x053.4.1\x1ar\x0a$\x0a\x09127.0.0.1\x12\x03dn1\x1a\x06uuid-1 \x8aM(\x88\
    M0\x8bM8\x89M\x10\x80\xa0\x94\xa5\x8d\x1d\x18\x01 \xff\x9f\x94\xa5\x8d\x1d(\x010\x80\xd4\
    \x8e\x94\xac38\x03B\x0d/default-rackH\x00P\x00X\x00`\x00h\x05r\x01ux\x80\xd4\x8e\x94\xac\
    3\x80\x01\x06\x88\x01\x09\x92\x01\x053.4.1 \x03(\x030\x80 8\x80@@\xea\x07J\x05\x08\x02\
    \x10\x80\x04R\x07\x08\x01\x10\x80\x80\x80\x02X\x02`\x01`\x02h\x00p\x01x\x01x\x00\x82\x01\
    \x04DS-1\x8a\x01\x04DS-2\x8a\x01\x04DS-3";

/// A read request that asks for no sums, with all that a client fills in.
const READ: &[u8] = b"\
    \x00\x1cQ\x84\x01\x0ak\x0aL\x0a\x1e\x0a\x10BP-1-127.0.0.1-1\x10\x81\x80\x80\x80\x04\x18\
    \xe9\x07 \x80 \x12 \x0a\x02id\x12\x06secret\x1a\x10HDFS_BLOCK_TOKEN\x22\x00\x1a\x08\x08\
    \x07\x10\x08\x1a\x02\x01\x02\x12\x1bDFSClient_NONMAPREDUCE_-1_1\x10\x80\x04\x18\x80\x08\
    \x20\x00*\x0d\x08\x00\x10\xff\xff\xff\xff\xff\xff\xff\xff\xff\x01";

/// A write request that a first member forwards.
const FORWARD: &[u8] = b"\
    \x00\x1cP\xba\x01\x0a7\x0a\x1f\x0a\x1d\x0a\x10BP-1-127.0.0.1-1\x10\x81\x80\x80\x80\x04\
    \x18\xe9\x07 \x00\x12\x14DFSClient_1073741825\x12#\x0a!\x0a\x09127.0.0.2\x12\x03dn2\x1a\
    \x06uuid-2 \x8bM(\x89M0\x8cM\x12#\x0a!\x0a\x09127.0.0.3\x12\x03dn3\x1a\x06uuid-3 \x8c\
    M(\x8aM0\x8dM\x1a#\x0a!\x0a\x09127.0.0.1\x12\x03dn1\x1a\x06uuid-1 \x8aM(\x88M0\x8bM \x06\
    (\x040\x008\x00@\xe9\x07J\x05\x08\x02\x10\x80\x04";

/// A read request.
const PLAIN_READ: &[u8] = b"\
    \x00\x1cQ?\x0a7\x0a\x1f\x0a\x1d\x0a\x10BP-1-127.0.0.1-1\x10\x81\x80\x80\x80\x04\x18\xe9\
    \x07 \x00\x12\x14DFSClient_1073741825\x10\x80\x04\x18\x80\x08";

/// A transfer request.
const PLAIN_TRANSFER: &[u8] = b"\
    \x00\x1cV^\x0a7\x0a\x1f\x0a\x1d\x0a\x10BP-1-127.0.0.1-1\x10\x81\x80\x80\x80\x04\x18\xe9\
    \x07 \x00\x12\x14DFSClient_1073741825\x12#\x0a!\x0a\x09127.0.0.2\x12\x03dn2\x1a\x06uu\
    id-2 \x8bM(\x89M0\x8cM";

/// A checksum request.
const PLAIN_CHECKSUM: &[u8] = b"\
    \x00\x1cU!\x0a\x1f\x0a\x1d\x0a\x10BP-1-127.0.0.1-1\x10\x81\x80\x80\x80\x04\x18\xe9\x07\
    \x20\x00";

/// The steps of a recovery.
const BEGIN: &[u8] = b"\
    \x00\x1c\x7fI\x08\x00\x12\x1d\x0a\x10BP-1-127.0.0.1-1\x10\x81\x80\x80\x80\x04\x18\xe9\
    \x07 \x00\x18\xea\x07*#\x0a!\x0a\x09127.0.0.2\x12\x03dn2\x1a\x06uuid-2 \x8bM(\x89M0\x8c\
    M";

const INIT: &[u8] = b"\
    \x00\x1c\x7f$\x08\x01\x12\x1d\x0a\x10BP-1-127.0.0.1-1\x10\x81\x80\x80\x80\x04\x18\xe9\
    \x07 \x00\x18\xea\x07";

const UPDATE: &[u8] = b"\
    \x00\x1c\x7f'\x08\x02\x12\x1d\x0a\x10BP-1-127.0.0.1-1\x10\x81\x80\x80\x80\x04\x18\xe9\
    \x07 \x00\x18\xea\x07 \x80\x04";

/// The answers to a step that was taken and to one that was refused.
const FOUND: &[u8] = b"\x0a\x08\x00\x18\x01 \xe9\x07(\x80\x04";

const REFUSED: &[u8] = b"\x05\x08\x01\x12\x011";

fn text(alloc: Global, bytes: &[u8]) -> Result<ByteList, AllocError> {
    Ok(ByteList::from_vec(Vec::from_slice(alloc, bytes)?))
}

/// The block of all examples, which has so many bytes.
fn block(alloc: Global, bytes: u64) -> Result<BlockRef, AllocError> {
    Ok(BlockRef {
        pool: text(alloc, b"BP-1-127.0.0.1-1")?,
        block: BlockId(1_073_741_825),
        stamp: Stamp(1001),
        bytes,
    })
}

/// The node of this number, 1 to 3.
fn node(alloc: Global, number: u32) -> Result<NodeRef, AllocError> {
    let (ip, host, uuid) = match number {
        1 => (b"127.0.0.1", b"dn1", b"uuid-1"),
        2 => (b"127.0.0.2", b"dn2", b"uuid-2"),
        _ => (b"127.0.0.3", b"dn3", b"uuid-3"),
    };
    Ok(NodeRef {
        ip: text(alloc, ip)?,
        host: text(alloc, host)?,
        uuid: text(alloc, uuid)?,
        xfer: 9865 + number.min(3),
        info: 9863 + number.min(3),
        ipc: 9866 + number.min(3),
    })
}

/// The nodes of these numbers.
fn nodes(alloc: Global, numbers: &[u32]) -> Result<Targets, AllocError> {
    let mut targets = Targets::new(alloc);
    for number in numbers {
        targets.push(node(alloc, *number)?)?;
    }
    Ok(targets)
}

/// Reads a request of all the bytes.
fn reads(rt: &impl Abort, alloc: Global, bytes: &[u8]) -> Result<Op, Fail> {
    let (op, taken) = decode_op(alloc, bytes)?;
    assert_eq!(rt; taken, bytes.len());
    Ok(op)
}

/// A request as it is written.
fn written(rt: &impl Abort, alloc: Global, op: &Op) -> Result<Vec<u8>, Fail> {
    assert!(rt; op.is_encodable(alloc)?);
    let mut out = Vec::new(alloc);
    encode_op(op, &mut out)?;
    Ok(out)
}

/// Whether the bytes are read as this request.
fn is_read(rt: &impl Abort, alloc: Global, op: &Op, bytes: &[u8]) -> Result<bool, Fail> {
    let read = reads(rt, alloc, bytes)?;
    Ok(read == *op)
}

/// Compares what is read of the bytes with a request, and what is written of it with the bytes.
fn writes(rt: &impl Abort, alloc: Global, op: Op, bytes: &[u8]) -> Result<(), Fail> {
    assert!(rt; is_read(rt, alloc, &op, bytes)?);
    assert!(rt; written(rt, alloc, &op)?.as_slice() == bytes);
    Ok(())
}

/// A write request that sets up a pipeline.
fn write(
    alloc: Global,
    targets: Targets,
    source: Option<NodeRef>,
    pipeline: u32,
    latest: u64,
) -> Result<Op, AllocError> {
    Ok(Op::Write(WriteOp {
        block: block(alloc, 0)?,
        client: text(alloc, b"DFSClient_1073741825")?,
        targets,
        source,
        stage: 6,
        pipeline,
        min: 0,
        max: 0,
        latest: Stamp(latest),
        kind: 2,
        chunk: 512,
    }))
}

/// A read request of a client with this name.
fn read(alloc: Global, client: &[u8]) -> Result<Op, AllocError> {
    Ok(Op::Read(ReadOp {
        block: block(alloc, 0)?,
        client: text(alloc, client)?,
        offset: 512,
        len: 1024,
    }))
}

/// A step of a recovery.
fn step(
    alloc: Global,
    kind: RecoveryKind,
    new_length: u64,
    targets: Targets,
) -> Result<Op, AllocError> {
    Ok(Op::Recovery(RecoveryOp {
        kind,
        block: block(alloc, 0)?,
        recovery: Stamp(1002),
        new_length,
        targets,
    }))
}

/// The write request of a first write to one member.
fn first_write(alloc: Global) -> Result<Op, AllocError> {
    write(alloc, Targets::new(alloc), None, 1, 0)
}

/// A write request that a first member forwards.
fn forwarded_write(alloc: Global) -> Result<Op, AllocError> {
    let targets = nodes(alloc, &[2, 3])?;
    let source = node(alloc, 1)?;
    write(alloc, targets, Some(source), 4, 1001)
}

/// A transfer request to one node.
fn transfer(alloc: Global) -> Result<Op, AllocError> {
    Ok(Op::Transfer(TransferOp {
        block: block(alloc, 0)?,
        client: text(alloc, b"DFSClient_1073741825")?,
        targets: nodes(alloc, &[2])?,
    }))
}

/// A checksum request.
fn checksum(alloc: Global) -> Result<Op, AllocError> {
    let block = block(alloc, 0)?;
    Ok(Op::Checksum(ChecksumOp { block }))
}

/// The first step of a recovery of one member.
fn begin(alloc: Global) -> Result<Op, AllocError> {
    let targets = nodes(alloc, &[2])?;
    step(alloc, RecoveryKind::Begin, 0, targets)
}

/// A step that names no member.
fn lone_step(alloc: Global, kind: RecoveryKind, new_length: u64) -> Result<Op, AllocError> {
    step(alloc, kind, new_length, Targets::new(alloc))
}

#[test]
fn reads_and_writes_requests(rt: HostRuntime) -> Result<(), Fail> {
    let alloc = rt.alloc();
    writes(&rt, alloc, first_write(alloc)?, FIRST)?;
    writes(&rt, alloc, forwarded_write(alloc)?, FORWARD)?;
    writes(
        &rt,
        alloc,
        read(alloc, b"DFSClient_1073741825")?,
        PLAIN_READ,
    )?;
    writes(&rt, alloc, transfer(alloc)?, PLAIN_TRANSFER)?;
    writes(&rt, alloc, checksum(alloc)?, PLAIN_CHECKSUM)?;
    writes(&rt, alloc, begin(alloc)?, BEGIN)
}

#[test]
fn reads_and_writes_steps(rt: HostRuntime) -> Result<(), Fail> {
    let alloc = rt.alloc();
    writes(&rt, alloc, lone_step(alloc, RecoveryKind::Init, 0)?, INIT)?;
    writes(
        &rt,
        alloc,
        lone_step(alloc, RecoveryKind::Update, 512)?,
        UPDATE,
    )
}

/// The write request of `WRITE`.
fn full_write(alloc: Global) -> Result<Op, AllocError> {
    let source = node(alloc, 1)?;
    Ok(Op::Write(WriteOp {
        block: block(alloc, 4096)?,
        client: text(alloc, b"DFSClient_NONMAPREDUCE_-1_1")?,
        targets: nodes(alloc, &[2, 3])?,
        source: Some(source),
        stage: 3,
        pipeline: 3,
        min: 4096,
        max: 8192,
        latest: Stamp(1002),
        kind: 2,
        chunk: 512,
    }))
}

/// The read request of `READ`.
fn full_read(alloc: Global) -> Result<Op, AllocError> {
    Ok(Op::Read(ReadOp {
        block: block(alloc, 4096)?,
        client: text(alloc, b"DFSClient_NONMAPREDUCE_-1_1")?,
        offset: 512,
        len: 1024,
    }))
}

/// The same values are read where a client fills in more fields.
#[test]
fn reads_full_requests(rt: HostRuntime) -> Result<(), Fail> {
    let alloc = rt.alloc();
    let write = full_write(alloc)?;
    let read = full_read(alloc)?;
    let is_write_read = is_read(&rt, alloc, &write, WRITE)?;
    let is_read_read = is_read(&rt, alloc, &read, READ)?;
    assert!(rt; is_write_read);
    assert!(rt; is_read_read);
    Ok(())
}

#[test]
fn refuses(rt: HostRuntime) -> Result<(), Fail> {
    let missing = |path| OpFault::Missing { path };
    for (bytes, fault) in [
        (b"\x00\x1bP".as_slice(), OpFault::Version { got: 27 }),
        (b"\x00\x1cS".as_slice(), OpFault::Opcode { got: 83 }),
    ] {
        assert_eq!(rt; decode_op(rt.alloc(), bytes).err(), Some(fault));
    }
    for (fault, text) in [
        (OpFault::Short, "the bytes end inside a request"),
        (OpFault::Version { got: 27 }, "version 27"),
        (OpFault::Opcode { got: 83 }, "opcode 83"),
        (
            OpFault::TooLong { length: 65_537 },
            "a message of 65537 bytes",
        ),
        (missing([1, 2, 0, 0]), "field 1.2 is missing"),
        (OpFault::Memory, "out of memory"),
    ] {
        assert_eq!(rt; fault.to_string(rt.alloc())?.as_str(), text);
    }
    Ok(())
}

/// Compares what is read of the bytes, and what is written, with this answer.
fn answers(
    rt: &impl Abort,
    alloc: Global,
    bytes: &[u8],
    answer: &RecoveryAnswer,
) -> Result<(), Fail> {
    let (read, taken) = decode_answer(alloc, bytes)?;
    assert_eq!(rt; taken, bytes.len());
    assert!(rt; read == answer.duplicate()?);
    assert!(rt; written_answer(rt, alloc, answer)?.as_slice() == bytes);
    Ok(())
}

/// An answer as it is written.
fn written_answer(
    rt: &impl Abort,
    alloc: Global,
    answer: &RecoveryAnswer,
) -> Result<Vec<u8>, Fail> {
    assert!(rt; answer.is_encodable(alloc)?);
    let mut out = Vec::new(alloc);
    encode_answer(answer, &mut out)?;
    Ok(out)
}

#[test]
fn reads_and_writes_answers(rt: HostRuntime) -> Result<(), Fail> {
    let alloc = rt.alloc();
    for (bytes, status, message, info) in [
        (
            FOUND,
            Status::Success,
            b"".as_slice(),
            Some((ReplicaState::Rbw, Stamp(1001), 512)),
        ),
        (REFUSED, Status::Error, b"1".as_slice(), None),
    ] {
        let answer = RecoveryAnswer {
            status,
            message: text(alloc, message)?,
            info,
        };
        answers(&rt, alloc, bytes, &answer)?;
    }
    Ok(())
}

#[test]
fn refuses_answers(rt: HostRuntime) -> Result<(), Fail> {
    let alloc = rt.alloc();
    for (bytes, fault, text) in [
        (
            b"\x81\x80\x04".as_slice(),
            AnswerFault::TooLong { length: 65_537 },
            "a message of 65537 bytes",
        ),
        (
            b"\x00".as_slice(),
            AnswerFault::Missing { field: 1 },
            "field 1 is missing",
        ),
    ] {
        assert_eq!(rt; decode_answer(alloc, bytes).err(), Some(fault));
        assert_eq!(rt; fault.to_string(alloc)?.as_str(), text);
    }
    Ok(())
}
