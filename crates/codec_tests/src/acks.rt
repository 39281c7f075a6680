//! Worked examples of the format, byte for byte.

ghost use Rattle.std.specs.Prelude.{All, IfOk};
ghost use Rattle.hd_base.specs.Wire.{IsStatus};

use ack_codec::{
    Ack, AckBytes, AckFault, Replies, Response, ResponseFault, decode_ack, decode_read_status,
    decode_response, encode_ack, encode_response,
};
use hd_base::{ByteList, Status};
use std::alloc::{AllocError, Global};
use std::process::Abort;
use std::test::Fail;

/// Three replies to packet 0, one to packet 1, packed replies with fields that are not kept, and
/// one reply to a heartbeat.
const THREE: &[u8] = b"\x08\x08\x00\x10\x00\x10\x00\x10\x00";

const ONE: &[u8] = b"\x04\x08\x02\x10\x00";

const PACKED: &[u8] = b"\x0e\x08\x00\x12\x03\x00\x00\x00\x18\x05\x22\x03\x00\x00\x00";

const HEARTBEAT: &[u8] = b"\x04\x08\x01\x10\x00";

#[test]
fn reads_and_writes_acks(rt: HostRuntime) -> Result<(), Fail> {
    for (bytes, seqno, count, written) in [
        (THREE, 0, 3, THREE),
        (ONE, 1, 1, ONE),
        (PACKED, 0, 3, THREE),
        (HEARTBEAT, -1, 1, HEARTBEAT),
    ] {
        reads(&rt, bytes, &successes(seqno, count)?)?;
        writes(&rt, &successes(seqno, count)?, written);
    }
    Ok(())
}

/// The ack of a packet with so many SUCCESS, at most three.
fn successes(seqno: i64, count: usize) -> Result<Ack, Fail>
    ensures { IfOk result (λ ack. All IsStatus ack.replies) }
{
    let replies = Replies::new(&[Status::Success; 3][..count.min(3)]).ok_or("at most 16")?;
    Ok(Ack { seqno, replies })
}

/// The bytes are read as this ack.
fn reads(rt: &impl Abort, bytes: &[u8], wanted: &Ack) -> Result<(), Fail> {
    let (ack, taken) = decode_ack(bytes)?;
    assert_eq!(rt; taken, bytes.len());
    assert!(rt; ack == *wanted);
    Ok(())
}

/// The ack is written as these bytes.
fn writes(rt: &impl Abort, ack: &Ack, bytes: &[u8])
    requires { All IsStatus ack.now.replies }
{
    let mut out = AckBytes::new();
    encode_ack(ack, &mut out);
    assert!(rt; out.as_slice() == bytes);
}

#[test]
fn faults_are_printed(rt: HostRuntime) -> Result<(), Fail> {
    for (fault, text) in [
        (AckFault::Short, "the bytes end inside an ack"),
        (
            AckFault::TooLong { length: 65_537 },
            "a message of 65537 bytes",
        ),
        (AckFault::Missing { field: 1 }, "field 1 is missing"),
        (AckFault::Replies { count: 17 }, "17 replies"),
    ] {
        assert_eq!(rt; fault.to_string(rt.alloc())?.as_str(), text);
    }
    assert_eq!(rt;
        ResponseFault::Short.to_string(rt.alloc())?.as_str(),
        "the bytes end inside a response"
    );
    Ok(())
}

#[test]
fn reads_read_statuses(rt: HostRuntime) -> Result<(), Fail> {
    assert_eq!(rt;
        decode_read_status(b"\x02\x08\x06")?,
        (Status::ChecksumOk, 3)
    );
    Ok(())
}

/// A response with these texts.
fn response(
    alloc: Global,
    status: Status,
    first_bad: &[u8],
    sums_from: Option<(u32, u32, u64)>,
    message: &[u8],
) -> Result<Response, AllocError> {
    Ok(Response {
        status,
        first_bad: ByteList::from_vec(Vec::from_slice(alloc, first_bad)?),
        sums_from,
        message: ByteList::from_vec(Vec::from_slice(alloc, message)?),
    })
}

/// Compares what is read of the bytes, and what is written, with this response.
fn compare(rt: &impl Abort, alloc: Global, bytes: &[u8], wanted: &Response) -> Result<(), Fail> {
    let (read, taken) = decode_response(alloc, bytes)?;
    assert_eq!(rt; taken, bytes.len());
    assert!(rt; read == wanted.duplicate()?);
    assert!(rt; written(rt, alloc, wanted)?.as_slice() == bytes);
    Ok(())
}

/// A response as it is written.
fn written(rt: &impl Abort, alloc: Global, response: &Response) -> Result<Vec<u8>, AllocError> {
    assert!(rt; response.is_encodable(alloc)?);
    let mut out = Vec::new(alloc);
    encode_response(response, &mut out)?;
    Ok(out)
}

/// A setup that was taken, one whose mirror was not reached, one that was refused for an old
/// stamp, and the answers to reads under two rules.
#[test]
fn reads_and_writes_responses(rt: HostRuntime) -> Result<(), Fail> {
    let alloc = rt.alloc();
    for (first_bad, sums_from, message, bytes) in [
        (
            b"".as_slice(),
            None,
            b"".as_slice(),
            b"\x04\x08\x00\x12\x00".as_slice(),
        ),
        (
            b"127.0.0.1:9867",
            None,
            b"",
            b"\x12\x08\x01\x12\x0e127.0.0.1:9867",
        ),
        (
            b"",
            None,
            b"4 1003 1001 1002",
            b"\x16\x08\x01\x12\x00\x2a\x104 1003 1001 1002",
        ),
        (
            b"",
            Some((2, 512, 0)),
            b"",
            b"\x0d\x08\x00\x22\x09\x0a\x05\x08\x02\x10\x80\x04\x10\x00",
        ),
        (
            b"",
            Some((1, 16, 32)),
            b"",
            b"\x0c\x08\x00\x22\x08\x0a\x04\x08\x01\x10\x10\x10\x20",
        ),
    ] {
        let refused = !first_bad.is_empty() || !message.is_empty();
        let status = if refused {
            Status::Error
        } else {
            Status::Success
        };
        let wanted = response(alloc, status, first_bad, sums_from, message)?;
        compare(&rt, alloc, bytes, &wanted)?;
    }
    Ok(())
}
