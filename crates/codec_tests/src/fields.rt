//! The bytes that `protoc` writes, spellings that no writer gives, and each fault.

use proto_fields::*;
use std::alloc::{AllocError, Global};
use std::borrow::CowSlice;
use std::test::Fail;

// The bytes of `MESSAGE` and of the first rows of `SPELLINGS` are what `protoc` 3.21.12 of Debian's
// protobuf-compiler writes. For the file row.proto
//
//     syntax = "proto2";
//     message Row {
//       optional uint64 a = 1;
//       optional fixed64 b = 2;
//       optional bytes c = 3;
//       optional fixed32 d = 4;
//       optional uint64 e = 15;
//       optional uint64 f = 16;
//       optional bytes g = 17;
//       optional uint64 h = 2048;
//       optional fixed32 i = 262143;
//       optional uint64 j = 536870911;
//     }
//
// each row is what one command such as
//
//     printf 'a: 300' | protoc --encode=Row row.proto | xxd -p
//
// prints, and the message is that of
//
//     a: 300 b: 0x0102030405060708 c: "hdfs" d: 0x0a0b0c0d e: 1 f: 0 g: "" h: 18446744073709551615 i: 3 j: 128
const MESSAGE: [u8; 58] = [
    0x08, 0xac, 0x02, 0x11, 0x08, 0x07, 0x06, 0x05, 0x04, 0x03, 0x02, 0x01, 0x1a, 0x04, 0x68, 0x64,
    0x66, 0x73, 0x25, 0x0d, 0x0c, 0x0b, 0x0a, 0x78, 0x01, 0x80, 0x01, 0x00, 0x8a, 0x01, 0x00, 0x80,
    0x80, 0x01, 0xff, 0xff, 0xff, 0xff, 0xff, 0xff, 0xff, 0xff, 0xff, 0x01, 0xfd, 0xff, 0x7f, 0x03,
    0x00, 0x00, 0x00, 0xf8, 0xff, 0xff, 0xff, 0x0f, 0x80, 0x01,
];

/// Fields alone: least spellings at the ends of each length, a value of each kind, and spellings
/// that no writer gives, with more bytes than need be, bits above the low 32 of a tag, and bits
/// above the low 64 of a value.
const SPELLINGS: [(&[u8], u32, Wire); 14] = [
    (b"\x08\x00", 1, Wire::Varint(0)),
    (b"\x08\x7f", 1, Wire::Varint(127)),
    (b"\x08\x80\x01", 1, Wire::Varint(128)),
    (b"\x08\xff\x7f", 1, Wire::Varint(16383)),
    (
        b"\x11\x10\x32\x54\x76\x98\xba\xdc\xfe",
        2,
        Wire::Eight(0xfedcba9876543210),
    ),
    (b"\x25\xef\xcd\xab\x89", 4, Wire::Four(0x89abcdef)),
    (b"\x1a\x03abc", 3, Wire::Part { from: 2, to: 5 }),
    (b"\xf8\xff\xff\xff\x0f\x01", 536870911, Wire::Varint(1)),
    (b"\x08\xff\x80\x80\x00", 1, Wire::Varint(127)),
    (b"\x88\x80\x80\x80\x80\x01\x05", 1, Wire::Varint(5)),
    (
        b"\x88\x80\x80\x80\x80\x80\x80\x80\x80\x7f\x05",
        1,
        Wire::Varint(5),
    ),
    (
        b"\x08\xff\xff\xff\xff\xff\xff\xff\xff\xff\x7f",
        1,
        Wire::Varint(u64::MAX),
    ),
    (
        b"\x08\x81\x80\x80\x80\x80\x80\x80\x80\x80\x02",
        1,
        Wire::Varint(1),
    ),
    (b"\x1a\x83\x00abc", 3, Wire::Part { from: 3, to: 6 }),
];

/// Bytes that begin with no field, and why.
const NO_FIELDS: [(&[u8], WireFault); 3] = [
    (b"\x0b", WireFault::Kind { at: 0 }),
    (b"\x00", WireFault::FieldZero { at: 0 }),
    (b"\x08\x80", WireFault::Short { at: 0 }),
];

#[test]
fn reads_any_spelling(rt: HostRuntime) {
    for (bytes, number, value) in SPELLINGS {
        let end = bytes.len() as u64;
        assert_eq!(rt; next_field(bytes, 0), Ok(Some((number, value, end))));
        assert_eq!(rt; next_field(bytes, end), Ok(None));
    }
    for (bytes, fault) in NO_FIELDS {
        assert_eq!(rt; next_field(bytes, 0), Err(fault));
    }
}

fn written(alloc: Global) -> Result<Vec<u8>, AllocError> {
    let mut out = Vec::new(alloc);
    put_varint(&mut out, 1, 300)?;
    put_fixed64(&mut out, 2, 0x0102030405060708)?;
    put_bytes(&mut out, 3, b"hdfs")?;
    put_fixed32(&mut out, 4, 0x0a0b0c0d)?;
    put_varint(&mut out, 15, 1)?;
    put_varint(&mut out, 16, 0)?;
    put_bytes(&mut out, 17, b"")?;
    put_varint(&mut out, 2048, 18446744073709551615)?;
    put_fixed32(&mut out, 262143, 3)?;
    put_varint(&mut out, MAX_FIELD_NUMBER, 128)?;
    Ok(out)
}

#[test]
fn writes_the_message(rt: HostRuntime) -> Result<(), Fail> {
    assert!(rt; written(rt.alloc())?.as_slice() == MESSAGE.as_slice());
    let mut out = Vec::new(rt.alloc());
    put_number(&mut out, 300)?;
    assert!(rt; out.as_slice() == b"\xac\x02".as_slice());
    for (number, may) in [
        (0, false),
        (1, true),
        (536_870_911, true),
        (536_870_912, false),
    ] {
        assert_eq!(rt; is_field_number(number), may);
    }
    Ok(())
}

/// A message in which two fields stand twice.
const REPEATED: &[u8] =
    b"\x1a\x02ab\x08\x05\x1a\x02cd\x08\x07\x12\x01e\x11\x08\x07\x06\x05\x04\x03\x02\x01";

#[test]
fn joins_all_parts(rt: HostRuntime) -> Result<(), Fail> {
    let bytes = REPEATED;
    let listed = fields(rt.alloc(), bytes)?;
    let joined = merged(rt.alloc(), bytes, 3, &listed)?.ok_or("there are parts")?;
    assert!(rt; joined.as_slice() == b"abcd".as_slice());
    let single = merged(rt.alloc(), bytes, 2, &listed)?.ok_or("there is a part")?;
    assert!(rt; single.as_slice() == b"e".as_slice());
    assert!(rt; matches!(&single, CowSlice::Borrowed(_)));
    assert!(rt; merged(rt.alloc(), bytes, 1, &listed)?.is_none());
    Ok(())
}

#[test]
fn prints_faults(rt: HostRuntime) -> Result<(), Fail> {
    for (fault, text) in [
        (WireFault::Short { at: 7 }, "the field at 7 is cut off"),
        (
            WireFault::LongVarint { at: 7 },
            "the field at 7 has a varint of more than ten bytes",
        ),
        (
            WireFault::Kind { at: 7 },
            "the field at 7 has a wire type that is not read",
        ),
        (
            WireFault::FieldZero { at: 7 },
            "the field at 7 has the number 0",
        ),
    ] {
        assert_eq!(rt;
            FieldsFault::Wire(fault).to_string(rt.alloc())?.as_str(),
            text
        );
    }
    Ok(())
}
