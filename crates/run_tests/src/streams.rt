//! A reader that gives a byte a read, and fails.

use real_ports::StdSource;
use std::io::{self, ErrorKind, Read};
use std::test::Fail;
use whole_streams::{ReadFault, read_to_end};

/// A reader that gives a byte a read, and fails where so many are left.
#[derive(Drop)]
struct SlowReader<'a> {
    left: &'a [u8],
    fails_at: Option<usize>,
}

impl<'a> Read for SlowReader<'a> {
    fn read(&mut self, buf: &mut [u8]) -> io::Result<usize> {
        if self.fails_at == Some(self.left.len()) {
            return Err(io::Error::from(ErrorKind::BrokenPipe));
        }
        let (Some((byte, rest)), Some(place)) = (self.left.split_first(), buf.first_mut()) else {
            return Ok(0);
        };
        *place = *byte;
        self.left = rest;
        Ok(1)
    }
}

#[test]
fn readers_are_read_to_their_end(rt: HostRuntime) -> Result<(), Fail> {
    for (fails_at, limit, wanted, faults) in [
        (None, 3, Ok(3), 0),
        (None, 2, Err(ReadFault::TooLong), 0),
        (Some(1), 3, Err(ReadFault::Failed), 1),
    ] {
        let mut source = StdSource {
            inner: SlowReader {
                left: b"abc",
                fails_at,
            },
            faults: 0,
        };
        let read = read_to_end(rt.alloc(), &mut source, limit).map(|bytes| bytes.len());
        assert_eq!(rt; read, wanted);
        assert_eq!(rt; source.faults, faults);
    }
    Ok(())
}
