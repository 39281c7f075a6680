//! Files in folders of the system, a reader, and a writer behind a buffer.

use crate::memory::{keep, look_at, use_shelf};
use hd_base::{BlockId, Failed, FileError, FileName, Files, Shelf, Sink, Source};
use real_ports::{FolderShelf, StdSink, StdSource};
use std::alloc::Global;
use std::fs;
use std::process::Abort;
use std::test::Fail;

/// The block's data file.
fn data(rt: &impl Abort) -> FileName {
    FileName::new(b"current/a/blk_7").expect(rt, "a name")
}

/// The block's metadata file.
fn meta(rt: &impl Abort) -> FileName {
    FileName::new(b"current/b/blk_7_1001.meta").expect(rt, "a name")
}

#[test]
fn files_lie_in_a_folder(rt: HostRuntime) -> Result<(), Fail> {
    let mut shelf = FolderShelf::new(rt.alloc(), rt, "dn0")?;
    assert_eq!(rt; look_at(rt.alloc(), &mut shelf), Ok((0, 0)));
    let used = use_shelf(rt.alloc(), &mut shelf, BlockId(7), &data(&rt), &meta(&rt));
    assert_eq!(rt; used, Ok((5, *b"234", 1)));
    let kept = keep(rt.alloc(), &mut shelf, BlockId(7), &data(&rt));
    assert_eq!(rt; kept, Ok(5));
    assert_eq!(rt; look_at(rt.alloc(), &mut shelf), Ok((1, 5)));
    let stored = fs::read(&rt, "dn0/current/a/blk_7")?;
    assert_eq!(rt; stored.as_slice(), b"12345".as_slice());
    Ok(())
}

/// The length of a file of five bytes that is cut to none.
fn emptied<F: Files>(alloc: Global, files: &mut F, name: &FileName) -> Result<u64, FileError> {
    files.room(alloc, name, 5)?;
    files.make(name)?;
    files.write_at(name, 0, b"12345")?;
    files.cut(name, 0)?;
    files.length(name)
}

/// The same in a shelf's drawer, which it gets back.
fn emptied_in<S: Shelf>(alloc: Global, shelf: &mut S, name: &FileName) -> Result<u64, FileError> {
    let mut drawer = shelf.lend(alloc, BlockId(7))?;
    let answer = emptied(alloc, &mut drawer, name);
    shelf.give_back(BlockId(7), drawer);
    answer
}

#[test]
fn a_file_is_cut(rt: HostRuntime) -> Result<(), Fail> {
    let mut shelf = FolderShelf::new(rt.alloc(), rt, "dn1")?;
    assert_eq!(rt; emptied_in(rt.alloc(), &mut shelf, &data(&rt)), Ok(0));
    let stored = fs::read(&rt, "dn1/current/a/blk_7")?;
    assert!(rt; stored.is_empty());
    Ok(())
}

#[test]
fn a_folder_that_is_none_fails(rt: HostRuntime) -> Result<(), Fail> {
    fs::write(&rt, "plain", b"")?;
    let mut shelf = FolderShelf::new(rt.alloc(), rt, "plain/dn0")?;
    let kept = keep(rt.alloc(), &mut shelf, BlockId(7), &data(&rt));
    assert_eq!(rt; kept, Err(FileError::Failed));
    Ok(())
}

#[test]
fn a_buffer_is_flushed(rt: HostRuntime) -> Result<(), Fail> {
    let mut written = Vec::new(rt.alloc());
    let mut sink = StdSink::new(rt.alloc(), &mut written)?;
    assert_eq!(rt; sink.write(b"abc"), Ok(3));
    assert_eq!(rt; sink.flush(), Ok(()));
    drop(sink);
    assert_eq!(rt; written.as_slice(), b"abc".as_slice());
    Ok(())
}

#[test]
fn a_flush_that_finds_no_room_fails(rt: HostRuntime) -> Result<(), Fail> {
    let mut room = [0u8; 2];
    let mut writer = room.as_mut_slice();
    let mut sink = StdSink::new(rt.alloc(), &mut writer)?;
    assert_eq!(rt; sink.write(b"abc"), Ok(3));
    assert_eq!(rt; sink.flush(), Err(Failed));
    Ok(())
}

#[test]
fn a_reader_is_read_to_its_end(rt: HostRuntime) {
    let mut into = [0; 2];
    let mut source = StdSource {
        inner: b"abc".as_slice(),
        faults: 0,
    };
    assert_eq!(rt; source.read(&mut into), Ok(2));
    assert_eq!(rt; source.read(&mut into), Ok(1));
    assert_eq!(rt; source.read(&mut into), Ok(0));
}
