//! Files at one outcome after another, at a stop, and under a list of calls.

use fault_ports::{Fused, FusedDrawer, Keep, LossyFiles, StopAt};
use file_calls::{FileCall, perform};
use hd_base::{BlockId, FileError, FileName, Files, Shelf};
use mem_ports::{MemDrawer, MemShelf};
use refusing_files::Refusing;
use std::alloc::Global;
use std::test::Fail;

fn name(bytes: &[u8]) -> Result<FileName, Fail> {
    Ok(FileName::new(bytes).ok_or("a name")?)
}

/// Makes a file of these bytes.
fn store<F: Files>(
    alloc: Global,
    files: &mut F,
    name: &FileName,
    bytes: &[u8],
) -> Result<(), FileError> {
    files.room(alloc, name, bytes.len() as u64)?;
    files.make(name)?;
    files.write_at(name, 0, bytes)
}

/// Writes behind the end of a file.
fn append<F: Files>(
    alloc: Global,
    files: &mut F,
    name: &FileName,
    bytes: &[u8],
) -> Result<(), FileError> {
    let len = files.length(name)?;
    let end = len
        .checked_add(bytes.len() as u64)
        .ok_or(FileError::Failed)?;
    files.room(alloc, name, end)?;
    files.write_at(name, len, bytes)
}

/// The first eight bytes of a file, and how many there are.
fn front<F: Files>(files: &mut F, name: &FileName) -> Result<([u8; 8], usize), FileError> {
    let mut into = [0; 8];
    let count = files.read_at(name, 0, &mut into)?;
    Ok((into, count))
}

/// A synced file, written on and lost.
fn lost(alloc: Global, name: &FileName, word: u32) -> Result<([u8; 8], usize), Fail> {
    let mut files = LossyFiles::new(alloc)?;
    store(alloc, &mut files, name, b"12345")?;
    files.sync(name)?;
    append(alloc, &mut files, name, b"67")?;
    files.lose(word)?;
    Ok(front(&mut files, name)?)
}

#[test]
fn a_loss_keeps_what_was_synced(rt: HostRuntime) -> Result<(), Fail> {
    let data = name(b"blk_1")?;
    let mut seen = [false; 8];
    for word in 0..64 {
        let (bytes, count) = lost(rt.alloc(), &data, word)?;
        assert_eq!(rt; &bytes[..5], b"12345".as_slice(), "word {word}");
        assert!(rt; count < 8);
        seen[count] = true;
    }
    assert_eq!(rt; &seen[4..], [false, true, true, true].as_slice());
    Ok(())
}

#[test]
fn a_loss_draws_what_was_not_synced(rt: HostRuntime) -> Result<(), Fail> {
    let data = name(b"blk_1")?;
    let (bytes, count) = lost(rt.alloc(), &data, 1)?;
    let (others, other_count) = lost(rt.alloc(), &data, 4)?;
    assert_eq!(rt; (count, other_count), (6, 6));
    assert!(rt; bytes[5] != others[5]);
    Ok(())
}

/// What a stop at the write leaves.
fn stopped(alloc: Global, name: &FileName, keep: Keep) -> Result<usize, Fail> {
    let mut files = StopAt::new(LossyFiles::new(alloc)?, 1, keep);
    if store(alloc, &mut files, name, b"123456") != Err(FileError::Failed) {
        return Err("the write passed")?;
    }
    if files.length(name) != Err(FileError::Failed) {
        return Err("a later call passed")?;
    }
    let mut inner = files.into_inner();
    Ok(front(&mut inner, name)?.1)
}

#[test]
fn a_stop_leaves_what_was_asked(rt: HostRuntime) -> Result<(), Fail> {
    let data = name(b"blk_1")?;
    assert_eq!(rt; stopped(rt.alloc(), &data, Keep::Nothing)?, 0);
    assert_eq!(rt; stopped(rt.alloc(), &data, Keep::Half)?, 3);
    assert_eq!(rt; stopped(rt.alloc(), &data, Keep::All)?, 6);
    Ok(())
}

/// A file that was made, written and renamed in a drawer.
fn performed(alloc: Global, from: &FileName, to: &FileName) -> Result<([u8; 8], usize), Fail> {
    let mut drawer = MemShelf::new(alloc, &[])?.lend(alloc, BlockId(1))?;
    written(alloc, &mut drawer, from, to)?;
    Ok(front(&mut drawer, to)?)
}

fn written<F: Files>(
    alloc: Global,
    files: &mut F,
    from: &FileName,
    to: &FileName,
) -> Result<(), FileError> {
    files.room(alloc, from, 3)?;
    perform(
        files,
        &[
            FileCall::Make(from),
            FileCall::Write(from, 0, b"123"),
            FileCall::Sync(from),
            FileCall::Rename(from, to),
        ],
    )
}

#[test]
fn calls_are_made_in_their_order(rt: HostRuntime) -> Result<(), Fail> {
    let (bytes, count) = performed(rt.alloc(), &name(b"blk_1")?, &name(b"rbw/blk_1")?)?;
    assert_eq!(rt; &bytes[..3], b"123".as_slice());
    assert_eq!(rt; count, 3);
    Ok(())
}

/// A drawer whose data file holds one byte.
fn begun(alloc: Global, data: &FileName) -> Result<FusedDrawer<MemDrawer>, Fail> {
    let shelf = MemShelf::new(alloc, &[])?;
    let mut shelf = Fused::new(shelf).ok().ok_or("memory")?;
    let mut drawer = shelf.lend(alloc, BlockId(1))?;
    store(alloc, &mut drawer, data, b"1")?;
    Ok(drawer)
}

#[test]
fn a_refused_write_keeps_nothing(rt: HostRuntime) -> Result<(), Fail> {
    let alloc = rt.alloc();
    let data = name(b"blk_1")?;
    let mut drawer = begun(alloc, &data)?;
    drawer.refuse_writes(alloc)?;
    drawer.sync(&data)?;
    assert_eq!(rt;
        append(alloc, &mut drawer, &data, b"2"),
        Err(FileError::Failed)
    );
    assert_eq!(rt; drawer.sync(&data), Err(FileError::Failed));
    assert_eq!(rt; drawer.length(&data)?, 1);
    assert!(rt; drawer.take_writes());
    append(alloc, &mut drawer, &data, b"3")?;
    let (bytes, count) = front(&mut drawer, &data)?;
    assert_eq!(rt; &bytes[..2], b"13".as_slice());
    assert_eq!(rt; count, 2);
    Ok(())
}

#[test]
fn nothing_was_refused_without_a_write(rt: HostRuntime) -> Result<(), Fail> {
    let alloc = rt.alloc();
    let data = name(b"blk_1")?;
    let mut drawer = begun(alloc, &data)?;
    drawer.refuse_writes(alloc)?;
    drawer.sync(&data)?;
    assert!(rt; !drawer.take_writes());
    assert!(rt; !drawer.take_writes());
    Ok(())
}
