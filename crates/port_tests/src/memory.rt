//! A short life of shelves and roads in memory.

ghost use Rattle.std.specs.Prelude.{◌<◌, IfSome, IfOk};

use hd_base::{
    BlockId, Conn, ConnId, FileError, FileName, Files, Got, LinkError, LinkIn, LinkOut, NodeId,
    RoadError, Roads, Shelf,
};
use mem_ports::{MemRoads, MemShelf};
use std::alloc::{AllocError, Global};
use std::test::Fail;

/// Four calls: a file of five bytes.
fn store<F: Files>(alloc: Global, files: &mut F, name: &FileName) -> Result<u64, FileError> {
    files.room(alloc, name, 5)?;
    files.make(name)?;
    files.write_at(name, 0, b"12345")?;
    files.length(name)
}

/// Four calls: reads three bytes of it, and leaves it empty under another name.
fn change<F: Files>(
    files: &mut F,
    name: &FileName,
    other: &FileName,
) -> Result<[u8; 3], FileError> {
    let mut into = [0; 3];
    files.read_at(name, 1, &mut into)?;
    files.cut(name, 0)?;
    files.sync(name)?;
    files.rename(name, other)?;
    Ok(into)
}

/// Two calls: lists the names and removes a file.
fn clear<F: Files>(alloc: Global, files: &mut F, name: &FileName) -> Result<usize, FileError> {
    let names = files.names(alloc)?;
    files.remove(name)?;
    Ok(names.len())
}

/// Ten calls on files.
fn use_files<F: Files>(
    alloc: Global,
    files: &mut F,
    name: &FileName,
    other: &FileName,
) -> Result<(u64, [u8; 3], usize), FileError> {
    let length = store(alloc, files, name)?;
    let bytes = change(files, name, other)?;
    let count = clear(alloc, files, other)?;
    Ok((length, bytes, count))
}

/// Ten calls on a drawer of a block.
pub(crate) fn use_shelf<S: Shelf>(
    alloc: Global,
    shelf: &mut S,
    block: BlockId,
    name: &FileName,
    other: &FileName,
) -> Result<(u64, [u8; 3], usize), FileError> {
    let mut drawer = shelf.lend(alloc, block)?;
    let answer = use_files(alloc, &mut drawer, name, other);
    shelf.give_back(block, drawer);
    answer
}

/// The files of a shelf that aren't lent: how many, and the length of the first.
pub(crate) fn look_at<S: Shelf>(alloc: Global, shelf: &mut S) -> Result<(usize, u64), FileError> {
    let names = shelf.list(alloc)?;
    let Some(name) = names.first() else {
        return Ok((0, 0));
    };
    let Some(block) = name.block() else {
        return Err(FileError::Absent);
    };
    let mut drawer = shelf.lend(alloc, block)?;
    let length = drawer.length(name);
    shelf.give_back(block, drawer);
    Ok((names.len(), length?))
}

/// Stores a file in the drawer of a block.
pub(crate) fn keep<S: Shelf>(
    alloc: Global,
    shelf: &mut S,
    block: BlockId,
    name: &FileName,
) -> Result<u64, FileError> {
    let mut drawer = shelf.lend(alloc, block)?;
    let stored = store(alloc, &mut drawer, name);
    shelf.give_back(block, drawer);
    stored
}

/// How many files a drawer has.
fn count_lent<S: Shelf>(alloc: Global, shelf: &mut S, block: BlockId) -> Result<usize, FileError> {
    let mut drawer = shelf.lend(alloc, block)?;
    let names = drawer.names(alloc);
    shelf.give_back(block, drawer);
    Ok(names?.len())
}

#[test]
fn files_stay_with_their_block(rt: HostRuntime) -> Result<(), Fail> {
    let mut shelf = MemShelf::new(rt.alloc(), &[])?;
    for (block, name) in [(8, b"blk_8"), (7, b"blk_7")] {
        let name = FileName::new(name).ok_or("a name")?;
        let stored = keep(rt.alloc(), &mut shelf, BlockId(block), &name);
        if stored == Err(FileError::Memory) {
            return Err(AllocError.into());
        }
        assert_eq!(rt; stored, Ok(5));
    }
    let lent = count_lent(rt.alloc(), &mut shelf, BlockId(8));
    if lent == Err(FileError::Memory) {
        return Err(AllocError.into());
    }
    assert_eq!(rt; lent, Ok(1));
    let names = shelf.list(rt.alloc()).map_err(|_| AllocError)?;
    assert_eq!(rt; names.len(), 2);
    assert_eq!(rt; names[0].as_slice(), b"blk_7".as_slice());
    assert_eq!(rt; names[1].as_slice(), b"blk_8".as_slice());
    Ok(())
}

/// Sends a piece.
fn say<O: LinkOut>(alloc: Global, outward: &mut O, piece: &[u8]) -> Result<usize, LinkError> {
    outward.room(alloc, piece.len() as u64)?;
    outward.send(piece)
}

/// Receives into three bytes.
fn hear<I: LinkIn>(inward: &mut I) -> Result<Got, LinkError> {
    let mut into = [0; 3];
    inward.recv(&mut into)
}

/// Four calls: an end dials node 3, sends a message and shuts; the other end is given.
fn greet<R: Roads>(alloc: Global, roads: &mut R) -> Result<Conn<R::Inward, R::Outward>, RoadError>
    ensures { IfOk result (λ end. IfSome (R.plain roads.new) (λ p. end.id.0 < p.dialled)) }
{
    let port = roads.listen(alloc, NodeId(3))?;
    let mut upper = roads.dial(alloc, port)?;
    if say(alloc, &mut upper.outward, b"ping") == Err(LinkError::Memory) {
        return Err(RoadError::Memory);
    }
    upper.outward.shut();
    roads.exchange(alloc, &mut upper, false)?;
    match roads.accept(alloc, port)? {
        Some(lower) => Ok(lower),
        None => Err(RoadError::NotListening),
    }
}

/// Receives, shuts, sends a message that is lost, and brings the end back.
fn finish<R: Roads>(
    alloc: Global,
    roads: &mut R,
    mut end: Conn<R::Inward, R::Outward>,
) -> Result<(Result<Got, LinkError>, Result<usize, LinkError>), RoadError>
    requires { IfSome (R.plain roads.old) (λ p. end.id.0 < p.dialled) }
{
    let heard = hear(&mut end.inward);
    end.inward.shut();
    end.outward.shut();
    let lost = say(alloc, &mut end.outward, b"lost");
    roads.bring(alloc, end)?;
    Ok((heard, lost))
}

/// Puts a share to these roads.
fn collect<R: Roads>(alloc: Global, roads: &mut R, share: R) -> Result<bool, RoadError> {
    roads.gather(alloc, share)?;
    Ok(roads.risen(ConnId(0)))
}

#[test]
fn ends_are_brought_back(rt: HostRuntime) -> Result<(), Fail> {
    let mut all = MemRoads::new(rt.alloc(), &[])?;
    if greet(rt.alloc(), &mut all).is_err() {
        return Err(AllocError.into());
    }
    let table = [
        (0, Ok(Got::NotYet), Ok(4)),
        (5, Err(LinkError::Failed), Err(LinkError::Failed)),
    ];
    for (number, heard, lost) in table {
        let mut roads = MemRoads::new(rt.alloc(), &[number])?;
        let Ok(end) = greet(rt.alloc(), &mut roads) else {
            return Err(AllocError.into());
        };
        let answer = finish(rt.alloc(), &mut roads, end);
        if let Err(RoadError::Memory) | Ok((_, Err(LinkError::Memory))) = answer {
            return Err(AllocError.into());
        }
        assert_eq!(rt; answer, Ok((heard, lost)), "call {number}");
        assert_eq!(rt; roads.risen(ConnId(0)), number > 0);
        let risen = collect(rt.alloc(), &mut all, roads);
        if risen == Err(RoadError::Memory) {
            return Err(AllocError.into());
        }
        assert_eq!(rt; risen, Ok(number > 0));
    }
    Ok(())
}

#[test]
fn plain_roads_are_not_shared(rt: HostRuntime) -> Result<(), Fail> {
    for (number, wanted) in [(0, RoadError::Memory), (1, RoadError::Failed)] {
        let mut roads = MemRoads::new(rt.alloc(), &[number])?;
        assert_eq!(rt; roads.share(rt.alloc()).err(), Some(wanted));
        assert_eq!(rt;
            roads.dial(rt.alloc(), 9866).err(),
            Some(RoadError::NotListening)
        );
    }
    Ok(())
}
