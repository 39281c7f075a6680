//! The files of the blocks are lent again, and books are made of what was found in them.

ghost use Rattle.std.specs.Prelude.{◌≤◌, option_map, IfSome, IfOk, IfErr};
ghost use Rattle.hd_base.specs.FileMaps.{part_of};
ghost use Rattle.node_opening.specs.Shelves.{AreDistinct};
ghost use Rattle.node_restarts.specs.Making.{HoldsSeen, AllHeld};
ghost use Rattle.node_restarts.specs.Lending.{LendsFound, LendsNextFound, HasFound, IsUnmade};

use crate::closing::close_books;
use crate::faults::RestartFault;
use crate::making::{make_book, seen_of};
use hd_base::{BlockId, Shelf};
use replica_files::ReplicaBook;
use restart_scan::Seen;
use std::alloc::Global;

/// A block is lent, and the book of what was found of it is made.
fn lend_found<S: Shelf>(
    alloc: Global,
    shelf: &mut S,
    block: BlockId,
    seen: Option<Seen>,
) -> Result<ReplicaBook<S::Drawer>, RestartFault>
    requires held { HoldsSeen (option_map (part_of block.0) (S.files shelf.old)) block seen }
    ensures { LendsFound S.Shelf S.Drawer.Files block seen shelf.old shelf.new result }
{
    let Ok(drawer) = shelf.lend(alloc, block) else {
        return Err(RestartFault::Memory);
    };
    match make_book(alloc, block, seen, drawer) {
        Ok(book) => Ok(book),
        Err((fault, drawer)) => {
            shelf.give_back(block, drawer);
            Err(fault)
        }
    }
}

/// A block more is lent, and its book stands behind the others.
fn lend_next<S: Shelf>(
    alloc: Global,
    shelf: &mut S,
    block: BlockId,
    seen: Option<Seen>,
    books: &mut Vec<ReplicaBook<S::Drawer>>,
) -> Result<(), RestartFault>
    requires held { HoldsSeen (option_map (part_of block.0) (S.files shelf.old)) block seen }
    ensures { LendsNextFound S.Shelf S.Drawer.Files block seen shelf.old shelf.new
        books.old.items books.new.items result }
{
    books.reserve(1)?;
    let book = lend_found(alloc, shelf, block, seen)?;
    books.push_reserved(book);
    Ok(())
}

/// All blocks are lent, and the books of what was found of them are made. After an error none is lent that wasn't
/// before.
pub(crate) fn lend_all<S: Shelf>(
    alloc: Global,
    shelf: &mut S,
    blocks: &[BlockId],
    replicas: &[Seen],
) -> Result<Vec<ReplicaBook<S::Drawer>>, RestartFault>
    requires distinct { AreDistinct blocks.now }
    requires held { IfSome (S.files shelf.old) (AllHeld replicas.now) }
    ensures made { IfOk result (λ books.
        HasFound S.Shelf S.Drawer.Files blocks.now replicas.now shelf.old shelf.new books.items) }
    ensures unmade { IfErr result (IsUnmade S.Shelf shelf.old shelf.new) }
    ensures never_falls { S.faults shelf.old ≤ S.faults shelf.new }
{
    let mut books = Vec::new(alloc);
    for block in blocks {
        let seen = seen_of(replicas, *block);
        if let Err(fault) = lend_next(alloc, shelf, *block, seen, &mut books) {
            close_books(shelf, blocks, books);
            return Err(fault);
        }
    }
    Ok(books)
}
