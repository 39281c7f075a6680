//! The books of a node are made again.

ghost use Rattle.std.specs.Prelude.{◌≡◌, length, IfOk, IfErr, OnErr};
ghost use Rattle.node_opening.specs.Closing.{AreLentOut, AreOf, faults_of};
ghost use Rattle.hd_base.specs.Faults.{CarriesFaults};
ghost use Rattle.node_restarts.specs.Faults.{HasRestartCause};
ghost use Rattle.node_restarts.specs.Restarting.{HasRestarted, AreGivenUp};

use crate::closing::close_books;
use crate::faults::{RestartFault, of_scan};
use crate::lending::lend_all;
use crate::seeking::{found_of, sought_of};
use hd_base::{BlockId, Shelf};
use replica_files::ReplicaBook;
use restart_scan::scan;
use std::alloc::Global;

/// Closes a node's books, so that none of the blocks is lent, and no other that wasn't before. Each block stands once and
/// is lent by the shelf, and each has a book, at its place.
pub fn give_up_books<S: Shelf>(
    shelf: &mut S,
    blocks: &[BlockId],
    books: Vec<ReplicaBook<S::Drawer>>,
)
    requires lent { AreLentOut S.Shelf shelf.old blocks.now }
    requires count { length books.items ≡ length blocks.now }
    ensures given_up { AreGivenUp S.Shelf blocks.now shelf.old shelf.new }
    ensures carried { CarriesFaults (S.faults shelf.old) (faults_of S.Drawer.Files books.items) (S.faults shelf.new) }
{
    close_books(shelf, blocks, books);
}

/// Restarts a node over its shelf, between two events: its books are closed, the shelf is scanned, and the files of
/// each block are lent again, over which the book is made of what was found of it. Of a replica that was absent, and
/// isn't broken, nothing is looked for: it is absent again, and what its block has of files are strays, as before. Each
/// block stands once and is lent by the shelf, and each has a book, at its place.
///
/// After a fault the books are gone: none of the blocks is lent, and no other that wasn't before.
pub fn restart_books<S: Shelf>(
    alloc: Global,
    shelf: &mut S,
    blocks: &[BlockId],
    books: Vec<ReplicaBook<S::Drawer>>,
) -> Result<Vec<ReplicaBook<S::Drawer>>, RestartFault>
    requires lent { AreLentOut S.Shelf shelf.old blocks.now }
    requires count { length books.items ≡ length blocks.now }
    requires of_blocks { AreOf blocks.now books.items }
    ensures made { IfOk result (λ made.
        HasRestarted S.Shelf S.Drawer.Files blocks.now books.items shelf.old shelf.new made.items) }
    ensures given_up { OnErr result (AreGivenUp S.Shelf blocks.now shelf.old shelf.new) }
    ensures cause { IfErr result (HasRestartCause (S.faults shelf.old) (S.faults shelf.new)) }
    ensures carried { CarriesFaults (S.faults shelf.old) (faults_of S.Drawer.Files books.items) (S.faults shelf.new) }
{
    let Ok(sought) = sought_of(alloc, &books) else {
        close_books(shelf, blocks, books);
        return Err(RestartFault::Memory);
    };
    close_books(shelf, blocks, books);
    let found = match scan(alloc, shelf) {
        Ok(found) => found,
        Err(fault) => return Err(of_scan(fault)),
    };
    let replicas = found_of(&sought, found.replicas);
    lend_all(alloc, shelf, blocks, &replicas)
}
