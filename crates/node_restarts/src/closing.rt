//! A node's books are closed, and their files given back.

ghost use Rattle.std.specs.Prelude.{◌≡◌, ◌<◌, ◌≤◌, ◌^◌, length, take, IfSome};
ghost use Rattle.replica_core.specs.Views.{stamp_in};
ghost use Rattle.node_opening.specs.Closing.{AreLentOut, NodeCloses};
ghost use Rattle.node_restarts.specs.Closing.{HaveNumbers};

use hd_base::{BlockId, Files, Shelf, Stamp};
use replica_files::ReplicaBook;

/// The stamp of a book's replica, which has 64 bits.
fn stamp_of<F: Files>(book: &ReplicaBook<F>) -> Option<Stamp>
    ensures value { result ≡ stamp_in book.now.replica }
    ensures fits { IfSome result (λ stamp. stamp.0 < 2 ^ 64) }
{
    let stamp = book.replica().stamp()?;
    Some(stamp)
}

/// The books of a node, of which none stands past the blocks, are closed, and their drawers given back to its shelf,
/// each under the block at the book's place. Takes no memory.
pub(crate) fn close_books<S: Shelf>(
    shelf: &mut S,
    blocks: &[BlockId],
    mut books: Vec<ReplicaBook<S::Drawer>>,
)
    requires within { length books.items ≤ length blocks.now }
    requires lent { AreLentOut S.Shelf shelf.old (take (length books.items) blocks.now) }
    ensures closes { NodeCloses S.Shelf S.Drawer.Files blocks.now books.items shelf.old shelf.new }
    ensures numbers { HaveNumbers books.items }
{
    while let Some(book) = books.pop() {
        let block = blocks[books.len()];
        let _stamp = stamp_of(&book);
        let (drawer, _) = book.close_book();
        shelf.give_back(block, drawer);
    }
}
