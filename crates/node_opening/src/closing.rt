//! The books of a play are closed, and their files given back.

ghost use Rattle.std.specs.Prelude.{◌≤◌, length, take};
ghost use Rattle.node_opening.specs.Closing.{AreLentOut, TheyLend, NodeCloses, NodesClose};
ghost use Rattle.node_opening.specs.Shelves.{AreDistinct};

use hd_base::{BlockId, Shelf};
use play_nodes::{NodeBooks, ReplicaBook};

/// The books of a node, of which none stands past the blocks, are closed, and their drawers given back to its shelf, each
/// under the block at the book's place.
pub(crate) fn give_back_books<S: Shelf>(
    shelf: &mut S,
    blocks: &[BlockId],
    mut books: Vec<ReplicaBook<S::Drawer>>,
)
    requires within { length books.items ≤ length blocks.now }
    requires lent { AreLentOut S.Shelf shelf.old (take (length books.items) blocks.now) }
    ensures { NodeCloses S.Shelf S.Drawer.Files blocks.now books.items shelf.old shelf.new }
{
    while let Some(book) = books.pop() {
        let block = blocks[books.len()];
        let (drawer, _) = book.close_book();
        shelf.give_back(block, drawer);
    }
}

/// The books of a node at the places of the blocks are closed, and their drawers given back to its shelf.
fn close_node<S: Shelf>(shelf: &mut S, blocks: &[BlockId], mut books: Vec<ReplicaBook<S::Drawer>>)
    requires { AreLentOut S.Shelf shelf.old (take (length books.items) blocks.now) }
    ensures { NodeCloses S.Shelf S.Drawer.Files blocks.now (take (length blocks.now) books.items)
        shelf.old shelf.new }
{
    books.truncate(blocks.len());
    give_back_books(shelf, blocks, books);
}

/// The books of nodes are closed, and their drawers given back to the shelves, of which each node has that of its
/// number, each under the block at the book's place. Each block stands once, and those at the places of a node's books
/// are lent by its shelf. None of these is lent any more, and the counts of the drawers are added to the shelf's. Where
/// the books are of the blocks at their places, the shelf then has their files beside its own. Takes no memory.
pub fn close_nodes<S: Shelf>(
    blocks: &[BlockId],
    mut nodes: Vec<NodeBooks<S::Drawer>>,
    shelves: &mut [S],
)
    requires distinct { AreDistinct blocks.now }
    requires lent { TheyLend S.Shelf blocks.now nodes.items shelves.old }
    ensures { NodesClose S.Shelf S.Drawer.Files blocks.now nodes.items shelves.old shelves.new }
{
    nodes.truncate(shelves.len());
    while let Some(node) = nodes.pop() {
        close_node(&mut shelves[nodes.len()], blocks, node.books);
    }
}
