//! The shelves lend the files of the blocks, and books are made over them.

ghost use Rattle.std.specs.Prelude.{IfOk, OnErr};
ghost use Rattle.node_opening.specs.Shelves.{AreDistinct, IsEmpty, AllEmpty, EachShelf, IsGivenBack};
ghost use Rattle.node_opening.specs.Lending.{LendsBook, LendsNext, LendsBooks, LendsNode, HaveBooks};

use crate::closing::{close_nodes, give_back_books};
use hd_base::{BlockId, Shelf};
use play_nodes::{NodeBooks, ReplicaBook};
use std::alloc::{AllocError, Global};

/// A block is lent, and the book of its absent replica is made.
fn lend_book<S: Shelf>(
    alloc: Global,
    shelf: &mut S,
    block: BlockId,
) -> Result<ReplicaBook<S::Drawer>, AllocError>
    ensures { LendsBook S.Shelf S.Drawer.Files block shelf.old shelf.new result }
{
    let Ok(drawer) = shelf.lend(alloc, block) else {
        return Err(AllocError);
    };
    match ReplicaBook::new(alloc, block, drawer) {
        Ok(book) => Ok(book),
        Err((error, drawer)) => {
            shelf.give_back(block, drawer);
            Err(error)
        }
    }
}

/// A block more is lent, and its book stands behind the others.
fn lend_next<S: Shelf>(
    alloc: Global,
    shelf: &mut S,
    block: BlockId,
    books: &mut Vec<ReplicaBook<S::Drawer>>,
) -> Result<(), AllocError>
    ensures { LendsNext S.Shelf S.Drawer.Files block shelf.old shelf.new books.old.items books.new.items result }
{
    books.reserve(1)?;
    let book = lend_book(alloc, shelf, block)?;
    books.push_reserved(book);
    Ok(())
}

/// All blocks are lent, and their books made. After an error none is lent that wasn't before.
fn lend_books<S: Shelf>(
    alloc: Global,
    shelf: &mut S,
    blocks: &[BlockId],
) -> Result<NodeBooks<S::Drawer>, AllocError>
    requires distinct { AreDistinct blocks.now }
    requires empty { IsEmpty S.Shelf shelf.old }
    ensures { LendsBooks S.Shelf S.Drawer.Files blocks.now shelf.old shelf.new result }
{
    let mut books = Vec::new(alloc);
    for block in blocks {
        if let Err(error) = lend_next(alloc, shelf, *block, &mut books) {
            give_back_books(shelf, blocks, books);
            return Err(error);
        }
    }
    Ok(NodeBooks { books })
}

/// A node's shelf lends all blocks, and the node stands behind the others.
fn lend_node<S: Shelf>(
    alloc: Global,
    shelf: &mut S,
    blocks: &[BlockId],
    nodes: &mut Vec<NodeBooks<S::Drawer>>,
) -> Result<(), AllocError>
    requires distinct { AreDistinct blocks.now }
    requires empty { IsEmpty S.Shelf shelf.old }
    ensures { LendsNode S.Shelf S.Drawer.Files blocks.now shelf.old shelf.new nodes.old.items nodes.new.items result }
{
    nodes.reserve(1)?;
    let node = lend_books(alloc, shelf, blocks)?;
    nodes.push_reserved(node);
    Ok(())
}

/// Each shelf lends all blocks to its node. After an error none is lent that wasn't before.
pub(crate) fn lend_all<S: Shelf>(
    alloc: Global,
    shelves: &mut [S],
    blocks: &[BlockId],
) -> Result<Vec<NodeBooks<S::Drawer>>, AllocError>
    requires distinct { AreDistinct blocks.now }
    requires empty { AllEmpty S.Shelf shelves.old }
    ensures lent { IfOk result (λ nodes.
        HaveBooks S.Shelf S.Drawer.Files blocks.now shelves.old shelves.new nodes.items) }
    ensures given_back { OnErr result (EachShelf (IsGivenBack S.Shelf) shelves.old shelves.new) }
{
    let mut nodes = Vec::new(alloc);
    for node in 0..shelves.len() {
        if let Err(error) = lend_node(alloc, &mut shelves[node], blocks, &mut nodes) {
            close_nodes(blocks, nodes, shelves);
            return Err(error);
        }
    }
    Ok(nodes)
}
