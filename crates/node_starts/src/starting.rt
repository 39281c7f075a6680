//! A node starts again.

ghost use Rattle.std.specs.Prelude.{◌≡◌, ◌≤◌, ◌<◌, length, OnOk, OnErr, IfErr};
ghost use Rattle.hd_base.specs.declared.roads.TheConstants.{MAX_NODES};
ghost use Rattle.node_restarts.specs.MemberEvents.Roads.{RoadsPass};
ghost use Rattle.node_restarts.specs.NodeOpening.Closing.{AreLentOut};
ghost use Rattle.node_restarts.specs.NodeOpening.Shelves.{LendsNoMore};
ghost use Rattle.node_starts.specs.Books.{AreBooksOf, IsReplaced, KeepsOthers, HasAllBooks, StartsOver, StopsOver};
ghost use Rattle.node_starts.specs.Books.{BooksReturn, BooksGo};
ghost use Rattle.node_starts.specs.Faults.{HasRoadsCause, HasShelfCause, HasStartCause};
ghost use Rattle.node_starts.specs.Starting.{Listens, StartShows};

use crate::faults::{StartFault, roads_fault, shelf_fault};
use hd_base::{Files, LinkIn, LinkOut, NodeId, Roads, Shelf};
use node_restarts::{Nodes, ReplicaBook, give_up_books, have_whole_files, restart_books};
use std::alloc::Global;
use std::mem;

/// A node listens on its port.
fn listen_at<R: Roads>(alloc: Global, roads: &mut R, node: NodeId) -> Result<(), StartFault>
    requires { node.0 < MAX_NODES }
    ensures shows { Listens R.Roads node.0 roads.old roads.new result }
    ensures pass { RoadsPass R.Roads roads.old roads.new }
    ensures cause { IfErr result (HasRoadsCause (R.faults roads.old) (R.faults roads.new)) }
    ensures risen { R.risen roads.new ≡ R.risen roads.old }
{
    match roads.listen(alloc, node) {
        Ok(_) => Ok(()),
        Err(error) => Err(roads_fault(error)),
    }
}

/// A node gets these books in place of those that it had, which are the answer.
fn replace_books<F: Files, I: LinkIn, O: LinkOut>(
    nodes: &mut Nodes<F, I, O>,
    node: NodeId,
    books: Vec<ReplicaBook<F>>,
) -> Vec<ReplicaBook<F>>
    requires { node.0 < length nodes.old.nodes.items }
    ensures replaced { IsReplaced node books.items nodes.old nodes.new }
    ensures had { AreBooksOf node result.items nodes.old }
{
    mem::replace(&mut nodes.nodes[node.0 as usize].books, books)
}

/// A node whose books' files hold their replicas gets the books of what a restart over its shelf finds, in place of those
/// that it had. After a fault it has none.
fn restart_node<S: Shelf, I: LinkIn, O: LinkOut>(
    alloc: Global,
    shelf: &mut S,
    nodes: &mut Nodes<S::Drawer, I, O>,
    node: NodeId,
) -> Result<(), StartFault>
    requires lent { AreLentOut S.Shelf shelf.old nodes.old.blocks.items }
    requires whole { HasAllBooks node nodes.old }
    ensures again { OnOk result
        (BooksReturn S.Shelf S.Drawer.Files node shelf.old shelf.new nodes.old nodes.new) }
    ensures given_up { OnErr result (BooksGo S.Shelf node shelf.old shelf.new nodes.old nodes.new) }
    ensures cause { IfErr result (HasShelfCause (S.faults shelf.old) (S.faults shelf.new)) }
    ensures never_falls { S.faults shelf.old ≤ S.faults shelf.new }
{
    let books = replace_books(nodes, node, Vec::new(alloc));
    if !have_whole_files(&books) {
        give_up_books(shelf, &nodes.blocks, books);
        return Err(StartFault::ShelfFailed);
    }
    match restart_books(alloc, shelf, &nodes.blocks, books) {
        Ok(books) => {
            replace_books(nodes, node, books);
            Ok(())
        }
        Err(fault) => Err(shelf_fault(fault)),
    }
}

/// Starts a node that doesn't run, between two events: its books are closed, its shelf is scanned, and it has the books
/// of what is found, at the places of the blocks; and it listens on its port. Before it, the node has a book for each
/// block, at its place, and the shelf has lent the blocks. It doesn't start where the files of a replica that broke needn't
/// be whole.
///
/// After a fault of the shelf, or for want of memory, the node may have no books, and then none of the blocks is lent;
/// after one of the roads it has the new books. All else of the nodes is as it was in any case.
pub fn start_node<S: Shelf, I: LinkIn, O: LinkOut, R: Roads<Inward = I, Outward = O>>(
    alloc: Global,
    roads: &mut R,
    shelf: &mut S,
    nodes: &mut Nodes<S::Drawer, I, O>,
    node: NodeId,
) -> Result<(), StartFault>
    requires in_range { node.0 < MAX_NODES }
    requires lent { AreLentOut S.Shelf shelf.old nodes.old.blocks.items }
    requires whole { HasAllBooks node nodes.old }
    ensures shows { OnOk result (StartShows S.Shelf S.Drawer.Files R.Roads I.LinkIn O.LinkOut node
        shelf.old nodes.old nodes.new roads.old roads.new) }
    ensures lent { OnOk result (StartsOver S.Shelf S.Drawer.Files node shelf.old shelf.new nodes.old nodes.new) }
    ensures given_up { OnErr result
        (StopsOver S.Shelf S.Drawer.Files node shelf.old shelf.new nodes.old nodes.new) }
    ensures cause { IfErr result (HasStartCause S.Shelf R.Roads shelf.old shelf.new roads.old roads.new) }
    ensures never_falls { S.faults shelf.old ≤ S.faults shelf.new }
    ensures no_more { LendsNoMore S.Shelf shelf.old shelf.new }
    ensures others { KeepsOthers node nodes.old nodes.new }
    ensures pass { RoadsPass R.Roads roads.old roads.new }
    ensures risen { R.risen roads.new ≡ R.risen roads.old }
{
    restart_node(alloc, shelf, nodes, node)?;
    listen_at(alloc, roads, node)
}
