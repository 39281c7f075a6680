//! Two nodes over memory are opened and closed, and each fault that keeps them from it.

ghost use Rattle.std.specs.Prelude.{IfOk};
ghost use Rattle.node_starts.specs.NodeOpening.Shelves.{AreDistinct};

use hd_base::{BlockId, FileName, Files, NodeId, Shelf};
use mem_ports::{MemIn, MemOut, MemRoads, MemShelf};
use node_starts::{OpenFault, close_nodes, open_nodes, opened_nodes_close};
use node_stops::Nodes;
use std::alloc::{AllocError, Global};
use std::test::Fail;

const FIRST: BlockId = BlockId(5);

const SECOND: BlockId = BlockId(8);

/// The blocks of a play.
pub(crate) fn two_blocks(alloc: Global) -> Result<Vec<BlockId>, AllocError>
    ensures { IfOk result (λ blocks. AreDistinct blocks.items) }
{
    let mut blocks = Vec::new(alloc);
    blocks.push(FIRST)?;
    blocks.push(SECOND)?;
    Ok(blocks)
}

#[test]
fn two_nodes_open_and_close(rt: HostRuntime) -> Result<(), Fail> {
    opened_nodes_close::<MemShelf, MemIn, MemOut>();
    let alloc = rt.alloc();
    let mut roads = MemRoads::new(alloc, &[])?;
    let mut shelves = [MemShelf::new(alloc, &[])?, MemShelf::new(alloc, &[])?];
    let Nodes {
        blocks,
        connections,
        nodes,
    } = open_nodes(alloc, &mut roads, &mut shelves, two_blocks(alloc)?)?;
    assert_eq!(rt; nodes.len(), 2);
    assert!(rt; nodes.iter().all(|node| node.books.len() == 2));
    assert!(rt; connections.is_empty());
    close_nodes(&blocks, nodes, &mut shelves);
    let again = open_nodes(alloc, &mut roads, &mut shelves, two_blocks(alloc)?)?;
    assert_eq!(rt; again.nodes.len(), 2);
    Ok(())
}

#[test]
fn roads_that_fail_are_named(rt: HostRuntime) -> Result<(), Fail> {
    let alloc = rt.alloc();
    let mut roads = MemRoads::new(alloc, &[2])?;
    let mut shelves = [MemShelf::new(alloc, &[])?, MemShelf::new(alloc, &[])?];
    let fault = open_nodes(alloc, &mut roads, &mut shelves, two_blocks(alloc)?).err();
    assert!(rt; matches!(fault, Some(OpenFault::RoadFault)));
    Ok(())
}

#[test]
fn a_shelf_that_fails_is_named(rt: HostRuntime) -> Result<(), Fail> {
    let alloc = rt.alloc();
    let mut roads = MemRoads::new(alloc, &[])?;
    let mut shelves = [MemShelf::new(alloc, &[])?, MemShelf::new(alloc, &[1])?];
    let fault = open_nodes(alloc, &mut roads, &mut shelves, two_blocks(alloc)?).err();
    assert!(rt; matches!(fault, Some(OpenFault::ShelfFault { node: NodeId(1) })));
    Ok(())
}

#[test]
fn a_file_is_named(rt: HostRuntime) -> Result<(), Fail> {
    let alloc = rt.alloc();
    let name = FileName::new(b"blk_5").ok_or("a name")?;
    let mut roads = MemRoads::new(alloc, &[])?;
    let mut full = MemShelf::new(alloc, &[])?;
    let mut drawer = full.lend(alloc, FIRST)?;
    drawer.room(alloc, &name, 0)?;
    drawer.make(&name)?;
    full.give_back(FIRST, drawer);
    let mut shelves = [MemShelf::new(alloc, &[])?, full];
    let fault = open_nodes(alloc, &mut roads, &mut shelves, two_blocks(alloc)?).err();
    let Some(OpenFault::NotEmpty { node, name: found }) = fault else {
        return Err("a file".into());
    };
    assert_eq!(rt; node, NodeId(1));
    assert!(rt; found == name);
    Ok(())
}
