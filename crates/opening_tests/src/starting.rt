//! A node over memory starts again, and the faults that keep it from it.

use crate::opening::two_blocks;
use hd_base::{FIRST_PORT, NodeId, Roads};
use mem_ports::{MemRoads, MemShelf};
use node_starts::{StartFault, open_nodes, start_node};
use std::test::Fail;

#[test]
fn a_node_starts_again(rt: HostRuntime) -> Result<(), Fail> {
    let alloc = rt.alloc();
    let mut roads = MemRoads::new(alloc, &[])?;
    let mut shelves = [MemShelf::new(alloc, &[])?];
    let mut nodes = open_nodes(alloc, &mut roads, &mut shelves, two_blocks(alloc)?)?;
    assert_eq!(rt; nodes.nodes.len(), 1);
    roads.hang_up(FIRST_PORT);
    assert!(rt; roads.dial(alloc, FIRST_PORT).is_err());
    start_node(alloc, &mut roads, &mut shelves[0], &mut nodes, NodeId(0))?;
    assert!(rt; roads.dial(alloc, FIRST_PORT).is_ok());
    assert_eq!(rt; nodes.nodes[0].books.len(), 2);
    assert!(rt;
        nodes.nodes[0]
            .books
            .iter()
            .all(|book| book.replica().stamp().is_none())
    );
    Ok(())
}

#[test]
fn roads_that_fail_leave_new_books(rt: HostRuntime) -> Result<(), Fail> {
    let alloc = rt.alloc();
    let mut roads = MemRoads::new(alloc, &[2])?;
    let mut shelves = [MemShelf::new(alloc, &[])?];
    let mut nodes = open_nodes(alloc, &mut roads, &mut shelves, two_blocks(alloc)?)?;
    assert_eq!(rt; nodes.nodes.len(), 1);
    let fault = start_node(alloc, &mut roads, &mut shelves[0], &mut nodes, NodeId(0)).err();
    assert!(rt; matches!(fault, Some(StartFault::RoadsFailed)));
    assert_eq!(rt; nodes.nodes[0].books.len(), 2);
    Ok(())
}

#[test]
fn a_shelf_that_fails_leaves_no_books(rt: HostRuntime) -> Result<(), Fail> {
    let alloc = rt.alloc();
    let mut roads = MemRoads::new(alloc, &[])?;
    let mut shelves = [MemShelf::new(alloc, &[2])?];
    let mut nodes = open_nodes(alloc, &mut roads, &mut shelves, two_blocks(alloc)?)?;
    assert_eq!(rt; nodes.nodes.len(), 1);
    let fault = start_node(alloc, &mut roads, &mut shelves[0], &mut nodes, NodeId(0)).err();
    assert!(rt; matches!(fault, Some(StartFault::ShelfFailed)));
    assert!(rt; nodes.nodes[0].books.is_empty());
    Ok(())
}
