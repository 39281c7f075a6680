//! One of two nodes over memory is stopped.

use crate::opening::two_blocks;
use fault_ports::Cutting;
use hd_base::{FIRST_PORT, NodeId, RoadError, Roads};
use mem_ports::{MemRoads, MemShelf};
use node_starts::open_nodes;
use node_stops::stop_node;
use std::test::Fail;

#[test]
fn a_stopped_node_is_not_dialled(rt: HostRuntime) -> Result<(), Fail> {
    let alloc = rt.alloc();
    let mut roads = Cutting::new(alloc, MemRoads::new(alloc, &[])?);
    let mut shelves = [MemShelf::new(alloc, &[])?, MemShelf::new(alloc, &[])?];
    let mut nodes = open_nodes(alloc, &mut roads, &mut shelves, two_blocks(alloc)?)?;
    stop_node(alloc, &mut roads, &mut nodes, NodeId(1))?;
    assert!(rt; roads.dial(alloc, FIRST_PORT).is_ok());
    let unanswered = roads.dial(alloc, FIRST_PORT + 1);
    assert!(rt; matches!(unanswered, Err(RoadError::NotListening)));
    Ok(())
}
