//! The shelves of the nodes of a play are looked at: they have no files.

ghost use Rattle.std.specs.Prelude.{◌≤◌, length, List, ℕ};
ghost use Rattle.hd_base.specs.declared.roads.TheConstants.{MAX_NODES};
ghost use Rattle.node_opening.specs.Emptiness.{ChecksShelf, ChecksAll};

use crate::faults::{OpenFault, shelf_fault};
use hd_base::{NodeId, Shelf};
use std::alloc::Global;

/// The shelf of a node has no files.
fn check_shelf<S: Shelf>(alloc: Global, node: NodeId, shelf: &mut S) -> Result<(), OpenFault>
    ensures { ChecksShelf S.Shelf node shelf.old shelf.new result }
{
    let names = match shelf.list(alloc) {
        Ok(names) => names,
        Err(error) => return Err(shelf_fault(node, error)),
    };
    match names.first() {
        Some(name) => Err(OpenFault::NotEmpty {
            node,
            name: name.duplicate(),
        }),
        None => Ok(()),
    }
}

/// No shelf has files.
pub(crate) fn check_all<S: Shelf>(alloc: Global, shelves: &mut [S]) -> Result<(), OpenFault>
    requires { length shelves.old ≤ MAX_NODES }
    ensures { ChecksAll S.Shelf shelves.old shelves.new result }
{
    for node in 0..shelves.len() {
        check_shelf(alloc, NodeId(node as u32), &mut shelves[node])?;
    }
    Ok(())
}
