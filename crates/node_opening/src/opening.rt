//! The nodes of a play are opened.

ghost use Rattle.std.specs.Prelude.{◌≡◌, ◌≤◌, length, IfOk, IfErr, OnErr};
ghost use Rattle.hd_base.specs.declared.roads.TheConstants.{MAX_NODES};
ghost use Rattle.node_opening.specs.Shelves.{AreDistinct, EachShelf, IsGivenBack};
ghost use Rattle.node_opening.specs.Opening.{IsOpened, OpensStand, HasOpenCause};

use crate::emptiness::check_all;
use crate::faults::OpenFault;
use crate::lending::lend_all;
use crate::listening::listen_all;
use hd_base::{BlockId, Roads, Shelf};
use play_nodes::{Nodes, starts_are_nets};
use std::alloc::Global;

/// Opens the nodes of a play, as many as there are shelves: each listens on its port, its shelf has no files, and lends
/// the files of each block, over which the book of an absent replica is made. There are ports for all nodes, and each
/// block stands once.
///
/// After a fault no block is lent that wasn't before, and the shelves' files are as they were.
pub fn open_nodes<S: Shelf, R: Roads>(
    alloc: Global,
    roads: &mut R,
    shelves: &mut [S],
    blocks: Vec<BlockId>,
) -> Result<Nodes<S::Drawer, R::Inward, R::Outward>, OpenFault>
    requires ports { length shelves.old ≤ MAX_NODES }
    requires distinct { AreDistinct blocks.items }
    ensures opened { IfOk result (IsOpened S.Shelf S.Drawer.Files blocks.items shelves.old shelves.new) }
    ensures stands { OpensStand R.Roads R.Inward.LinkIn R.Outward.LinkOut
        (length shelves.old) roads.old roads.new result }
    ensures cause { IfErr result (HasOpenCause R.Roads S.Shelf roads.old roads.new shelves.old shelves.new) }
    ensures given_back { OnErr result (EachShelf (IsGivenBack S.Shelf) shelves.old shelves.new) }
    ensures never_falls { R.faults roads.old ≤ R.faults roads.new }
    ensures risen { R.risen roads.new ≡ R.risen roads.old }
{
    starts_are_nets();
    listen_all(alloc, roads, shelves.len() as u32)?;
    check_all(alloc, shelves)?;
    let nodes = lend_all(alloc, shelves, &blocks)?;
    Ok(Nodes {
        blocks,
        connections: Vec::new(alloc),
        nodes,
    })
}
