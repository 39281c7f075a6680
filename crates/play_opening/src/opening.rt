//! The player of a play is opened.

ghost use Rattle.std.specs.Prelude.{◌≡◌, ◌≤◌, length, IfOk, IfErr, OnErr};
ghost use Rattle.hd_base.specs.declared.roads.TheConstants.{MAX_NODES};
ghost use Rattle.play.specs.NodeOpening.Shelves.{AreDistinct, EachShelf, IsGivenBack};
ghost use Rattle.play.specs.NodeOpening.Opening.{HasOpenCause};
ghost use Rattle.play_opening.specs.Opening.{AllRun, IsOpenedPlay, OpensPlay};

use crate::clients::new_clients;
use hd_base::{BlockId, Roads, Shelf};
use name_core::OfficeBook;
use play::{OpenFault, Player, Reads, Recoveries, open_nodes};
use std::alloc::{AllocError, Global};

/// That so many nodes run, which are the first ones.
fn all_running(alloc: Global, count: usize) -> Result<Vec<bool>, AllocError>
    ensures { IfOk result (λ running. AllRun count running.items) }
{
    Ok(vec![in alloc; true; count]?)
}

/// Opens the player of a play, with as many nodes as there are shelves: the nodes are opened, as `open_nodes` does it,
/// each block has a new client, in the order of the blocks, nobody reads or recovers, the office knows no block, all
/// nodes run, and no event has happened. There are ports for all nodes, and each block stands once.
///
/// After a fault no block is lent that wasn't before, and the shelves' files are as they were.
pub fn open_player<S: Shelf, R: Roads>(
    alloc: Global,
    roads: &mut R,
    shelves: &mut [S],
    blocks: Vec<BlockId>,
) -> Result<Player<S::Drawer, R::Inward, R::Outward>, OpenFault>
    requires ports { length shelves.old ≤ MAX_NODES }
    requires distinct { AreDistinct blocks.items }
    ensures opened { IfOk result (IsOpenedPlay S.Shelf S.Drawer.Files blocks.items shelves.old shelves.new) }
    ensures stands { OpensPlay R.Roads R.Inward.LinkIn R.Outward.LinkOut
        (length shelves.old) roads.old roads.new result }
    ensures cause { IfErr result (HasOpenCause R.Roads S.Shelf roads.old roads.new shelves.old shelves.new) }
    ensures given_back { OnErr result (EachShelf (IsGivenBack S.Shelf) shelves.old shelves.new) }
    ensures never_falls { R.faults roads.old ≤ R.faults roads.new }
    ensures risen { R.risen roads.new ≡ R.risen roads.old }
{
    let clients = new_clients(alloc, &blocks)?;
    let office = OfficeBook::new(alloc)?;
    let running = all_running(alloc, shelves.len())?;
    let nodes = open_nodes(alloc, roads, shelves, blocks)?;
    let reads = Reads::new(alloc);
    let recoveries = Recoveries::new(alloc);
    let events = Vec::new(alloc);
    Ok(Player {
        nodes,
        reads,
        recoveries,
        clients,
        office,
        running,
        events,
    })
}
