//! A node of a play starts again.

ghost use Rattle.std.specs.Prelude.{◌<◌, ◌≤◌, OnOk, OnErr, IfErr};
ghost use Rattle.hd_base.specs.declared.roads.TheConstants.{MAX_NODES};
ghost use Rattle.node_stops.specs.MemberEvents.Roads.{RoadsPass};
ghost use Rattle.node_starts.specs.NodeOpening.Closing.{AreLentOut};
ghost use Rattle.node_starts.specs.NodeOpening.Shelves.{LendsNoMore};
ghost use Rattle.node_starts.specs.Books.{HasAllBooks, KeepsOthers, StartsOver, StopsOver};
ghost use Rattle.play.specs.Starting.{StartShows, IsStartCause};

use crate::faults::{PlayFault, of_start};
use crate::laws::worlds_are_lawful;
use crate::player::Player;
use hd_base::{Files, LinkIn, LinkOut, NodeId, Roads, Shelf};
use node_starts::{dials_are_of_lives_so_far, refused_writes_leave_replicas_whole, start_node};
use play_dues::{clients_stay, starts_keep_reads, starts_keep_recoveries};
use std::alloc::Global;
use world::{Event, FoundList};

impl<F: Files, I: LinkIn, O: LinkOut> Player<F, I, O> {
    /// A node that doesn't run starts again between two events: its shelf is scanned, and it has the books of what is
    /// found. It listens on its port.
    ///
    /// After a fault the node doesn't run. Either it has no books then, and its shelf lends none of the blocks, or it has
    /// all of them again.
    pub fn start<S: Shelf<Drawer = F>, R: Roads<Inward = I, Outward = O>>(
        &mut self,
        alloc: Global,
        roads: &mut R,
        shelf: &mut S,
        node: NodeId,
    ) -> Result<(), PlayFault>
        requires in_range { node.0 < MAX_NODES }
        requires lent { AreLentOut S.Shelf shelf.old self.old.nodes.blocks.items }
        requires whole { HasAllBooks node self.old.nodes }
        ensures shows { StartShows S.Shelf F.Files R.Roads I.LinkIn O.LinkOut node
            shelf.old self.old self.new roads.old roads.new result }
        ensures lent { OnOk result
            (StartsOver S.Shelf F.Files node shelf.old shelf.new self.old.nodes self.new.nodes) }
        ensures given_up { OnErr result
            (StopsOver S.Shelf F.Files node shelf.old shelf.new self.old.nodes self.new.nodes) }
        ensures cause { IfErr result (IsStartCause S.Shelf R.Roads node shelf.old shelf.new roads.old roads.new) }
        ensures never_falls { S.faults shelf.old ≤ S.faults shelf.new }
        ensures no_more { LendsNoMore S.Shelf shelf.old shelf.new }
        ensures others { KeepsOthers node self.old.nodes self.new.nodes }
        ensures pass { RoadsPass R.Roads roads.old roads.new }
    {
        worlds_are_lawful();
        refused_writes_leave_replicas_whole();
        dials_are_of_lives_so_far();
        clients_stay::<I, O>();
        starts_keep_reads::<I, O>();
        starts_keep_recoveries::<I, O>();
        match start_node(alloc, roads, shelf, &mut self.nodes, node) {
            Ok(()) => {
                self.started(node);
                self.keep(Event::Restart {
                    node,
                    found: FoundList::from_vec(Vec::new(alloc)),
                })
            }
            Err(fault) => Err(of_start(fault, node)),
        }
    }
}
