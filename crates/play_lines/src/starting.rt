//! A node starts again.

ghost use Rattle.std.specs.Prelude.{◌≡◌, true};
ghost use Rattle.play_scripts.specs.MemberEvents.Roads.{RoadsPass};
ghost use Rattle.play_lines.specs.Shelves.{ShelvesServe, ShelvesGoOn};
ghost use Rattle.play_lines.specs.Showing.{IsPlaying};
ghost use Rattle.play_lines.specs.Starting.{StartShows};

use crate::playing::Playing;
use fault_ports::CutRoads;
use hd_base::{Files, LinkIn, LinkOut, NodeId};
use play_model::replicas_have_their_bytes;
use play_opening::{PlayFault, dials_are_of_lives_so_far, worlds_are_lawful};
use play_scripts::{fitting_books_are_of_blocks, shown_nodes_fit};
use std::alloc::Global;
use told_shelves::{ToldShelf, told_shelves_tell};

impl<F: Files, I: LinkIn, O: LinkOut> Playing<F, I, O> {
    /// A node that doesn't run starts again between two events, over its shelf, which tells its files: it has the books
    /// of what its files hold, and dials to it are answered again. Nothing is done where it runs, or has no shelf.
    pub fn start<S: ToldShelf<Drawer = F>, R: CutRoads<Inward = I, Outward = O>>(
        &mut self,
        alloc: Global,
        roads: &mut R,
        shelves: &mut [S],
        node: NodeId,
    ) -> Result<(), PlayFault>
        requires playing { IsPlaying F.Files R.Roads I.LinkIn O.LinkOut roads.old self.old }
        requires serve { ShelvesServe S.Shelf shelves.old self.old }
        requires told { S.told ≡ true }
        ensures shows { StartShows S.Shelf F.Files R.Roads I.LinkIn O.LinkOut node
            shelves.old shelves.new self.old self.new roads.old roads.new result }
        ensures shelves { ShelvesGoOn S.Shelf shelves.old shelves.new self.old self.new result }
        ensures pass { RoadsPass R.Roads roads.old roads.new }
    {
        worlds_are_lawful();
        replicas_have_their_bytes();
        shown_nodes_fit::<F, I, O>();
        fitting_books_are_of_blocks::<F>();
        dials_are_of_lives_so_far();
        told_shelves_tell::<S>();
        if self.player.runs(node) {
            return Ok(());
        }
        let place = node.0 as usize;
        if place >= shelves.len() {
            return Ok(());
        }
        self.player.start(alloc, roads, &mut shelves[place], node)
    }
}
