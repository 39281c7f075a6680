//! The play of a script is opened.

ghost use Rattle.std.specs.Prelude.{◌≡◌, ◌≤◌, length, IfOk, IfErr, OnErr};
ghost use Rattle.play_report.specs.NodeOpening.Listening.{AreUnused};
ghost use Rattle.play_report.specs.NodeOpening.Opening.{HasOpenCause};
ghost use Rattle.play_report.specs.NodeOpening.Shelves.{EachShelf, IsGivenBack};
ghost use Rattle.whole_play.specs.Opening.{HeadFits, HaveNoFaults, Begins, HasOpened};

use completing_lines::{LiveConns, Playing, open_player};
use hd_base::{Roads, Shelf};
use play_report::{Head, OpenFault, blocks_of};
use rand_pcg::Lcg64Xsh32;
use script_lang::ScriptLine;
use std::alloc::{AllocError, Global};

/// The stream of the generator that draws events.
const EVENT_STREAM: u64 = 1;

/// The numbers of so many nodes, at none of which a write is to fail.
fn no_faults(alloc: Global, nodes: u32) -> Result<Vec<u64>, AllocError>
    ensures { IfOk result (λ numbers. HaveNoFaults nodes numbers.items) }
{
    Ok(vec![in alloc; 0; nodes as usize]?)
}

/// Opens the play of a script with this head and these lines behind it, which fit: there is a shelf for each node.
pub(crate) fn open_play<S: Shelf, R: Roads>(
    alloc: Global,
    roads: &mut R,
    shelves: &mut [S],
    head: Head,
    lines: &[ScriptLine],
) -> Result<Playing<S::Drawer, R::Inward, R::Outward>, OpenFault>
    requires unused { AreUnused R.Roads roads.old }
    requires fits { HeadFits (length shelves.old) head lines.now }
    ensures begins { IfOk result (Begins S.Drawer.Files R.Roads R.Inward.LinkIn R.Outward.LinkOut head lines.now roads.new) }
    ensures opened { IfOk result (HasOpened S.Shelf S.Drawer.Files shelves.old shelves.new) }
    ensures cause { IfErr result (HasOpenCause R.Roads S.Shelf roads.old roads.new shelves.old shelves.new) }
    ensures given_back { OnErr result (EachShelf (IsGivenBack S.Shelf) shelves.old shelves.new) }
    ensures never_falls { R.faults roads.old ≤ R.faults roads.new }
    ensures risen { R.risen roads.new ≡ R.risen roads.old }
{
    let blocks = blocks_of(alloc, lines)?;
    let faults = no_faults(alloc, head.nodes)?;
    let player = open_player(alloc, roads, shelves, blocks)?;
    let generator = Lcg64Xsh32::new(head.seed, EVENT_STREAM);
    Ok(Playing {
        nodes: head.nodes,
        player,
        generator,
        faults,
        live: LiveConns::new(alloc),
    })
}
