//! A script is played.

ghost use Rattle.std.specs.Prelude.{◌≡◌, length, drop, IfOk, IfErr, IfSome, OnOk};
ghost use Rattle.play_report.specs.MemberEvents.Roads.{RoadsPass};
ghost use Rattle.play_report.specs.NodeOpening.Listening.{AreUnused};
ghost use Rattle.play_report.specs.NodeOpening.Shelves.{EachShelf, LendsNoMore};
ghost use Rattle.play_report.specs.NodeOpening.Standing.{AllLentOut, ShelvesStay};
ghost use Rattle.completing_lines.specs.PlayLines.Shelves.{ShelvesServe};
ghost use Rattle.play_report.specs.Rows.{LeavesAll};
ghost use Rattle.play_report.specs.PlayScripts.Fitting.{ScriptFits};
ghost use Rattle.play_report.specs.PlayScripts.Heads.{head_of};
ghost use Rattle.play_report.specs.PlayScripts.Unplayed.{LinesAreTold};
ghost use Rattle.whole_play.specs.Opening.{HasHead, HeadFits};
ghost use Rattle.whole_play.specs.Playing.{BeginsScript, IsOver, IsThroughFault, IsToldOf, IsReportFault};
ghost use Rattle.whole_play.specs.Playing.{IsClosed, IsPlayed, LeavesShelves, HasCause, HasUsedCause};

use crate::faults::RunFault;
use crate::opening::open_play;
use completing_lines::Playing;
use fault_ports::CutRoads;
use hd_base::{Files, LinkIn, LinkOut};
use play_model::replicas_have_their_bytes;
use play_report::{
    Difference, Head, Nodes, close_nodes, first_difference, fitting_books_are_of_blocks, head_of,
    nets_carry, only_nodes_run, opened_nodes_stand, plays_ask_by_number, plays_recover_by_number,
    report_lines, reports_are_true, reports_keep_nodes, shown_nodes_fit, standing_nodes_close,
};
use refusing_files::Refusing;
use script_lang::{ReportLine, ScriptLine};
use std::alloc::Global;
use told_shelves::ToldShelf;

/// How many lines the head has.
const HEAD_LINES: usize = 2;

/// What is told of a script that was played.
#[derive(Debug, Drop)]
pub struct Played {
    /// The lines of the report.
    pub report: Vec<ReportLine>,
    /// The first line that expects another replica than there is.
    pub difference: Option<Difference>,
}

/// Plays a script over the first of the shelves, one for each node, and over roads that are unused. A node starts, a
/// reader asks, and a write on a data file is to fail, only over shelves that tell their files. What the shelves have
/// lent is given back, whatever the result is.
pub fn play_script<F: Refusing, S: ToldShelf<Drawer = F>, R: CutRoads>(
    alloc: Global,
    roads: &mut R,
    shelves: &mut [S],
    script: &[ScriptLine],
) -> Result<Played, RunFault>
    requires unused { AreUnused R.Roads roads.old }
    requires fits { ScriptFits (length shelves.old) script.now }
    requires told { LinesAreTold S.told script.now }
    ensures played { IfOk result (IsPlayed S.Shelf F.Files R.Roads script.now shelves.old shelves.new roads.new) }
    ensures cause { IfErr result (HasUsedCause S.Shelf R.Roads script.now
        shelves.old shelves.new roads.old roads.new) }
    ensures shelves { IfSome (head_of script.now) (LeavesShelves S.Shelf shelves.old shelves.new) }
{
    let Some(head) = head_of(script) else {
        unreachable!();
    };
    play_on(
        alloc,
        roads,
        &mut shelves[..head.nodes as usize],
        head,
        script,
    )
}

/// Plays a script with this head over as many shelves as it has nodes.
fn play_on<F: Refusing, S: ToldShelf<Drawer = F>, R: CutRoads>(
    alloc: Global,
    roads: &mut R,
    shelves: &mut [S],
    head: Head,
    script: &[ScriptLine],
) -> Result<Played, RunFault>
    requires unused { AreUnused R.Roads roads.old }
    requires head { HasHead head (drop HEAD_LINES script.now) script.now }
    requires fits { HeadFits (length shelves.old) head (drop HEAD_LINES script.now) }
    requires told { LinesAreTold S.told script.now }
    ensures closed { IfOk result (IsClosed S.Shelf F.Files R.Roads script.now shelves.old shelves.new roads.new) }
    ensures cause { IfErr result (HasCause S.Shelf R.Roads shelves.old shelves.new roads.old roads.new) }
    ensures lent { EachShelf (LendsNoMore S.Shelf) shelves.old shelves.new }
{
    opened_nodes_stand::<S, R::Inward, R::Outward>();
    standing_nodes_close::<S, R::Inward, R::Outward>();
    shown_nodes_fit::<F, R::Inward, R::Outward>();
    fitting_books_are_of_blocks::<F>();
    replicas_have_their_bytes();
    let (_, lines) = script.split_at(HEAD_LINES);
    let mut playing = open_play(alloc, roads, shelves, head, lines)?;
    let played = play_through(alloc, roads, shelves, &mut playing, script);
    let Nodes { blocks, nodes, .. } = playing.player.nodes;
    close_nodes(&blocks, nodes, shelves);
    played
}

/// Plays the lines behind the head of a script over the shelves of its nodes, and makes the report.
fn play_through<
    F: Refusing,
    I: LinkIn,
    O: LinkOut,
    S: ToldShelf<Drawer = F>,
    R: CutRoads<Inward = I, Outward = O>,
>(
    alloc: Global,
    roads: &mut R,
    shelves: &mut [S],
    playing: &mut Playing<F, I, O>,
    script: &[ScriptLine],
) -> Result<Played, RunFault>
    requires begins { BeginsScript F.Files R.Roads I.LinkIn O.LinkOut script.now (length shelves.old) roads.old playing.old }
    requires serve { ShelvesServe S.Shelf shelves.old playing.old }
    requires told { LinesAreTold S.told script.now }
    ensures through { IfOk result (IsOver F.Files R.Roads I.LinkIn O.LinkOut script.now roads.new playing.new) }
    ensures cause { IfErr result (IsThroughFault S.Shelf F.Files R.Roads
        shelves.old shelves.new playing.new roads.old roads.new) }
    ensures stay { ShelvesStay S.Shelf shelves.old shelves.new playing.old.player.nodes playing.new.player.nodes }
    ensures lent { OnOk result (AllLentOut S.Shelf shelves.new playing.new.player.nodes) }
    ensures blocks { playing.new.player.nodes.blocks.items ≡ playing.old.player.nodes.blocks.items }
    ensures pass { RoadsPass R.Roads roads.old roads.new }
{
    only_nodes_run();
    nets_carry();
    plays_ask_by_number();
    plays_recover_by_number();
    reports_keep_nodes::<F, I, O>();
    let (_, lines) = script.split_at(HEAD_LINES);
    playing.lines(alloc, roads, shelves, lines)?;
    report_of(alloc, playing, script)
}

/// The report of a play that is over, and the first difference from what is expected.
fn report_of<F: Files, I: LinkIn, O: LinkOut>(
    alloc: Global,
    playing: &mut Playing<F, I, O>,
    script: &[ScriptLine],
) -> Result<Played, RunFault>
    ensures told { IfOk result (IsToldOf F.Files I.LinkIn O.LinkOut playing.old script.now) }
    ensures cause { IfErr result (IsReportFault F.Files playing.new) }
    ensures kept { LeavesAll F.Files playing.old.player.nodes playing.new.player.nodes }
{
    reports_keep_nodes::<F, I, O>();
    reports_are_true::<F, I, O>();
    let count = playing.nodes;
    let player = &mut playing.player;
    let report = report_lines(
        alloc,
        count,
        &player.running,
        &mut player.nodes,
        &player.clients,
        &player.reads.clients,
        &player.recoveries.clients,
        script,
    )?;
    let difference = first_difference(count, &player.running, &player.nodes, script);
    Ok(Played { report, difference })
}
