//! The storm of a number.

ghost use Rattle.std.specs.Prelude.{◌≡◌, length, IfOk, IfErr};
ghost use Rattle.whole_play.specs.NodeOpening.Listening.{AreUnused};
ghost use Rattle.dn_run.specs.Storming.{CanStorm, HasStormed, IsStormFault, RefusesStorm, RunsStorm};
ghost use Rattle.dn_run.specs.Storming.{StormsKeep, WritesSummary};

use crate::exits::Exit;
use fault_ports::CutRoads;
use hd_base::Sink;
use refusing_files::Refusing;
use script_lang::{BadKind, STORM_NODES, storm_script};
use std::alloc::Global;
use storm_summary::{Summary, print_summary, summarize};
use told_shelves::ToldShelf;
use whole_play::{first_unplayed, play_script, played_lines_are_told, plays_are_safe, storms_fit};
use whole_streams::{WriteFault, write_all};

/// Plays the storm of a number over the first five shelves, and writes what its report comes to. Fewer shelves are too few
/// for its nodes: the first line of its script is bad then.
pub(crate) fn run_storm<O: Sink, F: Refusing, S: ToldShelf<Drawer = F>, R: CutRoads>(
    alloc: Global,
    number: u64,
    report: &mut O,
    shelves: &mut Vec<S>,
    roads: &mut R,
) -> Exit
    requires unused { AreUnused R.Roads roads.old }
    ensures storms { RunsStorm S.told O.Sink S.Shelf F.Files R.Roads number report.old report.new
        shelves.old.items shelves.new.items roads.old roads.new result }
    ensures refused { RefusesStorm S.told (length shelves.old.items) number result }
    ensures keeps { StormsKeep S.Shelf shelves.old.items shelves.new.items }
{
    match play_storm(alloc, number, shelves, roads) {
        Ok(summary) => write_summary(alloc, report, number, summary),
        Err(exit) => exit,
    }
}

/// Makes the storm's script, plays it, and sums up its report.
fn play_storm<F: Refusing, S: ToldShelf<Drawer = F>, R: CutRoads>(
    alloc: Global,
    number: u64,
    shelves: &mut Vec<S>,
    roads: &mut R,
) -> Result<Summary, Exit>
    requires unused { AreUnused R.Roads roads.old }
    ensures stormed { IfOk result (HasStormed S.Shelf F.Files R.Roads number
        shelves.old.items shelves.new.items roads.new) }
    ensures playable { IfOk result (λ summary. CanStorm S.told (length shelves.old.items) number) }
    ensures refused { IfErr result (RefusesStorm S.told (length shelves.old.items) number) }
    ensures cause { IfErr result (IsStormFault S.told S.Shelf R.Roads number
        shelves.old.items shelves.new.items roads.old roads.new) }
    ensures keeps { StormsKeep S.Shelf shelves.old.items shelves.new.items }
{
    storms_fit();
    played_lines_are_told();
    plays_are_safe();
    if shelves.len() < STORM_NODES as usize {
        return Err(Exit::BadScript {
            line: 1,
            kind: BadKind::TooManyNodes,
        });
    }
    let Ok(lines) = storm_script(alloc, number) else {
        return Err(Exit::Memory);
    };
    if let Some(line) = first_unplayed(S::tells(), lines.as_slice()) {
        return Err(Exit::BadScript {
            line,
            kind: BadKind::Word,
        });
    }
    let played = play_script(alloc, roads, shelves.as_mut_slice(), lines.as_slice())?;
    Ok(summarize(&played.report))
}

/// Writes the summary of a storm.
fn write_summary<O: Sink>(alloc: Global, sink: &mut O, number: u64, summary: Summary) -> Exit
    ensures { WritesSummary O.Sink sink.old sink.new number summary result }
{
    let Ok(text) = print_summary(alloc, number, &summary) else {
        return Exit::Memory;
    };
    match write_all(alloc, sink, &text) {
        Ok(()) => Exit::Done,
        Err(WriteFault::Failed) => Exit::ReportFault,
        Err(WriteFault::Memory) => Exit::Memory,
    }
}
