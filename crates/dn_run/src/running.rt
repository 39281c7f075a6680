//! The top call.

ghost use Rattle.std.specs.Prelude.{◌≡◌, ◌+◌, length, map, None, Ok, IfOk, IfErr, IfSome, IsOk};
ghost use Rattle.std.specs.String.{string_bytes};
ghost use Rattle.whole_play.specs.NodeOpening.Listening.{AreUnused};
ghost use Rattle.dn_run.specs.Calling.{Runs};
ghost use Rattle.dn_run.specs.Reading.{Refuses, script_limit};
ghost use Rattle.dn_run.specs.Runs.{IsBadIn, RefusesIn, IsUntouched, KeepsShelves, WritesReport};
ghost use Rattle.dn_run.specs.Runs.{HasPlayCause, HasExitCause, HasRun, IsOver, CanRun, NoneRose, IsPlainExit};
ghost use Rattle.dn_run.specs.Tasks.{task_of, UsageFor};
ghost use Rattle.whole_streams.specs.Streams.{TookSome};

use crate::exits::Exit;
use crate::reading::read_lines;
use crate::storming::run_storm;
use crate::tasks::{Task, read_task};
use fault_ports::CutRoads;
use hd_base::{Sink, Source};
use play_readings::plays_end_their_reads;
use play_recovery_ends::plays_end_their_recoveries;
use refusing_files::Refusing;
use std::alloc::Global;
use told_shelves::ToldShelf;
use whole_play::{
    Played, play_script, played_lines_are_told, plays_are_safe, plays_complete, report_text,
    scripts_fit,
};
use whole_streams::{WriteFault, write_all};

/// Runs what the words ask for, over shelves, one for each node, and roads. The words are those of the program's call,
/// without its name: with `play` the script that a source gives is played, and its report written to a sink; with
/// `storm N` the storm of that number is, and its summary written, and nothing is read; `live` is `Usage` so far.
///
/// The roads are such as can be cut (`Cutting` makes them of any). Those of a play are over plain memory and new: no
/// connection was made on them, nobody listens, they have carried nothing, and no end's count has risen. What shelves lend
/// is given back, whatever the exit is.
///
/// A node starts again, a reader asks, and a write on a data file fails only over shelves of a kind that tells its files:
/// over others a script with such a line is refused, as each storm is.
///
/// The exits are tried in the order `Usage`, `ScriptFault`, `BadScript`, `RoadFault`, `NotEmpty` and `ShelfFault` node by
/// node, `ReportFault`, `Differs`; `Memory` may come at any point.
pub fn run<I: Source, O: Sink, F: Refusing, S: ToldShelf<Drawer = F>, R: CutRoads>(
    alloc: Global,
    words: &[String],
    script: &mut I,
    report: &mut O,
    shelves: &mut Vec<S>,
    roads: &mut R,
) -> Exit
    requires unused { IsOk (task_of (map string_bytes words.now)) → AreUnused R.Roads roads.old }
    ensures usage { UsageFor (task_of (map string_bytes words.now)) result }
    ensures runs { Runs (task_of (map string_bytes words.now)) S.told I.Source O.Sink S.Shelf F.Files R.Roads
        script.old script.new report.old report.new shelves.old.items shelves.new.items roads.old roads.new result }
{
    match read_task(alloc, words) {
        Ok(Task::Play) => run_script(alloc, script, report, shelves, roads),
        Ok(Task::Storm { number }) => run_storm(alloc, number, report, shelves, roads),
        Err(exit) => exit,
    }
}

/// Plays the script that a source gives, and writes its report.
fn run_script<I: Source, O: Sink, F: Refusing, S: ToldShelf<Drawer = F>, R: CutRoads>(
    alloc: Global,
    script: &mut I,
    report: &mut O,
    shelves: &mut Vec<S>,
    roads: &mut R,
) -> Exit
    requires unused { AreUnused R.Roads roads.old }
    ensures bad { IsBadIn S.told (I.left script.old) (length shelves.old.items) result }
    ensures refused { RefusesIn S.told (I.left script.old) (length shelves.old.items) result }
    ensures taken { TookSome (I.left script.old) (I.left script.new) (script_limit + 1) }
    ensures untouched { IsUntouched shelves.old.items shelves.new.items roads.old roads.new result }
    ensures shelves { KeepsShelves S.told S.Shelf (I.left script.old) shelves.old.items shelves.new.items }
    ensures cause { HasExitCause S.told I.Source O.Sink S.Shelf R.Roads script.old script.new report.old report.new
        shelves.old.items shelves.new.items roads.old roads.new result }
    ensures faultless { CanRun S.told S.Shelf (I.left script.old) shelves.old.items →
        NoneRose I.Source O.Sink S.Shelf R.Roads script.old script.new report.old report.new
        shelves.old.items shelves.new.items roads.old roads.new → IsPlainExit result }
    ensures over { IsOver S.told I.Source O.Sink S.Shelf F.Files R.Roads script.old script.new report.old report.new
        shelves.old.items shelves.new.items roads.new result }
{
    match play(alloc, script, shelves, roads) {
        Ok(played) => write_report(alloc, report, played),
        Err(exit) => exit,
    }
}

/// Reads the script, and plays it.
fn play<I: Source, F: Refusing, S: ToldShelf<Drawer = F>, R: CutRoads>(
    alloc: Global,
    script: &mut I,
    shelves: &mut Vec<S>,
    roads: &mut R,
) -> Result<Played, Exit>
    requires unused { AreUnused R.Roads roads.old }
    ensures played { IfOk result (HasRun S.told I.Source S.Shelf F.Files R.Roads script.old script.new
        shelves.old.items shelves.new.items roads.new) }
    ensures bad { IfErr result (IsBadIn S.told (I.left script.old) (length shelves.old.items)) }
    ensures refused { IfSome (I.left script.old) (λ text. Refuses S.told (length shelves.old.items) text result) }
    ensures taken { TookSome (I.left script.old) (I.left script.new) (script_limit + 1) }
    ensures untouched { IfErr result (IsUntouched shelves.old.items shelves.new.items roads.old roads.new) }
    ensures shelves { KeepsShelves S.told S.Shelf (I.left script.old) shelves.old.items shelves.new.items }
    ensures cause { IfErr result (HasPlayCause S.told I.Source S.Shelf R.Roads script.old script.new
        shelves.old.items shelves.new.items roads.old roads.new) }
{
    scripts_fit();
    played_lines_are_told();
    plays_are_safe();
    plays_complete();
    plays_end_their_reads();
    plays_end_their_recoveries();
    let lines = read_lines::<I, S>(alloc, script, shelves.len())?;
    let played = play_script(alloc, roads, shelves.as_mut_slice(), lines.as_slice())?;
    Ok(played)
}

/// Writes the report of what was played.
fn write_report<O: Sink>(alloc: Global, sink: &mut O, played: Played) -> Exit
    ensures { WritesReport O.Sink sink.old sink.new played result }
{
    let Ok(text) = report_text(alloc, &played.report) else {
        return Exit::Memory;
    };
    if let Err(fault) = write_all(alloc, sink, &text) {
        return match fault {
            WriteFault::Failed => Exit::ReportFault,
            WriteFault::Memory => Exit::Memory,
        };
    }
    match played.difference {
        None => Exit::Done,
        Some(difference) => Exit::Differs {
            line: difference.line,
            want: difference.want,
            got: difference.got,
        },
    }
}
