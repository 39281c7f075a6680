//! The report of a play.

ghost use Rattle.std.specs.Prelude.{◌≡◌, ◌++◌, take, IfOk, IfErr};
ghost use Rattle.play_report.specs.Answers.{lines_text};
ghost use Rattle.play_report.specs.Reports.{Reports};
ghost use Rattle.play_report.specs.Rows.{LeavesAll, IsNodesFault};

use crate::answers::push_clients;
use crate::appending::append;
use crate::faults::ReportFault;
use crate::recoveries::push_asked;
use crate::replicas::push_nodes;
use crate::rows::all_rows;
use hd_base::{Files, LinkIn, LinkOut};
use play_clients::Client;
use play_primaries::{PrimaryClient, ReadClient};
use play_scripts::Nodes;
use script_lang::{ReportLine, ScriptLine, print_line};
use std::alloc::{AllocError, Global};

/// The lines of the report of a play with so many nodes, of which these run, after these lines of its script. The files of
/// each replica at a node that runs are read once, piece by piece.
pub fn report_lines<F: Files, I: LinkIn, O: LinkOut>(
    alloc: Global,
    count: u32,
    running: &[bool],
    nodes: &mut Nodes<F, I, O>,
    clients: &[Client<I, O>],
    reads: &[ReadClient<I, O>],
    recoveries: &[PrimaryClient<I, O>],
    lines: &[ScriptLine],
) -> Result<Vec<ReportLine>, ReportFault>
    ensures report { IfOk result (λ report.
        Reports F.Files I.LinkIn O.LinkOut count running.now nodes.old clients.now reads.now recoveries.now
        lines.now report.items) }
    ensures kept { LeavesAll F.Files nodes.old nodes.new }
    ensures cause { IfErr result (IsNodesFault F.Files nodes.old.nodes.items nodes.new.nodes.items) }
{
    let all = all_rows(alloc, count, running, nodes.nodes.as_mut_slice())?;
    let mut report = Vec::new(alloc);
    push_nodes(
        count,
        running,
        nodes.blocks.as_slice(),
        all.as_slice(),
        &mut report,
    )?;
    push_clients(clients, lines, &mut report)?;
    push_asked(reads, recoveries, lines, &mut report)?;
    append(&mut report, ReportLine::End)?;
    Ok(report)
}

/// The text of a report: its lines, one after the other.
pub fn report_text(alloc: Global, report: &[ReportLine]) -> Result<Vec<u8>, AllocError>
    ensures { IfOk result (λ text. text.items ≡ lines_text report.now) }
{
    let mut text = Vec::new(alloc);
    for line in report {
        print_line(line, &mut text)?;
    }
    Ok(text)
}
