//! The replicas of nodes, in a report.

ghost use Rattle.std.specs.Prelude.{◌≡◌, ◌++◌, slice_get, OnOk};
ghost use Rattle.std.specs.Option.{option_copied};
ghost use Rattle.play_report.specs.Replicas.{info_lines, row_lines, rows_lines, all_lines};

use crate::appending::append;
use crate::rows::Row;
use crate::running::runs_in;
use hd_base::{BlockId, NodeId};
use script_lang::ReportLine;
use std::alloc::AllocError;

/// Appends the line of a replica that isn't absent.
fn push_row(
    node: NodeId,
    block: BlockId,
    row: Row,
    out: &mut Vec<ReportLine>,
) -> Result<(), AllocError>
    ensures { OnOk result (out.new.items ≡
        out.old.items ++ info_lines node.0 block.0 row.sum row.info) }
{
    let Row { info, sum } = row;
    match info {
        Some(info) => {
            let line = ReportLine::Replica {
                node,
                block,
                state: info.state(),
                stamp: info.stamp,
                written: info.written,
                acked: info.acked,
                sum,
            };
            append(out, line)
        }
        None => Ok(()),
    }
}

/// Appends the lines of a node's replicas.
fn push_rows(
    node: NodeId,
    blocks: &[BlockId],
    rows: &[Row],
    out: &mut Vec<ReportLine>,
) -> Result<(), AllocError>
    ensures { OnOk result (out.new.items ≡ out.old.items ++ row_lines node.0 blocks.now rows.now) }
{
    let count = blocks.len().min(rows.len());
    for place in 0..count {
        push_row(node, blocks[place], rows[place], out)?;
    }
    Ok(())
}

/// Appends the lines of a node's replicas, if something was read there; of a node that doesn't run the line that it is
/// down.
fn push_node(
    node: NodeId,
    runs: bool,
    blocks: &[BlockId],
    rows: Option<&Vec<Row>>,
    out: &mut Vec<ReportLine>,
) -> Result<(), AllocError>
    ensures { OnOk result (out.new.items ≡
        out.old.items ++ rows_lines node.0 runs blocks.now (option_copied rows.entry)) }
{
    if !runs {
        return append(out, ReportLine::Down { node });
    }
    match rows {
        Some(rows) => push_rows(node, blocks, rows.as_slice(), out),
        None => Ok(()),
    }
}

/// Appends the lines of the first nodes, so many.
pub(crate) fn push_nodes(
    count: u32,
    running: &[bool],
    blocks: &[BlockId],
    all: &[Vec<Row>],
    out: &mut Vec<ReportLine>,
) -> Result<(), AllocError>
    ensures { OnOk result (out.new.items ≡ out.old.items ++ all_lines running.now blocks.now all.now count) }
{
    for node in 0..count {
        let runs = runs_in(running, NodeId(node));
        push_node(NodeId(node), runs, blocks, all.get(node as usize), out)?;
    }
    Ok(())
}
