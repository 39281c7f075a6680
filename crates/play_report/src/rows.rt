//! What is read of replicas for a report.

ghost use Rattle.std.specs.Prelude.{◌≡◌, IfOk, OnOk, IfErr};
ghost use Rattle.replica_files.specs.Summing.{LeavesBook, SumsFor};
ghost use Rattle.play_report.specs.Rows.{IsRow, IsRowBehind, AreRows, AreRowsIf, AreRowsBehind, NodesHaveRows, fault_at};
ghost use Rattle.play_report.specs.Rows.{LeavesBooks, LeavesNodes, IsBookFault, IsBooksFault, IsNodesFault};

use crate::faults::ReportFault;
use crate::running::runs_in;
use hd_base::{Files, NodeId};
use play_scripts::NodeBooks;
use replica_core::ReplicaInfo;
use replica_files::{ReplicaBook, SumFault};
use std::alloc::Global;

/// What a replica holds, and the sum of its bytes where it is neither absent nor broken.
#[derive(Clone, Copy, Debug, PartialEq, Eq)]
pub(crate) struct Row {
    pub info: Option<ReplicaInfo>,
    pub sum: Option<u32>,
}

/// Reads the bytes of a replica.
fn row_of<F: Files>(alloc: Global, book: &mut ReplicaBook<F>) -> Result<Row, SumFault>
    ensures row { IfOk result (IsRow F.Files book.old) }
    ensures kept { LeavesBook F.Files book.old book.new }
    ensures cause { SumsFor (F.faults book.old.drawer) (F.faults book.new.drawer) result }
{
    let info = book.replica().info();
    let sum = book.written_sum(alloc)?;
    Ok(Row { info, sum })
}

/// The fault of a node's files that failed.
fn fault_at(node: NodeId, fault: SumFault) -> ReportFault
    ensures { result ≡ fault_at node fault }
{
    match fault {
        SumFault::Files => ReportFault::ShelfFault { node },
        SumFault::Memory => ReportFault::Memory,
    }
}

/// Reads the bytes of a replica, whose row stands behind the others.
fn add_row<F: Files>(
    alloc: Global,
    node: NodeId,
    book: &mut ReplicaBook<F>,
    rows: &mut Vec<Row>,
) -> Result<(), ReportFault>
    ensures row { OnOk result (IsRowBehind F.Files book.old rows.old.items rows.new.items) }
    ensures kept { LeavesBook F.Files book.old book.new }
    ensures cause { IfErr result (IsBookFault node (F.faults book.old.drawer) (F.faults book.new.drawer)) }
{
    rows.reserve(1)?;
    match row_of(alloc, book) {
        Ok(row) => {
            rows.push_reserved(row);
            Ok(())
        }
        Err(fault) => Err(fault_at(node, fault)),
    }
}

/// Reads the bytes of the replicas of a node.
fn node_rows<F: Files>(
    alloc: Global,
    node: NodeId,
    books: &mut [ReplicaBook<F>],
) -> Result<Vec<Row>, ReportFault>
    ensures rows { IfOk result (λ rows. AreRows F.Files books.old rows.items) }
    ensures kept { LeavesBooks F.Files books.old books.new }
    ensures cause { IfErr result (IsBooksFault F.Files node books.old books.new) }
{
    let mut rows = Vec::new(alloc);
    for place in 0..books.len() {
        add_row(alloc, node, &mut books[place], &mut rows)?;
    }
    Ok(rows)
}

/// Reads the bytes of the replicas of a node, if it runs.
fn rows_if<F: Files>(
    alloc: Global,
    runs: bool,
    node: NodeId,
    books: &mut [ReplicaBook<F>],
) -> Result<Vec<Row>, ReportFault>
    ensures rows { IfOk result (λ rows. AreRowsIf F.Files runs books.old rows.items) }
    ensures kept { LeavesBooks F.Files books.old books.new }
    ensures cause { IfErr result (IsBooksFault F.Files node books.old books.new) }
{
    if runs {
        node_rows(alloc, node, books)
    } else {
        Ok(Vec::new(alloc))
    }
}

/// Reads the bytes of the replicas of a node more, if it runs. The rows stand behind those of the others.
fn add_rows<F: Files>(
    alloc: Global,
    runs: bool,
    node: NodeId,
    books: &mut NodeBooks<F>,
    all: &mut Vec<Vec<Row>>,
) -> Result<(), ReportFault>
    ensures rows { OnOk result (AreRowsBehind F.Files runs books.old.books.items all.old.items all.new.items) }
    ensures kept { LeavesBooks F.Files books.old.books.items books.new.books.items }
    ensures cause { IfErr result (IsBooksFault F.Files node books.old.books.items books.new.books.items) }
{
    all.reserve(1)?;
    let rows = rows_if(alloc, runs, node, books.books.as_mut_slice())?;
    all.push_reserved(rows);
    Ok(())
}

/// Reads the bytes of the replicas of the nodes that run, of the first so many, if there are.
pub(crate) fn all_rows<F: Files>(
    alloc: Global,
    count: u32,
    running: &[bool],
    nodes: &mut [NodeBooks<F>],
) -> Result<Vec<Vec<Row>>, ReportFault>
    ensures rows { IfOk result (λ all. NodesHaveRows F.Files count running.now nodes.old all.items) }
    ensures kept { LeavesNodes F.Files nodes.old nodes.new }
    ensures cause { IfErr result (IsNodesFault F.Files nodes.old nodes.new) }
{
    let mut all = Vec::new(alloc);
    for node in 0..count {
        let place = node as usize;
        if place >= nodes.len() {
            return Ok(all);
        }
        let runs = runs_in(running, NodeId(node));
        add_rows(alloc, runs, NodeId(node), &mut nodes[place], &mut all)?;
    }
    Ok(all)
}
