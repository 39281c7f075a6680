//! Which connections are spent: nothing will ever be due of them.

ghost use Rattle.std.specs.Prelude.{◌≡◌};
ghost use Rattle.play_dues.specs.Places.{client_place};
ghost use Rattle.play_dues.specs.Spending.{has_shut, lower_at, has_conn_at, gave_up, TellsOf, TellsEnded};
ghost use Rattle.play_dues.specs.Spent.{is_spent, NothingDue, SpentStay};

use crate::places::client_of;
use crate::writers::has_conn;
use hd_base::{BlockId, ConnId, Files, LinkIn, LinkOut};
use play_clients::Client;
use play_reads::{Lower, Nodes, Reads, Upper};
use play_recoveries::{Recoveries, primary_of};

/// Whether nothing will ever be due of a connection: its lower end has no further events, and whoever dialled it takes
/// nothing from it any more. Of a number that no connection has the answer is no.
pub fn is_spent<F: Files, I: LinkIn, O: LinkOut>(
    nodes: &Nodes<F, I, O>,
    clients: &[Client<I, O>],
    reads: &Reads<I, O>,
    recoveries: &Recoveries<I, O>,
    conn: ConnId,
) -> bool
    ensures { TellsOf I.LinkIn O.LinkOut is_spent conn nodes.now clients.now reads.now recoveries.now result }
{
    has_ended(nodes, reads, recoveries, conn)
        && has_given_up(nodes, clients, reads, recoveries, conn)
}

/// Whether the lower end of a connection has no further events.
fn has_ended<F: Files, I: LinkIn, O: LinkOut>(
    nodes: &Nodes<F, I, O>,
    reads: &Reads<I, O>,
    recoveries: &Recoveries<I, O>,
    conn: ConnId,
) -> bool
    ensures { TellsEnded I.LinkIn O.LinkOut conn nodes.now reads.now recoveries.now result }
{
    if !nodes.is_elsewhere(conn) {
        return has_shut(nodes, conn);
    }
    if primary_of(nodes, conn).is_some() {
        return recoveries.has_ended(conn);
    }
    reads.has_ended(conn)
}

/// Whether the lower end of a connection, which stands among the nodes, has no further events.
fn has_shut<F: Files, I, O>(nodes: &Nodes<F, I, O>, conn: ConnId) -> bool
    ensures { result ≡ has_shut (lower_at nodes.now conn.0) }
{
    let conn = conn.0 as usize;
    if conn >= nodes.connections.len() {
        return false;
    }
    match &nodes.connections[conn].lower {
        Lower::Idle(_) | Lower::Member { .. } | Lower::Elsewhere => false,
        Lower::Ended => true,
    }
}

/// Whether whoever dialled a connection takes nothing from it any more: the member has no further events, the writer
/// has no connection or another one, or the reader or the primary takes nothing from it.
fn has_given_up<F: Files, I: LinkIn, O: LinkOut>(
    nodes: &Nodes<F, I, O>,
    clients: &[Client<I, O>],
    reads: &Reads<I, O>,
    recoveries: &Recoveries<I, O>,
    conn: ConnId,
) -> bool
    ensures { TellsOf I.LinkIn O.LinkOut gave_up conn nodes.now clients.now reads.now recoveries.now result }
{
    let at = conn.0 as usize;
    if at >= nodes.connections.len() {
        return false;
    }
    match nodes.connections[at].upper {
        Upper::Writer { block } => !is_connected(clients, block, conn),
        Upper::Member { conn: above } => has_ended(nodes, reads, recoveries, above),
        Upper::Reader { .. } => !reads.reads_over(nodes, conn),
        Upper::Primary { .. } => !recoveries.leads_over(nodes, conn),
    }
}

/// Whether the writer of a block has this connection.
fn is_connected<I: LinkIn, O: LinkOut>(
    clients: &[Client<I, O>],
    block: BlockId,
    conn: ConnId,
) -> bool
    ensures { result ≡ has_conn_at clients.now (client_place clients.now block.0) conn.0 }
{
    let Some(place) = client_of(clients, block) else {
        return false;
    };
    has_conn(&clients[place], conn)
}

/// Nothing is due of a connection that is spent, and it stays so in whatever is due.
pub fn spent_connections_stay()
    ensures dues { NothingDue }
    ensures stay { SpentStay }
{}
