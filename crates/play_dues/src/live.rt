//! The connections of which something may still be due.

ghost use Rattle.std.specs.Prelude.{OnOk};
ghost use Rattle.play_dues.specs.Live.{
  CoversNone,
  CurrentCovers,
  CoversOn,
  IsRefreshed,
  HasMore,
  TellsLive,
  DropsSpent,
};

use crate::spending::is_spent;
use hd_base::{ConnId, Files, LinkIn, LinkOut};
use play_clients::Client;
use play_reads::{Nodes, Reads};
use play_recoveries::Recoveries;
use std::alloc::{AllocError, Global};

/// The connections of which something may still be due, so that nobody has to ask those that ended long ago.
#[derive(Debug, Drop)]
pub struct LiveConns {
    /// In ascending order of their numbers.
    pub conns: Vec<ConnId>,
    /// How many connections were looked at: those of them that aren't listed are spent.
    pub known: usize,
}

impl LiveConns {
    /// Where no connection was looked at.
    pub fn new(alloc: Global) -> LiveConns
        ensures { CoversNone result }
    {
        LiveConns {
            conns: Vec::new(alloc),
            known: 0,
        }
    }

    /// Adds the connections that were dialled since, and drops those that are spent.
    pub fn refresh<F: Files, I: LinkIn, O: LinkOut>(
        &mut self,
        nodes: &Nodes<F, I, O>,
        clients: &[Client<I, O>],
        reads: &Reads<I, O>,
        recoveries: &Recoveries<I, O>,
    ) -> Result<(), AllocError>
        ensures { OnOk result (IsRefreshed I.LinkIn O.LinkOut self.old self.new
            nodes.now clients.now reads.now recoveries.now) }
    {
        let count = nodes.connections.len();
        add_numbers(&mut self.conns, self.known, count)?;
        self.known = count;
        drop_spent(&mut self.conns, nodes, clients, reads, recoveries);
        Ok(())
    }
}

/// Adds the numbers from one on, up to a count.
fn add_numbers(conns: &mut Vec<ConnId>, from: usize, count: usize) -> Result<(), AllocError>
    ensures { OnOk result (HasMore conns.old.items conns.new.items from count) }
{
    for index in from..count {
        conns.push(ConnId(index as u64))?;
    }
    Ok(())
}

/// Drops those that are spent.
fn drop_spent<F: Files, I: LinkIn, O: LinkOut>(
    conns: &mut Vec<ConnId>,
    nodes: &Nodes<F, I, O>,
    clients: &[Client<I, O>],
    reads: &Reads<I, O>,
    recoveries: &Recoveries<I, O>,
)
    ensures { DropsSpent I.LinkIn O.LinkOut conns.old.items conns.new.items
        nodes.now clients.now reads.now recoveries.now }
{
    conns.retain(
        |conn|
            ensures { TellsLive I.LinkIn O.LinkOut conn.now
                nodes.entry.now clients.entry.now reads.entry.now recoveries.entry.now result }
        { !is_spent(nodes, clients, reads, recoveries, *conn) },
    );
}

/// A list that is up to date covers its world, and the world after whatever is due in it.
pub fn live_connections_are_covered()
    ensures current { CurrentCovers }
    ensures on { CoversOn }
{}
