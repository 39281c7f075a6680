//! The player of a script.

ghost use Rattle.std.specs.Prelude.{◌≡◌};
ghost use Rattle.node_stops.specs.PlayNodes.Showing.{runs_in};
ghost use Rattle.play.specs.Running.{is_running, IsStopped, IsStarted};

use hd_base::{Files, NodeId};
use name_core::OfficeBook;
use node_stops::Nodes;
use play_dues::{Client, Reads, Recoveries};
use world::Event;

/// The player of a script: the nodes, the reads, the recoveries, the clients and the office, which nodes run, and the events
/// that happened.
#[derive(Drop)]
pub struct Player<F: Files, I, O> {
    /// The nodes: the lower ends of the connections, and the books.
    pub nodes: Nodes<F, I, O>,
    /// The reading clients of the lines so far, and the lower ends of the connections that they dialled.
    pub reads: Reads<I, O>,
    /// The primaries of the lines so far, and the lower ends of the connections that they dialled.
    pub recoveries: Recoveries<I, O>,
    /// The clients of the script's blocks, in ascending order of the blocks.
    pub clients: Vec<Client<I, O>>,
    /// The office.
    pub office: OfficeBook,
    /// Whether each node runs, by their numbers.
    pub running: Vec<bool>,
    /// The events that happened.
    pub events: Vec<Event>,
}

impl<F: Files, I, O> Player<F, I, O> {
    /// Whether a node runs; none does that isn't one of the play.
    pub fn runs(&self, node: NodeId) -> bool
        ensures { result ≡ runs_in self.now.running.items node.0 }
    {
        match self.running.get(node.0 as usize) {
            Some(runs) => *runs,
            None => false,
        }
    }

    /// Whether there is a node here, and it runs.
    pub(crate) fn is_running(&self, node: Option<NodeId>) -> bool
        ensures { result ≡ is_running self.now node }
    {
        match node {
            Some(node) => self.runs(node),
            None => false,
        }
    }

    /// A node no longer runs.
    pub(crate) fn stopped(&mut self, node: NodeId)
        ensures { IsStopped self.old self.new node }
    {
        if let Some(runs) = self.running.get_mut(node.0 as usize) {
            *runs = false;
        }
    }

    /// A node, if it is one of the play, runs again.
    pub(crate) fn started(&mut self, node: NodeId)
        ensures { IsStarted self.old self.new node }
    {
        if let Some(runs) = self.running.get_mut(node.0 as usize) {
            *runs = true;
        }
    }
}
