//! The connections that writers, readers and primaries dial.

ghost use Rattle.std.specs.Prelude.{◌≡◌, map, is_some};
ghost use Rattle.play_nodes.specs.Places.{KeepsSizes};
ghost use Rattle.play_nodes.specs.Frames.{DialledShows};
ghost use Rattle.play_nodes.specs.Elsewhere.{
  IsBehind,
  ReadShows,
  is_answered,
  led_conns,
  AreBehind,
  LedShows,
};

use crate::connections::{Connection, Lower, Upper};
use crate::faults::NodesFault;
use crate::nodes::Nodes;
use hd_base::{BlockId, Conn, Files, LinkIn, LinkOut, NodeId};

impl<F: Files, I: LinkIn, O: LinkOut> Nodes<F, I, O> {
    /// Adds the connection that the writer of a block dialled at a node, whose lower end this is.
    pub fn dialled(
        &mut self,
        block: BlockId,
        node: NodeId,
        end: Conn<I, O>,
    ) -> Result<(), NodesFault>
        ensures shows { DialledShows I.LinkIn O.LinkOut block node end self.old self.new result }
        ensures sizes { KeepsSizes self.old self.new }
    {
        let connection = Connection {
            upper: Upper::Writer { block },
            node,
            lower: Lower::Idle(end),
            mirror: None,
        };
        match self.connections.push(connection) {
            Ok(()) => Ok(()),
            Err(_) => Err(NodesFault::Memory),
        }
    }

    /// Adds the connection that a reader dialled at a node, whose lower end is kept elsewhere.
    pub fn read(&mut self, reader: u64, node: NodeId) -> Result<(), NodesFault>
        ensures behind { IsBehind (Upper.Reader reader) node self.old self.new result }
        ensures shows { ReadShows I.LinkIn O.LinkOut reader node self.old self.new result }
        ensures sizes { KeepsSizes self.old self.new }
    {
        self.add_elsewhere(Upper::Reader { reader }, node)
    }

    /// Adds the connections that a primary at a node dialled to members, of which those have answered that have a lower
    /// end here: one for each, in the members' order. The lower ends are kept elsewhere.
    pub fn led(
        &mut self,
        primary: u64,
        at: NodeId,
        members: &[NodeId],
        lowers: &[Option<Conn<I, O>>],
    ) -> Result<(), NodesFault>
        ensures behind { AreBehind (led_conns primary at 0 members.now (map is_some lowers.now))
            self.old self.new result }
        ensures shows { LedShows I.LinkIn O.LinkOut primary at members.now (map is_some lowers.now)
            self.old self.new result }
        ensures sizes { KeepsSizes self.old self.new }
    {
        for place in 0..members.len() {
            if is_answered(lowers, place) {
                let upper = Upper::Primary {
                    primary,
                    place,
                    node: at,
                };
                self.add_elsewhere(upper, members[place])?;
            }
        }
        Ok(())
    }

    /// Adds a connection at a node, whose lower end is kept elsewhere.
    fn add_elsewhere(&mut self, upper: Upper, node: NodeId) -> Result<(), NodesFault>
        ensures behind { IsBehind upper node self.old self.new result }
        ensures sizes { KeepsSizes self.old self.new }
    {
        let connection = Connection {
            upper,
            node,
            lower: Lower::Elsewhere,
            mirror: None,
        };
        match self.connections.push(connection) {
            Ok(()) => Ok(()),
            Err(_) => Err(NodesFault::Memory),
        }
    }
}

/// Whether the dial at a place was answered: it has a lower end.
fn is_answered<I: LinkIn, O: LinkOut>(lowers: &[Option<Conn<I, O>>], place: usize) -> bool
    ensures { result ≡ is_answered (map is_some lowers.now) place }
{
    place < lowers.len() && lowers[place].is_some()
}
