//! The connections of a play: who dialled each, and its lower end.

ghost use Rattle.std.specs.Prelude.{◌≡◌};
ghost use Rattle.play_nodes.specs.Showing.{stands_here};

use hd_base::{BlockId, Conn, ConnId, NodeId};
use member_events::Member;

/// Who dialled a connection.
#[derive(Clone, Copy, Debug, PartialEq, Eq)]
pub enum Upper {
    /// The writer of a block.
    Writer {
        block: BlockId,
    },
    /// The member whose request came on a connection.
    Member {
        conn: ConnId,
    },
    /// A reader, by its number.
    Reader {
        reader: u64,
    },
    /// A primary at a node, by its number, for the member at a place of its list.
    Primary {
        primary: u64,
        place: usize,
        node: NodeId,
    },
}

/// The lower end of a connection.
#[derive(Drop)]
pub enum Lower<I, O> {
    /// It has taken nothing yet.
    Idle(Conn<I, O>),
    /// It is a member of a pipeline, whose book is at this place among those of its node.
    Member { member: Member<I, O>, place: usize },
    /// It has no further events.
    Ended,
    /// It is kept elsewhere: the connection is a reader's or a primary's, and none of a pipeline.
    Elsewhere,
}

impl<I, O> Lower<I, O> {
    /// Whether it stands among the nodes, and isn't kept elsewhere.
    pub fn stands_here(&self) -> bool
        ensures { result ≡ stands_here self.now }
    {
        match self {
            Lower::Idle(_) | Lower::Member { .. } | Lower::Ended => true,
            Lower::Elsewhere => false,
        }
    }
}

/// A connection of a play.
#[derive(Drop)]
pub struct Connection<I, O> {
    /// Who dialled.
    pub upper: Upper,
    /// The node that took the dial.
    pub node: NodeId,
    /// The lower end.
    pub lower: Lower<I, O>,
    /// The connection to the lower end's mirror, once that was dialled.
    pub mirror: Option<ConnId>,
}
