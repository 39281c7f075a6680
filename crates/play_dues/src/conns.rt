//! Which events of a connection are due.

ghost use Rattle.std.specs.Prelude.{◌≡◌, ◌≤◌, length, option_map, slice_get};
ghost use Rattle.play_clients.specs.MemberEvents.Roads.{RoadsPass};
ghost use Rattle.play_dues.specs.Conns.{listed, writer_above, TellsClient, TellsUpper, TellsConn};

use crate::lowers::{lower_acts, lower_takes};
use crate::places::client_of;
use crate::writers::can_up;
use hd_base::{BlockId, ConnId, Files, LinkIn, LinkOut, Roads};
use play_clients::Client;
use play_model::Due;
use play_reads::{Nodes, Reads, Upper};
use play_recoveries::{Recoveries, primary_of};

/// Which events of a connection are due.
#[derive(Clone, Copy, Debug, PartialEq, Eq)]
pub struct ConnDues {
    /// The lower end takes what stands next.
    pub down: bool,
    /// The lower end acts without a message.
    pub ready: bool,
    /// The upper end takes what stands next.
    pub up: bool,
}

impl ConnDues {
    /// How many are due: three at most.
    pub fn count(self, conn: ConnId) -> usize
        ensures listed { result ≡ length (listed conn self) }
        ensures few { result ≤ 3 }
    {
        usize::from(self.down) + usize::from(self.ready) + usize::from(self.up)
    }

    /// The one with this number, of a connection.
    pub fn pick(self, conn: ConnId, number: usize) -> Option<Due>
        ensures { result ≡ slice_get (listed conn self) number }
    {
        let mut rest = number;
        if self.down {
            if rest == 0 {
                return Some(Due::Down { conn });
            }
            rest -= 1;
        }
        if self.ready {
            if rest == 0 {
                return Some(Due::Ready { conn });
            }
            rest -= 1;
        }
        if self.up && rest == 0 {
            Some(Due::Up { conn })
        } else {
            None
        }
    }
}

/// Which events of a connection are due.
pub fn dues_of<F: Files, I: LinkIn, O: LinkOut, R: Roads<Inward = I, Outward = O>>(
    nodes: &Nodes<F, I, O>,
    clients: &[Client<I, O>],
    reads: &Reads<I, O>,
    recoveries: &Recoveries<I, O>,
    roads: &mut R,
    conn: ConnId,
) -> ConnDues
    ensures tells { TellsConn R.Roads I.LinkIn O.LinkOut conn
        nodes.now clients.now reads.now recoveries.now roads.old roads.new result }
    ensures pass { RoadsPass R.Roads roads.old roads.new }
{
    let down = lower_takes(nodes, reads, recoveries, roads, conn);
    let ready = lower_acts(nodes, reads, recoveries, conn);
    let up = upper_takes(nodes, clients, reads, recoveries, roads, conn);
    ConnDues { down, ready, up }
}

/// Whether the upper end of a connection takes what stands next: the member, the writer, the reader or the primary that
/// dialled it.
pub fn upper_takes<F: Files, I: LinkIn, O: LinkOut, R: Roads<Inward = I, Outward = O>>(
    nodes: &Nodes<F, I, O>,
    clients: &[Client<I, O>],
    reads: &Reads<I, O>,
    recoveries: &Recoveries<I, O>,
    roads: &mut R,
    conn: ConnId,
) -> bool
    ensures tells { TellsUpper R.Roads I.LinkIn O.LinkOut conn
        nodes.now clients.now reads.now recoveries.now roads.old roads.new result }
    ensures pass { RoadsPass R.Roads roads.old roads.new }
{
    if conn.0 as usize >= nodes.connections.len() {
        return false;
    }
    if nodes.is_elsewhere(conn) {
        return client_takes(nodes, reads, recoveries, roads, conn);
    }
    let Some(block) = writer_of(nodes, conn) else {
        return nodes.can_up(roads, conn);
    };
    let Some(place) = client_of(clients, block) else {
        return false;
    };
    can_up(&clients[place], roads, conn)
}

/// Whether the reader or the primary that dialled a connection takes what stands next.
fn client_takes<F: Files, I: LinkIn, O: LinkOut, R: Roads<Inward = I, Outward = O>>(
    nodes: &Nodes<F, I, O>,
    reads: &Reads<I, O>,
    recoveries: &Recoveries<I, O>,
    roads: &mut R,
    conn: ConnId,
) -> bool
    ensures tells { TellsClient R.Roads I.LinkIn O.LinkOut conn
        nodes.now reads.now recoveries.now roads.old roads.new result }
    ensures pass { RoadsPass R.Roads roads.old roads.new }
{
    if primary_of(nodes, conn).is_some() {
        return recoveries.can_up(roads, nodes, conn);
    }
    reads.can_up(roads, nodes, conn)
}

/// The block whose writer dialled a connection, if a writer did.
pub fn writer_of<F: Files, I, O>(nodes: &Nodes<F, I, O>, conn: ConnId) -> Option<BlockId>
    ensures { result ≡ writer_above (option_map (λ x. x.upper) (slice_get nodes.now.connections.items conn.0)) }
{
    let conn = conn.0 as usize;
    if conn >= nodes.connections.len() {
        return None;
    }
    match nodes.connections[conn].upper {
        Upper::Writer { block } => Some(block),
        Upper::Member { .. } | Upper::Reader { .. } | Upper::Primary { .. } => None,
    }
}
