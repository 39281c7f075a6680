//! Whether the lower end of a connection takes what stands next, or acts without a message: that of a pipeline stands
//! among the nodes, that of a connection that a reader dialled among the reads, and that of one that a primary dialled
//! among the recoveries.

ghost use Rattle.play_clients.specs.MemberEvents.Roads.{RoadsPass};
ghost use Rattle.play_dues.specs.Lowers.{TellsLower, TellsActs};

use hd_base::{ConnId, Files, LinkIn, LinkOut, Roads};
use play_reads::{Nodes, Reads};
use play_recoveries::{Recoveries, none_is_ready, primary_of};

/// Whether the lower end of a connection takes what stands next.
pub(crate) fn lower_takes<F: Files, I: LinkIn, O: LinkOut, R: Roads<Inward = I, Outward = O>>(
    nodes: &Nodes<F, I, O>,
    reads: &Reads<I, O>,
    recoveries: &Recoveries<I, O>,
    roads: &mut R,
    conn: ConnId,
) -> bool
    ensures tells { TellsLower R.Roads I.LinkIn O.LinkOut conn
        nodes.now reads.now recoveries.now roads.old roads.new result }
    ensures pass { RoadsPass R.Roads roads.old roads.new }
{
    if !nodes.is_elsewhere(conn) {
        return nodes.can_down(roads, conn);
    }
    if primary_of(nodes, conn).is_some() {
        return recoveries.can_down(roads, conn);
    }
    reads.can_down(roads, conn)
}

/// Whether the lower end of a connection has something to do without a message.
pub(crate) fn lower_acts<F: Files, I: LinkIn, O: LinkOut>(
    nodes: &Nodes<F, I, O>,
    reads: &Reads<I, O>,
    recoveries: &Recoveries<I, O>,
    conn: ConnId,
) -> bool
    ensures { TellsActs I.LinkIn O.LinkOut conn nodes.now reads.now recoveries.now result }
{
    if !nodes.is_elsewhere(conn) {
        return nodes.can_ready(conn);
    }
    none_is_ready::<I, O>();
    if primary_of(nodes, conn).is_some() {
        return false;
    }
    reads.can_ready(conn)
}
