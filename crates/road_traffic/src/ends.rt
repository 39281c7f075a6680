//! Roads that show connections, asked for more.

ghost use Rattle.std.specs.Prelude.{◌≡◌, ◌+◌, ◌≤◌, ◌<◌, IfOk, IfSome};
ghost use Rattle.hd_base.specs.Ends.{IsFresh, IsKnown};
ghost use Rattle.hd_base.specs.RoadCauses.{RoadCause};
ghost use Rattle.hd_base.specs.declared.roads.TheConstants.{FIRST_PORT, MAX_NODES};
ghost use Rattle.road_traffic.specs.Showing.{ShowsAccept, ShowsListen, ShowsStanding, Net, RoadsShow};

use hd_base::{Conn, ConnId, NodeId, RoadError, Roads, Standing};
use std::alloc::Global;

/// The lower end of the oldest dial that waits at a port, if one does.
pub fn accept<R: Roads>(
    alloc: Global,
    roads: &mut R,
    port: u16,
) -> Result<Option<Conn<R::Inward, R::Outward>>, RoadError>
    ensures shows { ShowsAccept R.Roads R.Inward.LinkIn R.Outward.LinkOut port roads.old roads.new result }
    ensures known { IfOk result (λ found. IfSome found (λ end. IsKnown (R.plain roads.old) end.id.0)) }
    ensures fresh { IfOk result (λ found. IfSome found (IsFresh R.Inward.LinkIn R.Outward.LinkOut)) }
    ensures risen { R.risen roads.new ≡ R.risen roads.old }
    ensures cause { RoadCause (R.faults roads.old) (R.faults roads.new) result }
{
    roads.accept(alloc, port)
}

/// The port of a node, which is listened on from then on.
pub fn listen<R: Roads>(alloc: Global, roads: &mut R, node: NodeId) -> Result<u16, RoadError>
    requires { node.0 < MAX_NODES }
    ensures port { IfOk result (λ port. port ≡ FIRST_PORT + node.0) }
    ensures shows { ShowsListen R.Roads node.0 roads.old roads.new result }
    ensures risen { R.risen roads.new ≡ R.risen roads.old }
    ensures cause { RoadCause (R.faults roads.old) (R.faults roads.new) result }
{
    roads.listen(alloc, node)
}

/// What stands next on a connection's direction.
pub fn standing<R: Roads>(roads: &mut R, conn: ConnId, down: bool) -> Standing
    ensures shows { (net : Net) → RoadsShow R.Roads net roads.old →
        ShowsStanding R.Roads net conn.0 down roads.new result }
    ensures plain { R.plain roads.new ≡ R.plain roads.old }
    ensures carried { R.carried roads.new ≡ R.carried roads.old }
    ensures risen { R.risen roads.new ≡ R.risen roads.old }
    ensures faults { R.faults roads.old ≤ R.faults roads.new }
{
    roads.standing(conn, down)
}
