//! Connections are cut, one after the other.

ghost use Rattle.std.specs.Prelude.{◌≡◌, ◌≤◌, ℕ, true, OnOk};
ghost use Rattle.hd_base.specs.Ends.{IsKnown, KeepsConnections};
ghost use Rattle.world_stops.specs.Stopping.{is_among};
ghost use Rattle.node_stops.specs.Cutting.{AllCutShows};

use fault_ports::CutRoads;
use hd_base::ConnId;
use std::alloc::AllocError;
use world_stops::cuts_show;

/// Cuts these connections, so that nothing further arrives on them.
pub(crate) fn cut_all<R: CutRoads>(roads: &mut R, conns: &[ConnId]) -> Result<(), AllocError>
    requires { (c : ℕ) → is_among conns.now c ≡ true → IsKnown (R.plain roads.old) c }
    ensures shows { OnOk result (AllCutShows R.Roads conns.now roads.old roads.new) }
    ensures connections { KeepsConnections (R.plain roads.old) (R.plain roads.new) }
    ensures faults { R.faults roads.old ≤ R.faults roads.new }
{
    cuts_show::<R>();
    for conn in conns {
        roads.cut(*conn, 0, 0)?;
    }
    Ok(())
}
