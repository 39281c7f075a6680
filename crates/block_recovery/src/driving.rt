//! A block recovery, waited for.

ghost use Rattle.std.specs.Prelude.{◌≡◌};
ghost use Rattle.block_recovery.specs.Driving.{ended_as, Recovers};

use crate::primary::{Primary, PrimaryStep};
use hd_base::{BlockId, Members, Roads};
use name_core::Desk;
use recovery_core::Recovered;
use std::alloc::Global;
use std::sync::Wait;

/// Recovers a block at these members, step by step, and waits where the answer of a member isn't there yet. All
/// connections are given up at the end. Where there was no memory to give one of them back to the roads, memory ran
/// out, however the last step ended.
pub fn recover<H: Wait, D: Desk, R: Roads>(
    rt: &H,
    alloc: Global,
    block: BlockId,
    members: &Members,
    office: &mut D,
    roads: &mut R,
) -> Recovered
    ensures { Recovers D.Desk R.Roads R.Inward.LinkIn R.Outward.LinkOut block members.now
        office.old office.new roads.old roads.new result }
{
    let Ok(made) = Primary::new(alloc, block, members) else {
        return Recovered::Memory;
    };
    let mut primary = made;
    'steps: for _ in rt.forever() {
        if let PrimaryStep::Ended(recovered) = primary.step(alloc, office, roads) {
            return ended_as(recovered, primary.has_lost_any());
        }
    }
    unreachable!()
}

/// How a recovery has ended whose last step ended so, by whether the end of a connection is lost.
fn ended_as(recovered: Recovered, lost: bool) -> Recovered
    ensures { result ≡ ended_as recovered lost }
{
    if lost {
        return Recovered::Memory;
    }
    recovered
}
