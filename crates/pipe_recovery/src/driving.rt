//! The setup of a pipeline, waited for.

ghost use Rattle.std.specs.Prelude.{◌≡◌, true, false};
ghost use Rattle.writer_core.specs.Transitions.{wants_pipeline};
ghost use Rattle.pipe_recovery.specs.Driving.{Rebuilds};

use crate::rebuilding::{Rebuild, RebuildStep, Rebuilt};
use hd_base::Roads;
use name_core::Desk;
use std::alloc::Global;
use std::sync::Wait;
use writer_core::Writer;

/// Sets up the pipeline that a writer wants, step by step, and waits where the answer to its request isn't there yet.
/// After `Memory` the writer is as after the last action that was done, and a connection that it had is given up.
pub fn rebuild<H: Wait, D: Desk, R: Roads>(
    rt: &H,
    alloc: Global,
    writer: &mut Writer,
    office: &mut D,
    roads: &mut R,
) -> Rebuilt<R::Inward, R::Outward>
    requires { wants_pipeline writer.old.phase ≡ true }
    ensures { Rebuilds D.Desk R.Roads R.Inward.LinkIn R.Outward.LinkOut writer.old writer.new
        office.old office.new roads.old roads.new result }
{
    let mut setup = Rebuild::new();
    'steps: for _ in rt.forever() {
        if let RebuildStep::Ended(rebuilt) = setup.step(alloc, writer, office, roads) {
            let _lost = setup.give_up(alloc, roads);
            return rebuilt;
        }
    }
    unreachable!()
}
