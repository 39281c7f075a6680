//! Closes in the world, and the headline. Each function has an empty body; its clause says what holds after every list
//! of events.
#![tactic(auto)]

ghost use Rattle.std.specs.Prelude.{◌≤◌};
ghost use Rattle.world.specs.Worlds.{start};
ghost use Rattle.world.specs.Events.{run};
ghost use Rattle.world.specs.Safe.{Closed, Safe};
ghost use Rattle.world_closings.specs.Answering.{AllClose};
ghost use Rattle.world_closings.specs.Safety.{AllSafe};

use world::Schedule;

/// From the good ack of the last packet on, and from the answer to the recovery of a close on, all members of a
/// writer's pipeline have closed; once the office has answered it has closed the block.
pub fn members_have_closed()
    ensures { AllClose }
{}

/// Part Closed of the headline: where the last event answered a close, the replica of each member that runs and isn't
/// broken is FINALIZED under the stamp of the answer, with all that the writer has written, of the answered length.
pub fn closed_law(schedule: &Schedule)
    requires low { 1 ≤ schedule.now.nodes }
    requires high { schedule.now.nodes ≤ 16 }
    ensures { Closed (run (start schedule.now.nodes) schedule.now.events) }
{}

/// The headline: whatever happens, replicas hold fronts of what was written, answered bytes stay, FINALIZED replicas
/// agree, and a close that was answered has closed its members. The four parts of `Safe` hold together after every list
/// of events.
pub fn safe_law(schedule: &Schedule)
    requires low { 1 ≤ schedule.now.nodes }
    requires high { schedule.now.nodes ≤ 16 }
    ensures { Safe (run (start schedule.now.nodes) schedule.now.events) }
{}

/// The headline as a law: it holds after every list of events of at most 16 nodes.
pub fn worlds_are_safe()
    ensures { AllSafe }
{}
