//! Block recoveries in the world. Each function has an empty body; its clauses say what holds after every list of
//! events.
#![tactic(auto)]

ghost use Rattle.world_laws.specs.World.Worlds.{start};
ghost use Rattle.world_laws.specs.World.Events.{run};
ghost use Rattle.world_recoveries.specs.Naming.{AllNaming, NoneStale};
ghost use Rattle.world_recoveries.specs.Recovering.{AllRecovering, OneLength, UpdatesKeepFinalized};

use world_laws::Schedule;

/// A recovery has one primary, and one length; what a member told of its replica stays true of it while that recovery
/// holds it in that life; and an UPDATE goes only to nodes that told of their replicas, with a length that fits what
/// was told.
pub fn recoveries_fit()
    ensures { AllRecovering }
{}

/// All that is ever sent as a recovery's length is one length.
pub fn recoveries_have_one_length(schedule: &Schedule)
    ensures { OneLength (run (start schedule.now.nodes) schedule.now.events) }
{}

/// An UPDATE never shortens a replica that was FINALIZED when the recovery began, and lengthens none.
pub fn updates_keep_finalized(schedule: &Schedule)
    ensures { UpdatesKeepFinalized (run (start schedule.now.nodes) schedule.now.events) }
{}

/// Nothing is committed under a recovery: below its id no later stamp than the one that it names is known to the
/// block's writer as committed, and none was answered.
pub fn recoveries_name_what_is_committed()
    ensures { AllNaming }
{}

/// No stale replica takes part in a recovery: what its members tell is of no earlier stamp than any below its id that
/// a length was answered under.
pub fn recoveries_hear_of_no_stale_replica(schedule: &Schedule)
    ensures { NoneStale (run (start schedule.now.nodes) schedule.now.events) }
{}
