//! FINALIZED replicas of the world. Each function has an empty body; its clauses say what holds after every list of
//! events.
#![tactic(auto)]

ghost use Rattle.std.specs.Prelude.{◌≤◌};
ghost use Rattle.world.specs.Worlds.{start};
ghost use Rattle.world.specs.Events.{run};
ghost use Rattle.world.specs.Safe.{Agree};
ghost use Rattle.world_finals.specs.Finishing.{AllFinal, ClosedIsNewest};

use world::Schedule;

/// What is FINALIZED under a stamp has one length: all that was written in the session of a setup's stamp, or the
/// length that the primary chose under a recovery's id; and no bytes join a session that has come to its end. A block
/// is closed with such a length, a later session begins with it, and every setup of that session asks for as many.
pub fn final_lengths_are_kept()
    ensures { AllFinal }
{}

/// No stamp that was given for a closed block is above the one that is committed.
pub fn closed_blocks_have_their_newest_stamp()
    ensures { ClosedIsNewest }
{}

/// Part Agree of the headline: FINALIZED replicas of one block under one stamp have equal bytes, those of stopped
/// nodes and broken ones too.
pub fn agree_law(schedule: &Schedule)
    requires low { 1 ≤ schedule.now.nodes }
    requires high { schedule.now.nodes ≤ 16 }
    ensures { Agree (run (start schedule.now.nodes) schedule.now.events) }
{}
