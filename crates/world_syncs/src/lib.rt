//! An hsync's answer is tied to what the members did: each took a packet with sync in this life, and has kept its bytes
//! since. Each function has an empty body; its clause says what holds after every list of events.
#![tactic(auto)]

ghost use Rattle.std.specs.Prelude.{◌≤◌};
ghost use Rattle.hd_base.specs.declared.roads.TheConstants.{MAX_NODES};
ghost use Rattle.world_syncs.specs.Replaying.{AllPlain, AllReplayed};
ghost use Rattle.world_syncs.specs.Syncing.{AllTaken};

use world::Schedule;

/// A node's replica of a block is what the events of the node's present life made of what it was when that began.
pub fn replicas_are_replayed()
    ensures { AllReplayed }
{}

/// No replica of a history is TEMPORARY: neither that with which the life of its node began, nor what an event since
/// then made of it.
pub fn histories_are_plain()
    ensures { AllPlain }
{}

/// Each member that an answer to an hsync names, where it is steady since the stamp of the answer, took a packet with
/// sync among the events of this life, and since then its replica has at least the answered bytes.
pub fn hsyncs_were_taken(schedule: &Schedule)
    requires few { schedule.now.nodes ≤ MAX_NODES }
    ensures { AllTaken schedule.now.nodes schedule.now.events }
{}
