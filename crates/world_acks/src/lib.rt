//! What answers to setups and acks say of the replicas below them. Each function has an empty body; its clause says
//! what holds after every list of events.
#![tactic(auto)]

ghost use Rattle.world_acks.specs.Acking.{AllAcked};
ghost use Rattle.world_acks.specs.Closing.{StaysClosed};
ghost use Rattle.world_acks.specs.Waiting.{AllWaiting};

/// A member that passes up the answer SUCCESS to a setup, or an ack without a bad reply, has accepted that setup, and
/// so has every member below it; each shows what the request or the packet asks for, as long as it runs in that life
/// and its replica isn't broken, as far as later recoveries left it. Where that was the last packet or the recovery of
/// a close, each has closed.
pub fn acks_tell_of_all_below()
    ensures { AllAcked }
{}

/// A replica that is FINALIZED under a stamp stays so whatever happens, over file faults, stops and restarts, until a
/// later stamp is given for its block, unless the recovery of an append under just that stamp waited for its node.
pub fn closed_replicas_stay()
    ensures { StaysClosed }
{}

/// Of the write requests under one stamp at most one waits to be taken, and none was sent under the stamp of a setup
/// that a writer is to dial.
pub fn one_request_waits()
    ensures { AllWaiting }
{}

pub use world_recoveries::recoveries_fit;
