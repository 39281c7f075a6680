//! The turns of a member.

use crate::effects::Effect;
use crate::member::Mirror;
use replica_core::Refusal;
use replica_model::ReplicaEvent;

/// One of a member's two sides, which act each in its own order.
#[derive(Clone, Copy, Debug, PartialEq, Eq)]
pub enum Side {
    /// The one that takes from above.
    Receiver,
    /// The one that takes from the mirror and acts on pending packets.
    Responder,
}

/// What a member does in an event: a call on the replica's book, and what follows where the book took it.
#[derive(Debug, Drop)]
pub struct Turn {
    /// The side that acts.
    pub side: Side,
    /// The call on the book, `None` where nothing is booked.
    pub call: Option<ReplicaEvent>,
    /// How the mirror stands then.
    pub mirror: Mirror,
    /// What is sent and shut then.
    pub effect: Effect,
}

/// How the book took the call of a turn.
#[derive(Clone, Copy, Debug, PartialEq, Eq)]
pub enum Booked {
    /// It took it, or there was no call.
    Taken,
    /// The replica refused.
    Refused(Refusal),
    /// A call on the replica's files failed.
    Failed,
}
