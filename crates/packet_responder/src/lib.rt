//! Acks at a member of a pipeline: what comes from its mirror, or what is due without it, is booked, and then its ack goes
//! up.
#![tactic(auto)]

mod acks;
mod answers;
mod laws;
mod replies;
mod sendings;
mod turns;

pub use acks::{FromBelow, take_ack};
pub use laws::acks_follow_the_member;
pub use replica_core::{Event, Refusal};
pub use sendings::{Sending, book_and_send, book_event, sending_as};
pub use turns::{Passed, take_turn};
