//! The setup of a member of a pipeline: its write request is booked, and goes on to its mirror.
#![tactic(auto)]

mod answers;
mod laws;
mod reaching;
mod refusals;
mod requests;
mod setups;

pub use answers::setup_above;
pub use laws::answers_follow_the_member;
pub use member_core::{
    Ack, Effect, FromAbove, FromBelow, MAX_PORT, Member, RequestRefusal, Response, Shuts,
    request_event,
};
pub use refusals::SetupRefusal;
pub use replica_files::ReplicaBook;
pub use setups::{Setup, go_on, setup_local};
