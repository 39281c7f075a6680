//! The running member of a pipeline: it owns its two connections, takes what comes on them, and does the turns of the
//! member's rules over its book.
#![tactic(auto)]

mod above;
mod answers;
mod below;
mod enabled;
mod exchanging;
mod laws;
mod member;
mod predicting;
mod setting_up;
mod stages;
mod stepped;

pub use above::Above;
pub use answers::answers_are_written;
pub use below::Below;
pub use laws::{
    downs_are_steps, readies_are_steps, refusals_are_steps, resumptions_are_steps,
    setups_are_steps, turns_are_steps, ups_are_steps,
};
pub use link_messages::{Incoming, Next};
pub use member::Member;
pub use pipe_setup::{MAX_PORT, ReplicaBook};
pub use stages::{Looked, Stage, Took};
pub use stepped::Stepped;
