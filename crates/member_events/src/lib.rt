//! The events of members in a play: each takes a member whose ends and book show a world, on roads that show it, to what
//! shows the world after the event.
#![tactic(auto)]

mod beginning;
mod events;
mod faults;
mod joining;
mod steps;

pub use beginning::{FirstRequest, Requested, begin, first_request};
pub use events::{member_down, member_ready, mirror_up};
pub use faults::MemberFault;
pub use joining::{Joined, MirrorDial, join};
pub use pipe_member::{Looked, Member, ReplicaBook};
pub use steps::Downed;
pub use world_texts::starts_are_nets;
