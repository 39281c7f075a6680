//! The calls on a replica's files that its events take, made on any files: growth by a packet, what a
//! recovery or an ack settles, a new replica's files, and the sum of a last chunk that is read.
#![tactic(auto)]

mod creating;
mod growth;
mod laws;
mod names;
mod reading;
mod rooms;
mod settling;
mod steps;
mod writing;

pub use creating::create;
pub use growth::{GrownSums, grown_sums};
pub use laws::{calls_follow_plans, calls_have_room, strays_are_removed};
pub use names::FileNames;
pub use reading::sum_to;
pub use rooms::secure;
pub use settling::settle;
pub use writing::grow;
