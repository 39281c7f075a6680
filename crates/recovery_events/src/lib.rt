//! A node's part of a block recovery in a play: the events of a lower end that answers a primary, each of which takes
//! an end and a book that show a world, on roads that show it, to what shows the world after the event; and what these
//! are in the world.
#![tactic(auto)]

mod answering;
mod ends;
mod faults;
mod laws;
mod recovering;

pub use answering::{Outcome, Recovering, recover_request};
pub use block_recovery::{Incoming, ReplicaBook};
pub use faults::RecoveryFault;
pub use laws::{
    recoveries_come_in_order, recoveries_make, recoveries_name_one_block, recoveries_send,
};
pub use member_events::{FirstRequest, MemberFault, first_request};
pub use recovering::recover_down;
