//! The whole as plain data: nodes, replicas, members, connections, writers, readers, primaries and the office, and
//! what each event makes of them.
#![tactic(auto)]

mod events;
mod lists;

pub use events::{Caller, Delivery, Direction, Event, FoundReplica, OwnStep, TakenCommand};
pub use lists::{AnswerList, EventList, FoundList, Schedule};
pub use member_core::{BlockRef, ReadOp};
pub use writer_core::POOL;
