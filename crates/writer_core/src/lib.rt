//! The writing client of a block as a pure machine: which commands it takes, how it sets pipelines
//! up, streams packets, drops members that fail and recovers, and what it answers. It never waits,
//! and does nothing by itself: it says what is to be done, and is told what came of it.
#![tactic(auto)]

mod acks;
mod actions;
mod commands;
mod intake;
mod laws;
mod phases;
mod records;
mod requests;
mod writer;

pub use actions::{Action, ClientAnswer};
pub use commands::{Command, CommandFault};
pub use intake::{MAX_COMMANDS, MAX_GIVEN};
pub use laws::{answered_bytes_are_acked, only_the_office_commits, stamps_are_committed};
pub use phases::{Failure, Phase, Setup};
pub use requests::POOL;
pub use writer::Writer;
