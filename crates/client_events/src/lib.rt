//! The events of the writer of a block in a play: each takes a writer and its connection that show a world, on roads
//! that show it, to what shows the world after the event.
#![tactic(auto)]

mod acting;
mod answering;
mod committing;
mod completing;
mod faults;
mod hearing;
mod pipes;
mod sending;
mod setting_up;
mod steps;

pub use acting::{Acted, Said, act};
pub use answering::hear_answer;
pub use committing::commit;
pub use completing::complete;
pub use faults::ClientFault;
pub use hearing::hear_ack;
pub use pipe_recovery::Rebuild;
pub use pipes::Pipe;
pub use setting_up::{SetUp, set_up};
