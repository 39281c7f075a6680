//! The turns of a member of a pipeline over its book and its two connections: each is a call on the book, and then what
//! the book took is sent.
#![tactic(auto)]

mod acting;
mod turning;

pub use acting::{SpelledTurn, act, upward_text};
pub use block_receiver::{BookFault, ReplicaBook};
pub use turning::{Done, send_alone};
