//! Calls on files as values: lists of them made on any files, what a stop of the process or a loss
//! of power leaves of them, and that what was synced stays.
#![tactic(auto)]

mod calls;
mod durability;
mod performing;

pub use calls::FileCall;
pub use durability::synced_stays;
pub use performing::{make_call, perform};
