//! What was answered stays readable: as a law over the world, and at one read of a replica's book.
#![tactic(auto)]

mod laws;

pub use laws::{answered_bytes_stay_readable, read_answered};
