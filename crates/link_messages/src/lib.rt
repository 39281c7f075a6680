//! Messages taken off the inward half of a connection, in whatever pieces its bytes come.
#![tactic(auto)]

mod incoming;
mod streamed;

pub use incoming::{Incoming, Next};
pub use streamed::Streamed;
