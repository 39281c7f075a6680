//! The events of nodes that serve reads in a play: each takes the lower end of a connection, and the book of its replica,
//! that show a world, on roads that show it, to what shows the world after the event.
#![tactic(auto)]

mod ends;
mod faults;
mod laws;
mod packets;
mod requests;
mod steps;

pub use ends::serve_down;
pub use faults::ServeFault;
pub use laws::{ends_make, packets_make, reads_send, requests_make};
pub use packets::serve_packet;
pub use requests::serve_request;
pub use steps::{Outcome, ServedRead};
