//! The events of a reading client in a play: each takes a reader and its connection that show a world, on roads that
//! show it, to what shows the world after the event. And what comes next to a reader, after every list of events.
#![tactic(auto)]

mod asking;
mod faults;
mod hearing;
mod laws;

pub use asking::{Asked, ask};
pub use faults::ReaderFault;
pub use hearing::{Heard, hear};
pub use laws::{readers_can_hear, readers_make, readers_send, readers_take_in_order};
pub use read_core::ReadFault;
pub use visible_read::Reading;
