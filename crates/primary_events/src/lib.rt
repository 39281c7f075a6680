//! The events of a primary in a play: each takes a primary of a block recovery and its connections that show a world,
//! on roads that show it, to what shows the world after the event.
#![tactic(auto)]

mod beginning;
mod faults;
mod hearing;
mod laws;
mod leading;
mod updating;

pub use beginning::{PrimaryBegun, begin};
pub use block_recovery::{Primary, PrimaryStep};
pub use faults::PrimaryFault;
pub use hearing::hear;
pub use laws::{primaries_can_hear, primaries_can_lead};
pub use leading::lead;
