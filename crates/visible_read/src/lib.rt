//! Reads at the visible length over a book and links: the serving of a read, one packet a step, and the reading client.
#![tactic(auto)]

mod answering;
mod asking;
mod driving;
mod hearing;
mod laws;
mod packets;
mod reading;
mod reading_back;
mod sending;
mod serving;
mod talking;

pub use answering::{Course, Served, Took};
pub use asking::fits_request;
pub use driving::serve_read;
pub use laws::packets_follow_the_read;
pub use reading::Reading;
pub use reading_back::read_back;
pub use sending::Sending;
pub use serving::Serving;
pub use talking::{ReadFault, ReadStep};
