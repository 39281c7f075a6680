//! The reads of a play: the reading clients of its lines, and the lower ends of the connections that these dialled.
//! Each event takes reads and nodes that show a world, on roads that show it, to what shows the world after the event.
//! Which events are due there is told.
#![tactic(auto)]

mod dues;
mod faults;
mod frames;
mod hearing;
mod joining;
mod owning;
mod places;
mod reads;
mod serving;
mod stopping;

pub use dues::reader_of;
pub use faults::ReadsFault;
pub use frames::{
    cuts_keep_reads, members_keep_reads, primaries_keep_reads, reads_stay, starts_keep_reads,
    writers_keep_reads,
};
pub use play_nodes::{Lower, Nodes, Upper};
pub use play_primaries::{
    Deed, PrimaryClient, ReadClient, primaries_keep_nodes, primaries_keep_others,
    readers_keep_others, readers_take_in_order,
};
pub use play_servers::{recoveries_come_in_order, recoveries_name_one_block};
pub use reads::Reads;
