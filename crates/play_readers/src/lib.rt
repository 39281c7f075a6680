//! The reading clients of a play: each has what a line asks to read, and its reader with the connection to the node.
//! Each event takes a client that shows a world, on roads that show it, to one that shows the world after the event.
#![tactic(auto)]

mod asks;
mod clients;
mod frames;
mod hearing;
mod owning;

pub use clients::{ReadClient, ReadState};
pub use frames::{
    members_keep_readers, read_clients_stay, readers_keep_nodes, readers_keep_others,
    writers_keep_readers,
};
pub use play_model::Recovery;
pub use reader_events::{ReaderFault, readers_take_in_order};
pub use world_standings::{ends_elsewhere_stay, idle_flushes_are_nets, nets_carry, nets_stay_sane};
