//! The primaries of a play: each has what a line asks to recover, and its primary with the connections to the members.
//! Each event takes a client that shows a world, on roads that show it, to one that shows the world after the event.
#![tactic(auto)]

mod clients;
mod deeds;
mod frames;
mod hearing;
mod owning;
mod stopping;

pub use clients::{PrimaryClient, PrimaryState};
pub use deeds::Deed;
pub use frames::{
    members_keep_primaries, primaries_keep_nodes, primaries_keep_others, primary_clients_stay,
    readers_keep_primaries, writers_keep_primaries,
};
pub use play_readers::{
    ReadClient, ReadState, ReaderFault, members_keep_readers, nets_carry, read_clients_stay,
    readers_keep_nodes, readers_keep_others, readers_take_in_order, writers_keep_readers,
};
pub use primary_events::PrimaryFault;
pub use world_stops::{cuts_are_losses, ends_stay_in_cuts};
