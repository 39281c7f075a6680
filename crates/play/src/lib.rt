//! The player of a script: the nodes, the reads, the recoveries, the clients and the office of a play, and the events that
//! happened. Each event takes a player that shows a world, on roads that show it, to one that shows the world after the
//! event.
#![tactic(auto)]

mod befalling;
mod cutting;
mod events;
mod faults;
mod happening;
mod laws;
mod owning;
mod player;
mod reading;
mod recovering;
mod starting;
mod stopping;

pub use faults::PlayFault;
pub use laws::worlds_are_lawful;
pub use node_starts::{OpenFault, dials_are_of_lives_so_far, open_nodes};
pub use node_stops::cuts_are_losses;
pub use play_dues::{
    Client, LiveConns, Reads, Recoveries, Said, client_of, draw_due, dues_are_listed, is_due,
    live_connections_are_covered, plays_are_drawn,
};
pub use play_settling::plays_lower;
pub use player::Player;
