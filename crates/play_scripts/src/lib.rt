//! What a play takes of its script: its head, its blocks, and lines that fit.
#![tactic(auto)]

mod blocks;
mod heads;
mod laws;
mod unplayed;

pub use blocks::blocks_of;
pub use heads::{Head, head_of};
pub use laws::{
    ascending_lines_differ, played_lines_are_told, plays_ask_by_number, plays_recover_by_number,
    scripts_fit, storms_fit,
};
pub use node_opening::{
    NodeBooks, Nodes, OpenFault, Upper, close_nodes, fitting_books_are_of_blocks,
    opened_nodes_stand, shown_nodes_fit, standing_nodes_close,
};
pub use play_laws::{only_nodes_run, takers_are_open};
pub use unplayed::first_unplayed;
