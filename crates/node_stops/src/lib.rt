//! A node of a play stops between two events: nothing further arrives on its connections, and the ends that it had are
//! brought back, but for those that are kept elsewhere.
#![tactic(auto)]

mod connections;
mod cutting;
mod ending;
mod stopping;

pub use play_nodes::{
    Nodes, NodesFault, nodes_ends_stay, nodes_keep_writers, nodes_stay, requests_are_among,
    writers_keep_nodes,
};
pub use stopping::stop_node;
pub use world_stops::{cuts_are_losses, cuts_show, dials_have_origins, ends_stay_in_cuts};
