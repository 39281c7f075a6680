//! The nodes of a play: the lower ends of its connections, and the books of its replicas. Each event takes nodes that show
//! a world, on roads that show it, to nodes that show the world after the event. Which events are due there is told.
//! The lower ends of connections that readers and primaries dialled are kept elsewhere, with these books.
#![tactic(auto)]

mod beginning;
mod connections;
mod dialling;
mod dues;
mod events;
mod faults;
mod frames;
mod nodes;
mod refusing;

pub use connections::{Connection, Lower, Upper};
pub use faults::NodesFault;
pub use frames::{
    nodes_ends_stay, nodes_follow, nodes_keep_elsewhere, nodes_keep_writers, nodes_stay,
    upper_ends_stay, writers_keep_elsewhere, writers_keep_nodes,
};
pub use member_events::{ReplicaBook, starts_are_nets};
pub use nodes::{NodeBooks, Nodes};
pub use play_model::ReadAsk;
pub use world_requests::requests_are_among;
