//! A node of a play starts again between two events: it listens on its port, and has the books of what its restart finds.
#![tactic(auto)]

mod faults;
mod laws;
mod starting;

pub use faults::StartFault;
pub use laws::dials_are_of_lives_so_far;
pub use node_restarts::{OpenFault, close_nodes, open_nodes, opened_nodes_close};
pub use starting::start_node;
pub use world_breaks::{refused_writes_leave_replicas_whole, replicas_are_unbroken_without_faults};
