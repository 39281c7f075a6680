//! The books of a node after a restart: the old ones are closed, the node's shelf is scanned, and books are made of
//! what was found there.
#![tactic(auto)]

mod closing;
mod faults;
mod laws;
mod lending;
mod making;
mod restarting;
mod seeking;
mod wholeness;

pub use faults::RestartFault;
pub use laws::{failed_books_are_broken, new_books_are_unbroken};
pub use node_opening::{Nodes, OpenFault, close_nodes, open_nodes, opened_nodes_close};
pub use replica_files::ReplicaBook;
pub use restarting::{give_up_books, restart_books};
pub use wholeness::have_whole_files;
