//! What a restart finds on a node's shelf: each block's replica, the files that belong to none, and the blocks that
//! lay in the folders of layout -56.
#![tactic(auto)]

mod calls;
mod drawers;
mod faults;
mod found;
mod laws;
mod pairs;
mod pieces;
mod reading;
mod scanning;
mod settling;
mod shelves;
mod strays;

pub use faults::ScanFault;
pub use found::{Found, Seen};
pub use laws::{
    further_scans_find_the_same, restart_rule, stopped_creates_are_found,
    stopped_packets_are_found, stopped_settlings_are_found, stopped_transfers_are_found,
    temporary_replicas_are_free, two_files_are_found, whole_replicas_are_found,
};
pub use scanning::scan;
