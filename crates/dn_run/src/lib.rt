//! The top call: a script is read and played over shelves and roads, and its report written.
#![tactic(auto)]

mod exits;
mod reading;
mod running;
mod standard;
mod storming;
mod tasks;

pub use exits::Exit;
pub use running::run;
pub use standard::{folder_of, folder_shelves, run_in_memory, run_over};
pub use whole_play::{Expected, new_roads_are_unused};
