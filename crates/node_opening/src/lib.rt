//! The start of a play: its nodes listen on the roads, and have the books of its blocks over files that their shelves
//! lend. And its end: the books are closed, and their files are given back.
#![tactic(auto)]

mod closing;
mod emptiness;
mod faults;
mod laws;
mod lending;
mod listening;
mod opening;

pub use closing::close_nodes;
pub use faults::OpenFault;
pub use laws::{
    fitting_books_are_of_blocks, opened_nodes_close, opened_nodes_stand, shown_nodes_fit,
    standing_nodes_close,
};
pub use opening::open_nodes;
pub use play_nodes::{NodeBooks, Nodes, Upper};
