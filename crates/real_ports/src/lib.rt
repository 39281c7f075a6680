//! The ports to the system: a node's files in a folder, and the standard streams. They show nothing of what they hold:
//! what is proved of them is that each error comes only where its count of faults rose, or for want of memory.
#![tactic(auto)]

mod drawers;
mod paths;
mod shelves;
mod streams;
mod walks;

pub use drawers::FolderDrawer;
pub use shelves::FolderShelf;
pub use streams::{StdSink, StdSource};
