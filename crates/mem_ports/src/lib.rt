//! Sources, sinks, shelves and roads in memory. Each shows what it holds, and fails at the calls
//! whose numbers it was made with.
#![tactic(auto)]

mod copies;
mod dials;
mod drawers;
mod duplexes;
mod entries;
mod inward;
mod listings;
mod outward;
mod queues;
mod roads;
mod schedules;
mod shelves;
mod sinks;
mod slots;
mod sources;
mod tables;
mod trace;

pub use drawers::MemDrawer;
pub use inward::MemIn;
pub use outward::MemOut;
pub use roads::MemRoads;
pub use shelves::MemShelf;
pub use sinks::MemSink;
pub use sources::MemSource;
