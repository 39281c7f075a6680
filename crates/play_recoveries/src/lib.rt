//! The recoveries of a play: the primaries of its lines, and the lower ends of the connections that these dialled. Each
//! event takes recoveries and nodes that show a world, on roads that show it, to what shows the world after the event.
//! Which events are due there is told.
#![tactic(auto)]

mod dues;
mod faults;
mod frames;
mod hearing;
mod joining;
mod others;
mod owning;
mod places;
mod recoveries;
mod serving;
mod stopping;

pub use dues::{Dialler, primary_of};
pub use faults::RecoveriesFault;
pub use frames::{
    cuts_keep_recoveries, none_is_ready, recoveries_stay, requests_stay, starts_keep_recoveries,
};
pub use others::{members_keep_recoveries, readers_keep_recoveries, writers_keep_recoveries};
pub use recoveries::Recoveries;
