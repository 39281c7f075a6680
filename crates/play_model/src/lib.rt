//! What a play of a script is: which events are due, how one is drawn, and what each line does.
#![tactic(auto)]

mod asks;
mod dues;
mod laws;
mod recoveries;

pub use asks::ReadAsk;
pub use dues::Due;
pub use laws::{drawn_events_are_enabled, listed_dues_are_due, plays_have_one_end};
pub use recoveries::Recovery;
pub use world_laws::{
    enabled_events_are_tested, indices_are_in_range, only_dialled_connections_carry,
    replicas_have_their_bytes, runs_join,
};
