//! What the events of primaries make of a world and of the roads' connections.
#![tactic(auto)]

mod laws;

pub use laws::{
    all_dials_are_nets, all_dials_make_ends, primaries_ask, primaries_begin, primaries_dial,
    primaries_have_distinct_connections, primaries_hear, primaries_send, primaries_step,
};
