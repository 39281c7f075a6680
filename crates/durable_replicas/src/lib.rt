//! What a loss of power leaves of a replica: the bytes that were synced are found by the scan of a restart.
#![tactic(auto)]

mod laws;

pub use laws::{
    hsyncs_keep_fronts, hsyncs_survive, logs_follow_events, losses_keep_chunks, losses_keep_fronts,
    packets_end_synced, scans_keep_chunks, scans_keep_fronts,
};
