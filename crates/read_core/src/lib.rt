//! Reads at the visible length as plain data: the serving of a read, one packet an event, and the reading client.
//! No links and no files.
#![tactic(auto)]

mod laws;
mod reading;
mod serving;

pub use laws::{reads_stay_visible, verified_reads_are_whole};
pub use reading::{FromNode, ReadFault, ReadPhase, ReadTurn, Reading};
pub use serving::{MOST_BYTES, ServePhase, Serving, read_event, refusal_response};
