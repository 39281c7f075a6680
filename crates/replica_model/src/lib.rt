//! A replica beside its bytes: what each event makes of both, the history of a replica and its replay, the
//! calls on files that each event takes, and what a restart may find.
#![tactic(auto)]

mod events;
mod histories;
mod laws;
mod plans;

pub use events::{ReplicaEvent, bad_chunk, first_len, packet_event};
pub use histories::{Entry, History, Start};
pub use laws::{plans_follow_rows, rows_keep_bytes};
pub use plans::{folder_of, has_sums, meta_len, sum_place};
