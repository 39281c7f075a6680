//! The history of a replica: where it began, and the events that it met.

use crate::events::ReplicaEvent;
use bytes::Bytes;
use hd_base::{ReplicaState, Stamp, SumRule};

/// Where a history begins.
#[derive(Clone, Debug, Drop, PartialEq, Eq)]
pub enum Start {
    /// An absent replica.
    Absent,
    /// A replica that a scan found, FINALIZED or RWR, with its bytes.
    Found {
        state: ReplicaState,
        stamp: Stamp,
        sums: SumRule,
        bytes: Bytes,
    },
}

/// An event that a replica met.
#[derive(Clone, Debug, Drop, PartialEq, Eq)]
pub struct Entry {
    pub event: ReplicaEvent,
    /// Whether a call on the replica's files failed in it, which broke the replica.
    pub failed: bool,
}

/// The history of a replica: its start, and its entries, numbered by their index. Packet bodies are shared.
#[derive(Debug, Drop)]
pub struct History {
    pub start: Start,
    pub entries: Vec<Entry>,
}
