//! The types and traits through which the product meets the outside: sources and sinks, files in
//! shelves and drawers, links and roads. Each trait shows what it means where the implementation
//! can show it, and counts its own faults, so that every error that a caller sees has its cause.
#![tactic(auto)]

mod byte_list;
mod ends;
mod file_name;
mod files;
mod links;
mod numbers;
mod pipeline;
mod roads;
mod shelves;
mod states;
mod streams;
mod sum_rule;

pub use byte_list::ByteList;
pub use ends::{Conn, RoadError, Standing};
pub use file_name::{FileName, MAX_NAME_LENGTH, base, least_decimal};
pub use files::{FileError, Files};
pub use links::{Got, LinkError, LinkIn, LinkOut};
pub use numbers::{BlockId, ConnId, NodeId, Receipt, Stamp};
pub use pipeline::{MAX_MEMBERS, Members};
pub use roads::{FIRST_PORT, MAX_NODES, Roads};
pub use shelves::Shelf;
pub use states::{ReplicaState, Status};
pub use streams::{Failed, Sink, Source};
pub use sum_rule::{DEFAULT_CHUNK_SIZE, MAX_CHUNK_SIZE, MIN_CHUNK_SIZE, SumKind, SumRule};
