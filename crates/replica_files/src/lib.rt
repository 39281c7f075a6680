//! One replica's core, its two files and its history, as one value: the replica's book.
#![tactic(auto)]

mod book;
mod book_state;
mod creating;
mod cutting;
mod faults;
mod finding;
mod growing;
mod held;
mod laws;
mod reading;
mod settling;
mod summing;

pub use book::ReplicaBook;
pub use faults::{BookFault, FoundFault, SumFault};
pub use held::Held;
pub use laws::{acked_bytes_stay, histories_determine_files};
