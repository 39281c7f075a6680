//! Block recovery over links: what a member answers to its steps, over its book and its connection, and the primary,
//! which runs it over its connections to the members, the name office and the roads.
#![tactic(auto)]

mod actions;
mod awaiting;
mod beginning;
mod dialling;
mod driving;
mod exchanging;
mod failing;
mod foretelling;
mod hearing;
mod links;
mod members;
mod primary;
mod requests;
mod serving;
mod taking;
mod telling;

pub use driving::recover;
pub use link_messages::Incoming;
pub use links::{Link, Seat};
pub use members::MemberHeard;
pub use primary::{Primary, PrimaryStep};
pub use replica_files::ReplicaBook;
pub use serving::{RecoveryServed, answer_recovery};
pub use taking::{RecoveryCame, next_recovery};
pub use telling::{RecoveryTold, serve_recovery};
