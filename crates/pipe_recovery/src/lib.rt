//! The setup of a pipeline by the client that writes a block, run over its connection, the name office and the roads.
#![tactic(auto)]

mod acting;
mod asking;
mod dialling;
mod driving;
mod exchanging;
mod hearing;
mod links;
mod naming;
mod rebuilding;
mod reporting;

pub use acting::Acted;
pub use dialling::Opened;
pub use driving::rebuild;
pub use hearing::{Answer, Heard, Looked};
pub use link_messages::{Incoming, Next};
pub use links::Link;
pub use member_core::MAX_PORT;
pub use rebuilding::{Rebuild, RebuildStep, Rebuilt};
