//! What the report of a storm comes to, and its text.
#![tactic(auto)]

mod kinds;
mod printing;
mod summaries;

pub use kinds::Kind;
pub use printing::print_summary;
pub use summaries::{Summary, summarize};
