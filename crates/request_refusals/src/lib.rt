//! What the requests to a DataNode share: the block pool, the rule of sums that they name, why they are refused, and
//! the message in which an answer says so.
#![tactic(auto)]

mod pools;
mod refusals;
mod rules;
mod texts;

pub use pools::is_in_pool;
pub use refusals::RequestRefusal;
pub use rules::rule_with;
