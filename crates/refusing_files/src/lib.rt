//! Files that can be made to refuse the writes on data files.
#![tactic(auto)]

mod refusing;

pub use refusing::Refusing;
