//! Where the two files of a block lie, and what calls on them make of that.
#![tactic(auto)]

mod laws;

pub use laws::block_calls_place_files;
