//! Shelves of a kind of which it is known whether they tell their files.
#![tactic(auto)]

mod laws;
mod told;

pub use laws::told_shelves_tell;
pub use told::ToldShelf;
