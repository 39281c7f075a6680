//! What a loss of power leaves of bytes for which an hsync was answered.
#![tactic(auto)]

mod laws;

pub use laws::answers_survive;
