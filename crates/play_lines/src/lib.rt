//! A play of a script: what happens next is drawn, and the lines of the script are played one after the other.
#![tactic(auto)]

mod asking;
mod befalling;
mod cutting;
mod drawing;
mod faulting;
mod lines;
mod ordering;
mod pipelines;
mod playing;
mod recovering;
mod ruling;
mod starting;
mod stepping;
mod stopping;

pub use asking::asks_are_plays;
pub use faulting::arms_are_plays;
pub use ordering::orders_are_plays;
pub use play_opening::{LiveConns, PlayFault, Said, open_player};
pub use play_scripts::OpenFault;
pub use playing::Playing;
pub use recovering::recovers_are_plays;
pub use ruling::rules_are_plays;
