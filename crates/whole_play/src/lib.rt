//! The whole play of a script: it is opened, its lines are played, its report is made, and what was opened is closed.
#![tactic(auto)]

mod faults;
mod laws;
mod opening;
mod playing;

pub use completing_lines::{plays_are_safe, plays_complete};
pub use faults::RunFault;
pub use laws::new_roads_are_unused;
pub use play_report::{
    Expected, first_unplayed, played_lines_are_told, report_text, scripts_fit, storms_fit,
};
pub use playing::{Played, play_script};
