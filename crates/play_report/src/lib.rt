//! The report of a play: what the replicas, the answers to the commands and the results of the reads and recoveries were in the end,
//! and whether the replicas are as a script expects them.
#![tactic(auto)]

mod answers;
mod appending;
mod expecting;
mod faults;
mod laws;
mod reads;
mod recoveries;
mod replicas;
mod report;
mod results;
mod rows;
mod running;

pub use expecting::{Difference, Expected, first_difference};
pub use faults::ReportFault;
pub use laws::{reports_are_true, reports_keep_nodes};
pub use play_primaries::nets_carry;
pub use play_scripts::{
    Head, Nodes, OpenFault, blocks_of, close_nodes, first_unplayed, fitting_books_are_of_blocks,
    head_of, only_nodes_run, opened_nodes_stand, played_lines_are_told, plays_ask_by_number,
    plays_recover_by_number, scripts_fit, shown_nodes_fit, standing_nodes_close, storms_fit,
};
pub use report::{report_lines, report_text};
