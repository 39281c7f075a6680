//! Scripts and reports: what the player and the running nodes are told, and what is told of a run.
#![tactic(auto)]

mod arguments;
mod faults;
mod instructions;
mod laws;
mod lines;
mod names;
mod numbers;
mod printing;
mod progress;
mod reading;
mod report;
mod report_reading;
mod report_words;
mod storms;
mod words;

pub use faults::{BadKind, LineFault, ScriptError};
pub use instructions::{Instruction, Script, ScriptLine, StepEvent};
pub use laws::{script_lengths_fit, script_names_its_nodes, script_opens_before_writes};
pub use printing::print_line;
pub use reading::{MAX_SCRIPT_LINES, MAX_SCRIPT_SIZE, read_script};
pub use report::{
    Answer, Failure, FlushResult, OfficeRefusal, ReadResult, RecoveryResult, ReportLine,
    SetupResult,
};
pub use report_reading::read_line;
pub use storms::{STORM_NODES, storm_script};
