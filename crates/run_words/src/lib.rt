//! The words of the program's call, without the program's name: a mode, a number, the option `--folder` and the flag
//! `--loopback`.
#![tactic(auto)]

mod call;
mod command;
mod faults;
mod reading;

pub use call::{FolderText, Mode, Words};
pub use faults::{UsageRule, WordsFault};
pub use reading::read_words;
