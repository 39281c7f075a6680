//! The name office, which stands for the NameNode: for each block, whether it is open, its committed
//! stamp, members, length and latest recovery. It gives all stamps, each once. And the choice of a
//! block recovery: which replicas it keeps, and at which length.
#![tactic(auto)]

mod book;
mod calls;
mod choice;
mod desks;
mod faults;
mod infos;
mod laws;
mod office;
mod records;

pub use book::OfficeBook;
pub use calls::{Begun, OfficeAnswer, OfficeCall, Reopened};
pub use choice::{ChooseFault, Chosen, choose};
pub use desks::{Desk, SharedDesk};
pub use faults::OfficeFault;
pub use infos::{Info, Infos};
pub use laws::{chosen_length_is_held, lease_stays_lost, stamps_rise};
pub use office::{FIRST_STAMP, Office};
pub use records::MAX_APPEND_LENGTH;
