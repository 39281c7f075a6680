//! Block recovery as plain data: a member's answers to the steps of a recovery, and the machine of the primary, which
//! asks the members, chooses among their replicas, has the chosen ones updated, and commits. No links and no files.
#![tactic(auto)]

mod laws;
mod members;
mod primary;
mod standings;

pub use laws::{only_chosen_are_updated, the_chosen_are_committed};
pub use members::{RecoveryReply, recovery_answer, recovery_event, reply_to};
pub use primary::{OwnStep, Phase, Primary, Recovered, is_among, office_refused};
pub use standings::{Heard, Standing};
