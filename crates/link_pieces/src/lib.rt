//! A message goes over a link as one piece, also where the link takes less at once; and an end that is no longer used is
//! given up.
#![tactic(auto)]

mod exchanging;
mod giving_up;
mod sending;

pub use exchanging::exchange_end;
pub use giving_up::give_up;
pub use sending::{send_piece, take_room};
