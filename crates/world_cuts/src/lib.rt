//! A connection is cut: of the messages on their way so many still arrive, and then the end. What roads and ends show of
//! that is what two losses of the world say.
#![tactic(auto)]

mod laws;

pub use laws::{cuts_are_losses, cuts_show, ends_stay_in_cuts};
pub use world_nets::{ends_elsewhere_stay, idle_flushes_are_nets, losses_are_nets, nets_stay_sane};
