//! A node that stops: what that makes of a world and of the roads' connections, and from which node connections were dialled.
#![tactic(auto)]

mod laws;

pub use laws::{dials_have_origins, ended_connections_stay, stops_are_cuts, stops_end_connections};
pub use world_cuts::{
    cuts_are_losses, cuts_show, ends_elsewhere_stay, ends_stay_in_cuts, idle_flushes_are_nets,
    nets_stay_sane,
};
