//! What roads and the ends of connections hold and have carried, by what was sent on each connection and how much of it
//! was taken.
#![tactic(auto)]

mod ends;
mod laws;

pub use ends::{accept, listen, standing};
pub use laws::{
    brings_show, dials_show, exchanges_show, kept_show, losses_show, quiet_show, sends_show,
    shuts_show, takes_show,
};
