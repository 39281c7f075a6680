//! The start of a play: its player, with the nodes opened, a new client for each block, an office that knows no block,
//! and no events.
#![tactic(auto)]

mod clients;
mod opening;

pub use opening::open_player;
pub use play::{
    LiveConns, PlayFault, Player, Said, client_of, cuts_are_losses, dials_are_of_lives_so_far,
    draw_due, dues_are_listed, is_due, live_connections_are_covered, plays_are_drawn, plays_lower,
    worlds_are_lawful,
};
