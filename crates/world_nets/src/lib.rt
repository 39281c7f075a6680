//! What roads show of a world: the messages of its connections as they are written, how much of them was taken, and the
//! ends.
#![tactic(auto)]

mod laws;

pub use laws::{
    all_flushes_are_rows, asks_make, changes_are_nets, changes_are_rows, closings_send,
    dials_are_nets, dials_make_ends, downs_make, ends_elsewhere_stay, ends_in_events_stay,
    ends_past_flushes_stay, events_follow, exchanges_keep_takers, flushes_are_rows,
    idle_flushes_are_nets, losses_are_nets, losses_are_rows, members_send, nets_carry,
    nets_stay_sane, over_is_kept, owns_make, readies_make, setups_dial, setups_send,
    starts_are_nets, takes_are_nets, takes_are_rows, taking_is_rows, ups_make, writers_send,
};
