//! Which things are due in a play, counted and picked by number, without building the list of them; and of which
//! connections nothing will ever be due, so that only the others are asked.
#![tactic(auto)]

mod conns;
mod drawing;
mod listing;
mod live;
mod lowers;
mod own;
mod places;
mod primaries;
mod readers;
mod spending;
mod steps;
mod writers;

pub use conns::{ConnDues, dues_of, upper_takes, writer_of};
pub use drawing::{draw_due, plays_are_drawn};
pub use listing::{count_dues, dues_are_listed, is_due, pick_dues};
pub use live::{LiveConns, live_connections_are_covered};
pub use own::{count_own, own_steps_are_told, pick_own};
pub use places::{client_of, has_own};
pub use play_clients::{
    Client, ClientFault, First, Owned, Said, clients_stay, hearing_keeps_others,
    own_steps_keep_others,
};
pub use play_reads::{
    Deed, Reads, ReadsFault, cuts_keep_reads, members_keep_reads, primaries_keep_nodes,
    primaries_keep_others, primaries_keep_reads, readers_keep_others, readers_take_in_order,
    reads_stay, recoveries_come_in_order, recoveries_name_one_block, starts_keep_reads,
    writers_keep_reads,
};
pub use play_recoveries::{
    Recoveries, RecoveriesFault, cuts_keep_recoveries, members_keep_recoveries, none_is_ready,
    primary_of, readers_keep_recoveries, recoveries_stay, starts_keep_recoveries,
    writers_keep_recoveries,
};
pub use primaries::{acts, count_primaries, pick_primary, primaries_are_told, primary_client_of};
pub use readers::{begins, count_readers, pick_reader, read_client_of, readers_are_told};
pub use spending::{is_spent, spent_connections_stay};
pub use writers::can_up;
