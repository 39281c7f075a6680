//! The nodes that serve reads and answer primaries in a play: the lower ends of the connections that readers and primaries
//! dial. Each event takes such an end, and the books of its node, that show a world, on roads that show it, to what shows
//! the world after the event.
#![tactic(auto)]

mod downs;
mod dues;
mod packets;
mod recoveries;
mod requests;
mod servers;

pub use dues::answers_wait;
pub use recoveries::{AnswerEnd, RecoveryServer};
pub use recovery_events::{RecoveryFault, recoveries_come_in_order, recoveries_name_one_block};
pub use servers::{ReadEnd, ReadServer, ServerEvent};
pub use serving_events::ServeFault;
pub use world_standings::{ends_elsewhere_stay, idle_flushes_are_nets, nets_stay_sane};
