//! The state machine of one replica, over lengths: how it is set up, written, acked, read and
//! recovered, what each event is answered, and what it leaves. Which bytes a replica holds is no
//! matter here.
#![tactic(auto)]

mod ack_queue;
mod events;
mod extents;
mod info;
mod laws;
mod records;
mod refusals;
mod replica;
mod streams;

pub use ack_queue::{MAX_PENDING, PendingPacket};
pub use events::{Answer, Event};
pub use info::ReplicaInfo;
pub use laws::{
    acked_is_written, one_connection_writes, packets_leave_no_gap, readers_see_the_visible,
    updates_never_lengthen,
};
pub use refusals::{PieceRule, Refusal};
pub use replica::Replica;
