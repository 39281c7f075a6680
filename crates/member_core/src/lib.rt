//! A member of a write pipeline as plain data: what it books and sends for its request, for each packet, for
//! each ack from its mirror and by itself, and what follows where the book refused. No links and no files.
#![tactic(auto)]

mod acks;
mod effects;
mod inputs;
mod laws;
mod member;
mod requests;
mod turns;

pub use ack_codec::{Ack, AckBytes, MAX_REPLIES, Replies, Response, encode_ack, encode_response};
pub use effects::{Effect, SetupAnswer, Shuts, Upward};
pub use hd_base::{BlockId, ByteList, ConnId, Members, NodeId, ReplicaState, Stamp, SumRule};
pub use inputs::{FromAbove, FromBelow};
pub use laws::{refused_is_silent, success_is_booked};
pub use member::{Member, Mirror};
pub use op_headers::{BlockRef, ReadOp, WriteOp};
pub use replica_core::Refusal;
pub use replica_model::ReplicaEvent;
pub use request_refusals::RequestRefusal;
pub use requests::{MAX_BELOW, MAX_PORT, SetupKind, mirror_request, request_event, response};
pub use turns::{Booked, Side, Turn};
