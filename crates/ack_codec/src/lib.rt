//! Acks, responses and read statuses of the HDFS data transfer protocol, version 28: each is the
//! length of a message as a varint, and the message.
#![tactic(auto)]

mod acks;
mod decoding;
mod encoding;
mod faults;
mod reading;
mod replies;
mod response_reading;
mod response_writing;
mod responses;
mod tallies;
mod texts;

pub use acks::Ack;
pub use decoding::{decode_ack, decode_read_status, decode_response};
pub use encoding::encode_ack;
pub use faults::{AckFault, ResponseFault};
pub use replies::{MAX_REPLIES, Replies};
pub use response_writing::encode_response;
pub use responses::Response;
pub use texts::{AckBytes, MAX_ACK_SIZE};
