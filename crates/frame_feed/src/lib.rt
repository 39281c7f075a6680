//! Messages from a stream of bytes, however it is cut into pieces.
#![tactic(auto)]

mod buffer;
mod faults;
mod feed;
mod framing;
mod kinds;
mod laws;
mod notes;
mod packet_frames;

pub use faults::FeedFault;
pub use feed::Feed;
pub use laws::pieces_do_not_matter;
pub use notes::{Message, Note, NoteList, Notes, SentList, Took};
pub use packet_frames::PacketFrame;
