//! Fields of Protocol Buffers messages, read and written exactly.

#![tactic(auto)]

mod frames;
mod listing;
mod messages;
mod reading;
mod varints;
mod writing;

pub use frames::{FrameFault, MAX_MESSAGE_SIZE, read_frame};
pub use listing::{Fields, FieldsFault, LastValues, last_values};
pub use messages::{fields, merged, part_under, text_at};
pub use reading::{Wire, WireFault, WireType, next_field};
pub use varints::{VarintFault, read_varint};
pub use writing::{
    MAX_FIELD_NUMBER, cut_back, is_field_number, put_bytes, put_fixed32, put_fixed64, put_number,
    put_varint,
};
