//! Whole reads and writes: a source is read to its end, and a whole text is written to a sink.
#![tactic(auto)]

mod streams;

pub use streams::{ReadFault, WriteFault, read_to_end, write_all};
