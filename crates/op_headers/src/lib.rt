//! Requests of the HDFS data transfer protocol, version 28, and the messages of block recovery.
#![tactic(auto)]

mod answers;
mod blocks;
mod decoding;
mod encoding;
mod faults;
mod headers;
mod messages;
mod nodes;
mod op_reading;
mod op_writing;
mod opcodes;
mod ops;
mod paths;
mod stages;

pub use answers::{RecoveryAnswer, decode_answer, encode_answer};
pub use blocks::BlockRef;
pub use decoding::decode_op;
pub use encoding::encode_op;
pub use faults::{AnswerFault, OpFault};
pub use nodes::{NodeRef, Targets};
pub use ops::{ChecksumOp, Op, ReadOp, RecoveryKind, RecoveryOp, TransferOp, WriteOp};
pub use stages::Stage;
