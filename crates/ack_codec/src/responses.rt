//! Responses.

use hd_base::{ByteList, Status};
use std::alloc::AllocError;

/// The answer to a request (HDFS `BlockOpResponseProto`). An empty text stands for one that isn't
/// there.
#[derive(Debug, Drop, PartialEq, Eq)]
pub struct Response {
    /// How the request was taken.
    pub status: Status,
    /// The address of the first member that could not be reached, `IP:PORT`.
    pub first_bad: ByteList,
    /// The sums of a read's answer: their kind (HDFS `ChecksumTypeProto`), how many bytes a chunk
    /// has, and where in the block they begin, in bytes.
    pub sums_from: Option<(u32, u32, u64)>,
    /// Why the request was refused.
    pub message: ByteList,
}

impl Response {
    ghost use Rattle.std.specs.Prelude.{◌≡◌, IfOk};

    /// The same response once more.
    pub fn duplicate(&self) -> Result<Response, AllocError>
        ensures { IfOk result (λ copy. copy ≡ self.now) }
    {
        Ok(Response {
            status: self.status,
            first_bad: self.first_bad.duplicate()?,
            sums_from: self.sums_from,
            message: self.message.duplicate()?,
        })
    }
}
