//! Why a request is refused.

ghost use Rattle.std.specs.Prelude.{◌≡◌};
ghost use Rattle.request_refusals.specs.Texts.{request_refusal_number};

use replica_core::Refusal;
use thiserror::Error;

/// Why a DataNode refuses a request to write, to read or to recover a block. A refusal keeps what was
/// held and what was asked.
#[derive(Clone, Copy, Debug, PartialEq, Eq, Error)]
pub enum RequestRefusal {
    /// The replica refused it.
    #[error("{0}")]
    Core(Refusal),
    /// A pipeline of this stage isn't set up here.
    #[error("the stage {stage} sets up no pipeline")]
    Stage { stage: u32 },
    /// The block is of another block pool.
    #[error("the block pool is another one")]
    Pool,
    /// There is no such rule of sums, or the replica has another one.
    #[error("the sums of kind {kind} over {chunk} bytes aren't those of the replica")]
    Checksum { kind: u32, chunk: u32 },
    /// A call on the replica's files failed.
    #[error("a call on the replica's files failed")]
    File,
    /// No memory was left.
    #[error("out of memory")]
    Memory,
    /// The pipeline has too many members behind this one.
    #[error("{targets} members are too many")]
    TooMany { targets: u64 },
}

impl RequestRefusal {
    /// The refusal's number in messages, from 1 to 19.
    pub fn number(&self) -> u32
        ensures { result ≡ request_refusal_number self.now }
    {
        match self {
            RequestRefusal::Core(refusal) => refusal.number(),
            RequestRefusal::Stage { .. } => 14,
            RequestRefusal::Pool => 15,
            RequestRefusal::Checksum { .. } => 16,
            RequestRefusal::File => 17,
            RequestRefusal::Memory => 18,
            RequestRefusal::TooMany { .. } => 19,
        }
    }
}
