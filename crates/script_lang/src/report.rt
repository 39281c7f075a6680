//! What the lines of a report tell.

use hd_base::{BlockId, ByteList, Members, NodeId, ReplicaState, Stamp};

/// One line of a report.
#[derive(Debug, PartialEq, Eq, Drop)]
pub enum ReportLine {
    /// A replica on a running node, with the CRC32C of all its written bytes; a broken one has no sum.
    Replica {
        node: NodeId,
        block: BlockId,
        state: ReplicaState,
        stamp: Stamp,
        written: u64,
        acked: u64,
        sum: Option<u32>,
    },
    /// A stopped node.
    Down {
        node: NodeId,
    },
    /// How a client command was answered; its ordinal counts the block's client commands from 0.
    Answer {
        block: BlockId,
        ordinal: u64,
        answer: Answer,
    },
    /// What the `read` line with this number gave.
    Read {
        line: u64,
        result: ReadResult,
    },
    /// What the `recover` line with this number gave.
    Recovery {
        line: u64,
        result: RecoveryResult,
    },
    /// The end of the report.
    End,
}

/// The answer to a client command.
#[derive(Debug, PartialEq, Eq, Drop)]
pub enum Answer {
    Create(SetupResult),
    Append(SetupResult),
    Hflush(FlushResult),
    Hsync(FlushResult),
    Close(FlushResult),
}

/// How a block was created or opened again.
#[derive(Clone, Copy, Debug, PartialEq, Eq)]
pub enum SetupResult {
    /// Under this stamp, which the office committed.
    Ok { stamp: Stamp },
    /// It wasn't.
    Failed(Failure),
}

/// How a block was flushed or closed.
#[derive(Debug, PartialEq, Eq, Drop)]
pub enum FlushResult {
    /// With so many bytes, under this stamp, at these members.
    Ok {
        length: u64,
        stamp: Stamp,
        members: Members,
    },
    /// It wasn't.
    Failed(Failure),
}

/// Why a client command failed.
#[derive(Clone, Copy, Debug, PartialEq, Eq)]
pub enum Failure {
    /// The block was abandoned: this member couldn't be reached.
    Abandoned { node: NodeId },
    /// No member is left; this one was the last.
    AllBad { node: NodeId },
    /// A block recovery with this id took the block away.
    Lost { recovery: Stamp },
    /// The office refused it.
    Refused(OfficeRefusal),
    /// It was never answered.
    Waiting,
}

/// Why the name office refuses a call.
#[derive(Clone, Copy, Debug, PartialEq, Eq)]
pub enum OfficeRefusal {
    /// The block is known already.
    Known,
    /// The block isn't known.
    Unknown,
    /// The block isn't open.
    NotOpen,
    /// The block isn't closed.
    NotClosed,
    /// A block recovery began.
    LeaseLost,
    /// The stamp is older than the committed one.
    OldStamp,
    /// The recovery isn't the latest.
    OldRecovery,
    /// The block is too long to be opened again.
    TooLong,
    /// Memory ran out.
    Memory,
}

/// What a reading client got.
#[derive(Debug, PartialEq, Eq, Drop)]
pub enum ReadResult {
    /// The bytes that it asked for, with this CRC32C.
    Ok { sum: u32 },
    /// The member's message with which it refused, as it came.
    Refused { text: ByteList },
    /// The bytes of this chunk don't have the sum that came with them.
    BadSum { chunk: u64 },
    /// What came can't be read.
    Malformed,
    /// The connection ended.
    Ended,
}

/// What a block recovery came to.
#[derive(Debug, PartialEq, Eq, Drop)]
pub enum RecoveryResult {
    /// The block has so many bytes under this id, at these members.
    Ok {
        id: Stamp,
        length: u64,
        members: Members,
    },
    /// No replica is left to recover.
    Nothing,
    /// Two finalized replicas have these lengths.
    Unequal {
        first: u64,
        second: u64,
    },
    /// No member was updated.
    NoneUpdated,
    /// The office refused it.
    Refused(OfficeRefusal),
    /// The primary was stopped, or its node was down.
    Ended,
}
