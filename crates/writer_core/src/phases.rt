//! At which point of its work the writer is.

use hd_base::{NodeId, Stamp};
use name_core::OfficeFault;

/// Why a pipeline is set up.
#[derive(Clone, Copy, Debug, PartialEq, Eq)]
pub enum Setup {
    /// For a new block.
    Create,
    /// To append to the block.
    Append,
    /// To append to the block, after a pipeline that was set up for it failed.
    AppendRecovery,
    /// To stream on, after the pipeline failed while packets were sent.
    StreamRecovery,
    /// To finalize the replicas, after the pipeline failed when the last packet was sent.
    CloseRecovery,
}

/// What is to be done when a pipeline fails.
#[derive(Clone, Copy, Debug, PartialEq, Eq)]
pub enum Remedy {
    /// The block is abandoned.
    Abandon,
    /// The member that is named is dropped, and a pipeline of the others set up so.
    Recover(Setup),
}

/// Why the writer does nothing until it is to append.
#[derive(Clone, Copy, Debug, PartialEq, Eq)]
pub enum Failure {
    /// The setup of the new block failed, for this member.
    Abandoned { member: NodeId },
    /// Every member was dropped, this one last.
    AllBad { member: NodeId },
    /// A block recovery has taken the lease.
    Lost { recovery: Stamp },
    /// The office refused.
    Refused(OfficeFault),
}

/// At which point of its work the writer is.
#[derive(Clone, Copy, Debug, PartialEq, Eq)]
pub enum Phase {
    /// No pipeline stands and none is wanted: nothing was opened yet, or the last close is answered.
    Closed,
    /// A pipeline is wanted: the office is to be asked for its stamp.
    Wanted { setup: Setup },
    /// The office gave the stamp: the first member is to be dialled.
    Stamped { setup: Setup, stamp: Stamp },
    /// The request was sent, and its answer wasn't taken yet.
    Requested { setup: Setup, stamp: Stamp },
    /// The request was answered SUCCESS: the stamp is to be committed, or, for a new block, the create
    /// to be answered.
    Accepted { setup: Setup, stamp: Stamp },
    /// The stamp of an append is committed: the append is to be answered.
    Opened,
    /// Packets are sent. So many of those that aren't acked were sent on this connection.
    Streaming { sent: usize },
    /// The last packet was sent, and isn't acked yet.
    Closing,
    /// The last packet is acked, or the recovery of a close committed: the office is to complete the
    /// block.
    Finished,
    /// The block is completed: the close is to be answered.
    Completed,
    /// The writer failed.
    Failed { failure: Failure },
}

/// The packet that asks that the bytes of an hsync be brought to the disk.
#[derive(Clone, Copy, Debug, PartialEq, Eq)]
pub enum SyncPacket {
    /// It wasn't formed yet.
    Due,
    /// It has this number.
    Formed { seqno: i64 },
}

/// The command that waits for its answer.
#[derive(Clone, Copy, Debug, PartialEq, Eq)]
pub enum Waiting {
    /// A create or an append.
    Opening,
    /// A flush of so many bytes of the block.
    Flush { length: u64 },
    /// A sync of so many bytes of the block.
    Sync { length: u64, packet: SyncPacket },
    /// A close.
    Close,
}

/// The packet that is to be formed.
#[derive(Clone, Copy, Debug, PartialEq, Eq)]
pub enum DuePacket {
    /// One with bytes, which ends here.
    Data { end: u64, sync: bool },
    /// One without bytes, for an hsync.
    Sync,
    /// The last one.
    Last,
}

/// What an ack says.
#[derive(Clone, Copy, Debug, PartialEq, Eq)]
pub enum Verdict {
    /// The oldest packet has reached every member.
    Good,
    /// The member at this place failed.
    Bad { index: usize },
}
