//! What happens to a replica, and what it answers.

ghost use Rattle.std.specs.Prelude.{◌↔◌, IsTrue};
ghost use Rattle.replica_core.specs.Transitions.{IsLawful};

use crate::refusals::Refusal;
use hd_base::{ConnId, ReplicaState, Stamp, SumRule};

/// What happens to a replica: what a write request, a packet, an ack, a recovery or a read asks of
/// it, and what befalls it. Offsets and lengths are in bytes.
#[derive(Clone, Copy, Debug, PartialEq, Eq)]
pub enum Event {
    /// The write request of a new block (HDFS `PIPELINE_SETUP_CREATE`).
    Create {
        conn: ConnId,
        stamp: Stamp,
        sums: SumRule,
    },
    /// The write request of a block that is transferred (HDFS `TRANSFER_RBW`, `TRANSFER_FINALIZED`): a
    /// temporary replica, which the transfer writes.
    Temporary {
        conn: ConnId,
        stamp: Stamp,
        sums: SumRule,
    },
    /// The write request of an append to a block of this length (HDFS `PIPELINE_SETUP_APPEND`).
    Append {
        conn: ConnId,
        named: Stamp,
        new: Stamp,
        length: u64,
    },
    /// The write request of an append whose pipeline failed (HDFS
    /// `PIPELINE_SETUP_APPEND_RECOVERY`).
    AppendRecovery {
        conn: ConnId,
        named: Stamp,
        new: Stamp,
        length: u64,
    },
    /// The write request of a pipeline that failed amid the stream (HDFS
    /// `PIPELINE_SETUP_STREAMING_RECOVERY`): the client has `min` bytes acked and has sent `max`.
    StreamRecovery {
        conn: ConnId,
        named: Stamp,
        new: Stamp,
        min: u64,
        max: u64,
    },
    /// The write request of a pipeline that failed at the close (HDFS `PIPELINE_CLOSE_RECOVERY`).
    CloseRecovery {
        named: Stamp,
        new: Stamp,
        length: u64,
    },
    /// A packet of the stream with `length` bytes from `offset` and `sums` sums; `bad` is the least
    /// of its chunks whose sum differs, counting from 0. The seqno -1 is a heartbeat.
    Packet {
        conn: ConnId,
        seqno: i64,
        offset: i64,
        length: u64,
        sums: u64,
        last: bool,
        sync: bool,
        bad: Option<u64>,
    },
    /// The ack of the oldest pending packet, good where all below acked it.
    Ack {
        conn: ConnId,
        seqno: i64,
        good: bool,
    },
    /// The end of a connection.
    Ended {
        conn: ConnId,
    },
    /// A recovery begins (HDFS `initReplicaRecovery`).
    Init {
        named: Stamp,
        recovery: Stamp,
    },
    /// A recovery settles the length (HDFS `updateReplicaUnderRecovery`).
    Update {
        recovery: Stamp,
        length: u64,
    },
    /// A reader asks for `length` bytes from `offset`.
    Read {
        named: Stamp,
        offset: u64,
        length: u64,
    },
    /// A transfer asks for `length` bytes from `offset` of a replica being written under just this
    /// stamp.
    Give {
        named: Stamp,
        offset: u64,
        length: u64,
    },
    /// A call on the replica's files failed.
    FileFault,
}

impl Event {
    /// Whether the event's numbers fit: a packet's bad chunk has one of its sums, and a recovery id
    /// isn't 0.
    pub fn is_lawful(&self) -> bool
        ensures { IsTrue result ↔ IsLawful self.now }
    {
        match *self {
            Event::Packet {
                sums,
                bad: Some(chunk),
                ..
            } => chunk < sums,
            Event::Init { recovery, .. } => recovery.0 > 0,
            _ => true,
        }
    }
}

/// What a replica answers an event.
#[derive(Clone, Copy, Debug, PartialEq, Eq)]
pub enum Answer {
    /// The event was taken.
    Done,
    /// The recovery begins, with the original state, the stamp and the written length.
    Info {
        state: ReplicaState,
        stamp: Stamp,
        length: u64,
    },
    /// The reader or the transfer may have the bytes up to this length.
    Visible {
        length: u64,
    },
    /// The event was refused, and has changed nothing.
    Refused(Refusal),
}
