//! What may happen, as values.

use crate::lists::{AnswerList, FoundList};
use member_core::{
    BlockId, ByteList, ConnId, Members, NodeId, ReadOp, ReplicaState, Stamp, SumRule,
};
use writer_core::Command;

/// A command that a writer takes, and the rule of the block's sums, which counts where the command makes the block.
#[derive(Debug, Drop)]
pub struct TakenCommand {
    /// The command.
    pub command: Command,
    /// The rule of sums of a block that is made.
    pub rule: SumRule,
}

/// A step that a writer, a reader or a primary takes by itself. It says of each dial whether it is answered; a dial to
/// a node that doesn't run never is.
#[derive(Debug, Drop)]
pub enum OwnStep {
    /// The writer of a block: the rest of the step in which it asked the office, or the first rule that applies.
    Writer {
        /// The block.
        block: BlockId,
        /// The command that it takes, where it takes one.
        takes: Option<TakenCommand>,
        /// Whether the dial is answered, where it dials.
        answered: bool,
    },
    /// A new reader dials a node and sends its request.
    Reader {
        /// The reader's number.
        reader: u64,
        /// The node that is read from.
        node: NodeId,
        /// What is read.
        op: ReadOp,
        /// Whether the dial is answered.
        answered: bool,
    },
    /// A primary to which the office has answered begins: it dials each member and sends INIT.
    Recover {
        /// The primary's number.
        primary: u64,
        /// The node that is the primary.
        node: NodeId,
        /// The block.
        block: BlockId,
        /// The members that are asked.
        members: Members,
        /// Whether the dials are answered, in the order of the members.
        answered: AnswerList,
    },
    /// A primary that has begun: it chooses and sends UPDATE, or ends.
    Primary {
        /// The primary's number.
        primary: u64,
    },
}

/// Who asks the office.
#[derive(Clone, Copy, Debug, PartialEq, Eq)]
pub enum Caller {
    /// The writer of a block.
    Writer {
        /// The block.
        block: BlockId,
    },
    /// A primary: a new one begins a recovery of the block, one that has begun commits.
    Primary {
        /// The primary's number.
        primary: u64,
        /// The block of a recovery that begins.
        block: BlockId,
    },
}

/// A direction of a connection.
#[derive(Clone, Copy, Debug, PartialEq, Eq)]
pub enum Direction {
    /// From the end that dialled.
    Down,
    /// To the end that dialled.
    Up,
}

/// An event of a connection in which a book may be called.
#[derive(Clone, Copy, Debug, PartialEq, Eq)]
pub enum Delivery {
    /// The lower end takes what stands next.
    Down {
        /// The connection.
        conn: ConnId,
    },
    /// The lower end acts without a message.
    Ready {
        /// The connection.
        conn: ConnId,
    },
    /// The upper end takes what stands next.
    Up {
        /// The connection.
        conn: ConnId,
    },
}

/// What a restart finds of a block.
#[derive(Debug, Drop)]
pub struct FoundReplica {
    /// The block.
    pub block: BlockId,
    /// FINALIZED or RWR.
    pub state: ReplicaState,
    /// The stamp.
    pub stamp: Stamp,
    /// The rule of its sums.
    pub sums: SumRule,
    /// Its bytes.
    pub bytes: ByteList,
}

/// An event of the world.
#[derive(Debug, Drop)]
pub enum Event {
    /// A writer, a reader or a primary takes a step of its own.
    Own(OwnStep),
    /// The office answers what this caller asks.
    Office {
        /// Who asks.
        caller: Caller,
    },
    /// The lower end of a connection takes what stands next: a message, or the end.
    Down {
        /// The connection.
        conn: ConnId,
        /// Whether the dial is answered, where the lower end dials its mirror.
        answered: bool,
    },
    /// The lower end of a connection acts without a message.
    Ready {
        /// The connection.
        conn: ConnId,
    },
    /// The upper end of a connection takes what stands next: a message, or the end.
    Up {
        /// The connection.
        conn: ConnId,
    },
    /// The end is put behind so many more messages of one direction.
    Lost {
        /// The connection.
        conn: ConnId,
        /// The direction.
        direction: Direction,
        /// How many messages are still taken, at most.
        more: u64,
    },
    /// The book call of this delivery ends by a failed call on files.
    Fault {
        /// The delivery.
        delivery: Delivery,
    },
    /// A node stops: all its connections end, and nothing further arrives.
    Stop {
        /// The node.
        node: NodeId,
    },
    /// A stopped node starts again.
    Restart {
        /// The node.
        node: NodeId,
        /// What it finds of its replicas; the others are absent.
        found: FoundList,
    },
}
