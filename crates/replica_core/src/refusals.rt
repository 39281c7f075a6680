//! Why an event is refused.

ghost use Rattle.std.specs.Prelude.{◌≡◌};
ghost use Rattle.replica_core.specs.Refusals.{refusal_number, rule_number};

use hd_base::{ReplicaState, Stamp};
use std::fmt;
use thiserror::Error;

/// Why a replica refuses an event. A refusal keeps what was held and what was asked.
#[derive(Clone, Copy, Debug, PartialEq, Eq, Error)]
pub enum Refusal {
    /// The replica is absent.
    #[error("no replica")]
    NoReplica,
    /// The replica is there already.
    #[error("the replica exists")]
    Exists,
    /// The event doesn't fit the replica's state.
    #[error("the state is {state}")]
    WrongState {
        state: ReplicaState,
    },
    /// The replica's stamp isn't from `low` to `high`.
    #[error("the stamp {} isn't from {} to {}", .held.0, .low.0, .high.0)]
    Stale {
        held: Stamp,
        low: Stamp,
        high: Stamp,
    },
    /// Acked or written bytes don't fit the lengths from `min` to `max` that were asked for.
    #[error("{acked} acked and {written} written don't fit {min} to {max}")]
    LengthOut {
        acked: u64,
        written: u64,
        min: u64,
        max: u64,
    },
    /// The connection doesn't write the replica.
    #[error("the connection doesn't write the replica")]
    NotWriter,
    /// The packet begins past the written bytes.
    #[error("a packet at {offset} leaves a gap behind {written}")]
    Gap {
        written: u64,
        offset: u64,
    },
    /// The sum of this chunk of the block differs.
    #[error("the sum of chunk {chunk} differs")]
    BadSum {
        chunk: u64,
    },
    /// The packet breaks a rule on its place and form.
    #[error("the packet breaks the rule {rule}")]
    Piece {
        rule: PieceRule,
    },
    /// A call on the replica's files failed earlier.
    #[error("the replica is broken")]
    Broken,
    /// A recovery with this id holds the replica.
    #[error("the recovery {} holds the replica", .id.0)]
    RecoveryHeld {
        id: Stamp,
    },
    /// The number isn't the one that is wanted, if any is.
    #[error("the seqno is {got}, expected {}", Expected(*.want))]
    Seqno {
        want: Option<i64>,
        got: i64,
    },
    /// The bytes asked for aren't all visible.
    #[error("only {visible} bytes are visible")]
    OutOfRange {
        visible: u64,
    },
}

impl Refusal {
    /// The refusal's number in messages, from 1 to 13.
    pub fn number(&self) -> u32
        ensures { result ≡ refusal_number self.now }
    {
        match self {
            Refusal::NoReplica => 1,
            Refusal::Exists => 2,
            Refusal::WrongState { .. } => 3,
            Refusal::Stale { .. } => 4,
            Refusal::LengthOut { .. } => 5,
            Refusal::NotWriter => 6,
            Refusal::Gap { .. } => 7,
            Refusal::BadSum { .. } => 8,
            Refusal::Piece { .. } => 9,
            Refusal::Broken => 10,
            Refusal::RecoveryHeld { .. } => 11,
            Refusal::Seqno { .. } => 12,
            Refusal::OutOfRange { .. } => 13,
        }
    }
}

/// The rules on a packet's place and form.
#[derive(Clone, Copy, Debug, PartialEq, Eq)]
pub enum PieceRule {
    /// An offset isn't negative.
    Negative,
    /// A heartbeat has no bytes, no sums and isn't the last packet.
    Heartbeat,
    /// Nothing but heartbeats follows the last packet.
    AfterLast,
    /// The last packet has no bytes and stands behind the written ones.
    LastShape,
    /// A packet that begins amid a chunk ends within it.
    MidChunk,
    /// There is one sum for each chunk, and none where the replica has no sums.
    Sums,
    /// A block has at most 134,217,728 bytes.
    TooLong,
}

impl PieceRule {
    /// The rule's number in messages, from 0 to 6.
    pub fn number(&self) -> u32
        ensures { result ≡ rule_number self.now }
    {
        match self {
            PieceRule::Negative => 0,
            PieceRule::Heartbeat => 1,
            PieceRule::AfterLast => 2,
            PieceRule::LastShape => 3,
            PieceRule::MidChunk => 4,
            PieceRule::Sums => 5,
            PieceRule::TooLong => 6,
        }
    }
}

impl fmt::Display for PieceRule {
    fn fmt<W: fmt::Write>(&self, f: &mut fmt::Formatter<W>) -> fmt::Result {
        f.write_str(match self {
            PieceRule::Negative => "Negative",
            PieceRule::Heartbeat => "Heartbeat",
            PieceRule::AfterLast => "AfterLast",
            PieceRule::LastShape => "LastShape",
            PieceRule::MidChunk => "MidChunk",
            PieceRule::Sums => "Sums",
            PieceRule::TooLong => "TooLong",
        })
    }
}

/// A number that is expected, or `none`.
#[derive(Clone, Copy)]
struct Expected(Option<i64>);

impl fmt::Display for Expected {
    fn fmt<W: fmt::Write>(&self, f: &mut fmt::Formatter<W>) -> fmt::Result {
        match self.0 {
            Some(number) => write!(f, "{number}"),
            None => f.write_str("none"),
        }
    }
}
