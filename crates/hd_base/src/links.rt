//! The two halves of one end of a connection.

ghost use Rattle.std.specs.Prelude.{◌≡◌, ℕ, ◌+◌, ◌-◌, ◌<◌, ◌≤◌, Bool, true, if◌then◌else◌, List, length, take, Option, IfSome, IfOk, OnOk, OnErr, IsErrOf};
ghost use Rattle.hd_base.specs.Faults.{FaultSchedule, FollowsSchedule, KeepsSchedule};
ghost use Rattle.hd_base.specs.Links.{Inbox, Receives, Sends, LinkCause};

use std::alloc::{AllocError, Global};
use thiserror::Error;

impl From<AllocError> for LinkError {
    ghost use Rattle.hd_base.specs.declared.links.LinkError.TheVariants as link_error;

    ghost from_gives = { λ _ e. e ≡ link_error.Memory };

    fn from(_: AllocError) -> LinkError {
        LinkError::Memory
    }
}

/// What `recv` found.
#[derive(Clone, Copy, Debug, PartialEq, Eq)]
pub enum Got {
    /// So many bytes, at least 1, at the front of the buffer.
    Bytes(usize),
    /// The connection has ended: nothing more comes.
    End,
    /// Nothing is here yet. A link that blocks never answers it.
    NotYet,
}

/// Why a call on a link failed.
#[derive(Clone, Copy, Debug, PartialEq, Eq, Error)]
pub enum LinkError {
    /// The link failed, and the half's count of faults rose.
    #[error("the link failed")]
    Failed,
    /// Memory ran out; nothing changed.
    #[error("out of memory")]
    Memory,
}

/// The inward half of an end. Its meaning is what it holds, where the implementation shows it: a
/// half over plain memory is a buffer that its owner holds, filled by the roads' `exchange`.
pub trait LinkIn: Drop {
    ghost held: { Self → Option Inbox };

    ghost shut: { Self → Bool };

    ghost faults: { Self → ℕ };

    ghost schedule: { Self → Option FaultSchedule };

    /// Receives into the front of the buffer, which isn't empty. Takes no memory. Where observable,
    /// `NotYet` comes exactly where nothing is held and no end stands next, `End` exactly where
    /// nothing is held and the end stands next. A failed call takes nothing.
    fn recv(&mut self, into: &mut [u8]) -> Result<Got, LinkError>
        requires { 0 < length into.old }
        ensures received { IfOk result (λ got. Receives got (held self.old) (held self.new) into.new) }
        ensures shut { shut self.new ≡ shut self.old }
        ensures err { OnErr result (held self.new ≡ held self.old) }
        ensures cause { LinkCause (faults self.old) (faults self.new) result }
        ensures schedule { FollowsSchedule
            (schedule self.old) (schedule self.new) (faults self.old) (faults self.new) result };

    /// Ends both directions of the connection. What is held stays.
    fn shut(&mut self)
        ensures shut { shut self.new ≡ true }
        ensures held { held self.new ≡ held self.old }
        ensures faults { faults self.old ≤ faults self.new }
        ensures schedule { KeepsSchedule (schedule self.old) (schedule self.new) (faults self.old) (faults self.new) };
}

/// The outward half of an end. Its meaning is the list of the pieces that `send` answered for,
/// lost ones among them, where the implementation shows it; how many of them were flushed to the
/// roads; and how many at the end of the list were sent after this half was shut, and so are lost.
/// The two halves of an end share nothing, so this one learns of a shut of the inward half at the
/// next exchange: what is sent in between stands before the end that the shut makes.
pub trait LinkOut: Drop {
    ghost sent: { Self → Option (List (List ℕ)) };

    ghost flushed: { Self → ℕ };

    ghost lost: { Self → ℕ };

    ghost shut: { Self → Bool };

    // A bound below which a piece's length needs no memory; 0 is no room.
    ghost room: { Self → ℕ };

    ghost faults: { Self → ℕ };

    ghost schedule: { Self → Option FaultSchedule };

    /// Secures that one piece of at most `len` bytes, and what is left of it where the link took
    /// less, can be sent without memory. Its only error is `Memory`, which changes nothing.
    fn room(&mut self, alloc: Global, len: u64) -> Result<(), LinkError>
        ensures covers { OnOk result (len < room self.new) }
        ensures room { room self.old ≤ room self.new }
        ensures sent { sent self.new ≡ sent self.old }
        ensures flushed { flushed self.new ≡ flushed self.old }
        ensures lost { lost self.new ≡ lost self.old }
        ensures shut { shut self.new ≡ shut self.old }
        ensures only_memory { IsErrOf result LinkError.Failed → ⊥ }
        ensures faults { faults self.old ≤ faults self.new }
        ensures schedule { KeepsSchedule (schedule self.old) (schedule self.new) (faults self.old) (faults self.new) };

    /// Sends a front of the piece and answers how many bytes, at least 1 for a piece that isn't
    /// empty; a link whose sends are observable takes the whole piece. On a connection that was shut the bytes are
    /// taken and lost. A failed call takes nothing; it is never want of memory.
    fn send(&mut self, piece: &[u8]) -> Result<usize, LinkError>
        requires { length piece.now < room self.old }
        ensures within { IfOk result (λ n. n ≤ length piece.now) }
        ensures some { IfOk result (λ n. 0 < length piece.now → 0 < n) }
        ensures whole { IfOk result (λ n. IfSome (sent self.old) (λ _. n ≡ length piece.now)) }
        ensures sent { IfOk result (λ n. Sends (sent self.old) (sent self.new) (take n piece.now)) }
        ensures left { IfOk result (λ n. n < length piece.now → length piece.now - n < room self.new) }
        ensures flushed { flushed self.new ≡ flushed self.old }
        ensures lost { OnOk result (IfSome (sent self.old) (λ _.
            lost self.new ≡ (if shut self.old then lost self.old + 1 else lost self.old))) }
        ensures shut { shut self.new ≡ shut self.old }
        ensures err { OnErr result (sent self.new ≡ sent self.old) }
        ensures err_lost { OnErr result (lost self.new ≡ lost self.old) }
        ensures cause { LinkCause (faults self.old) (faults self.new) result }
        ensures schedule { FollowsSchedule
            (schedule self.old) (schedule self.new) (faults self.old) (faults self.new) result };

    /// Ends both directions of the connection. What is sent from now on is lost.
    fn shut(&mut self)
        ensures shut { shut self.new ≡ true }
        ensures sent { sent self.new ≡ sent self.old }
        ensures flushed { flushed self.new ≡ flushed self.old }
        ensures lost { lost self.new ≡ lost self.old }
        ensures room { room self.old ≤ room self.new }
        ensures faults { faults self.old ≤ faults self.new }
        ensures schedule { KeepsSchedule (schedule self.old) (schedule self.new) (faults self.old) (faults self.new) };
}
