//! A member's side of a block recovery.

ghost use Rattle.std.specs.Prelude.{◌≡◌, IfOk};
ghost use Rattle.recovery_core.specs.Members.{step_event, recovery_event, reply_to, refusing, succeeding, answer_of};

use hd_base::{ByteList, ReplicaState, Stamp, Status};
use op_headers::{RecoveryAnswer, RecoveryKind, RecoveryOp};
use replica_core::{Answer, Event, Refusal};
use request_refusals::{RequestRefusal, is_in_pool};
use std::alloc::{AllocError, Global};

/// How a member answers a step of a block recovery.
#[derive(Clone, Copy, Debug, PartialEq, Eq)]
pub enum RecoveryReply {
    /// The recovery has begun at a replica of this original state, stamp and written length.
    Informed {
        state: ReplicaState,
        stamp: Stamp,
        length: u64,
    },
    /// The replica has the recovery's length and stamp.
    Updated,
    /// A node holds no office, and leads no recovery that is asked for over a connection.
    NoOffice,
    /// The step is refused.
    Refused(RequestRefusal),
}

/// The event that a step of a block recovery is at the replica; or how it is answered where nothing is booked: for a
/// block of another pool, a BEGIN, or an INIT with the id 0, which no recovery has.
#[tactic(auto, unfolding(crate::specs::Members::recovery_event))]
pub fn recovery_event(op: &RecoveryOp) -> Result<Event, RecoveryReply>
    ensures { result ≡ recovery_event op.now }
{
    if !is_in_pool(&op.block) {
        return Err(RecoveryReply::Refused(RequestRefusal::Pool));
    }
    step_event(op)
}

/// The event of a step of a block of the pool.
fn step_event(op: &RecoveryOp) -> Result<Event, RecoveryReply>
    ensures { result ≡ step_event op.now.kind op.now }
{
    let (recovery, named) = (op.recovery, op.block.stamp);
    match op.kind {
        RecoveryKind::Begin => Err(RecoveryReply::NoOffice),
        RecoveryKind::Init if recovery.0 == 0 => {
            let refusal = Refusal::Stale {
                held: Stamp(0),
                low: Stamp(0),
                high: Stamp(0),
            };
            Err(RecoveryReply::Refused(RequestRefusal::Core(refusal)))
        }
        RecoveryKind::Init => Ok(Event::Init { named, recovery }),
        RecoveryKind::Update => Ok(Event::Update {
            recovery,
            length: op.new_length,
        }),
    }
}

/// How a step is answered that the replica answered so.
pub fn reply_to(answer: Answer) -> RecoveryReply
    ensures { result ≡ reply_to answer }
{
    match answer {
        Answer::Info {
            state,
            stamp,
            length,
        } => RecoveryReply::Informed {
            state,
            stamp,
            length,
        },
        Answer::Refused(refusal) => RecoveryReply::Refused(RequestRefusal::Core(refusal)),
        Answer::Done | Answer::Visible { .. } => RecoveryReply::Updated,
    }
}

/// The message that an answer is: an error has the refusal's message.
#[tactic(auto, unfolding(crate::specs::Members::answer_of))]
pub fn recovery_answer(alloc: Global, reply: RecoveryReply) -> Result<RecoveryAnswer, AllocError>
    ensures { IfOk result (λ answer. answer ≡ answer_of reply) }
{
    let empty = ByteList::from_vec(Vec::new(alloc));
    match reply {
        RecoveryReply::Informed {
            state,
            stamp,
            length,
        } => Ok(succeeding(empty, Some((state, stamp, length)))),
        RecoveryReply::Updated => Ok(succeeding(empty, None)),
        RecoveryReply::NoOffice => Ok(refusing(empty)),
        RecoveryReply::Refused(refusal) => Ok(refusing(refusal.text(alloc)?)),
    }
}

/// SUCCESS, with what is told of the replica.
fn succeeding(message: ByteList, info: Option<(ReplicaState, Stamp, u64)>) -> RecoveryAnswer
    ensures { result ≡ record (succeeding info) { message = message } }
{
    RecoveryAnswer {
        status: Status::Success,
        message,
        info,
    }
}

/// An error with this message.
fn refusing(message: ByteList) -> RecoveryAnswer
    ensures { result ≡ refusing message }
{
    RecoveryAnswer {
        status: Status::Error,
        message,
        info: None,
    }
}
