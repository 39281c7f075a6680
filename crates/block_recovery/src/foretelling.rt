//! What a replica will answer to a step of a block recovery, before that is booked.

ghost use Rattle.std.specs.Prelude.{◌≡◌, ◌≤◌};
ghost use Rattle.replica_core.specs.Transitions.{answer_of, answer_to, present, reply};
ghost use Rattle.replica_core.specs.Transitions.{init_transition, update_transition};
ghost use Rattle.block_recovery.specs.Serving.{IsStep};

use hd_base::Stamp;
use replica_core::{Answer, Event, Refusal, Replica, ReplicaInfo};

/// What a replica will answer to a step.
#[tactic(auto, unfolding(replica_core::specs::Transitions::transition))]
pub(crate) fn foretold(replica: &Replica, event: &Event) -> Answer
    requires { IsStep event.now }
    ensures { result ≡ answer_to replica.now event.now }
{
    match *event {
        Event::Init { named, recovery } => answer_of(foretold_init(replica, named, recovery)),
        Event::Update { recovery, length } => answer_of(foretold_update(replica, recovery, length)),
        _ => unreachable!(),
    }
}

/// The answer to an INIT, which learns the original state, the stamp and the length.
fn foretold_init(replica: &Replica, named: Stamp, recovery: Stamp) -> Result<Answer, Refusal>
    requires { 1 ≤ recovery.0 }
    ensures { result ≡ reply (init_transition replica.now named recovery) }
{
    let info = present(replica)?;
    info.begin_recovery(named, recovery)?;
    Ok(Answer::Info {
        state: info.original,
        stamp: info.stamp,
        length: info.written,
    })
}

/// The answer to an UPDATE to this length.
fn foretold_update(replica: &Replica, recovery: Stamp, length: u64) -> Result<Answer, Refusal>
    ensures { result ≡ reply (update_transition replica.now recovery length) }
{
    let info = present(replica)?;
    info.end_recovery(recovery, length)?;
    Ok(Answer::Done)
}

/// What a replica holds that is neither broken nor absent.
fn present(replica: &Replica) -> Result<ReplicaInfo, Refusal>
    ensures { result ≡ present replica.now }
{
    if replica.is_broken() {
        return Err(Refusal::Broken);
    }
    replica.info().ok_or(Refusal::NoReplica)
}

/// The answer that this is.
fn answer_of(outcome: Result<Answer, Refusal>) -> Answer
    ensures { result ≡ answer_of outcome }
{
    match outcome {
        Ok(answer) => answer,
        Err(refusal) => Answer::Refused(refusal),
    }
}
