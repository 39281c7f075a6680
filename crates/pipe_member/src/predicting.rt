//! Why a replica will refuse a request, so that the answer to it can be written before the replica is asked.

ghost use Rattle.std.specs.Prelude.{◌≡◌};
ghost use Rattle.replica_core.specs.Transitions.{
  transition,
  present,
  new_transition,
  append_transition,
  append_recovery_transition,
  stream_recovery_transition,
  close_recovery_transition,
};
ghost use Rattle.replica_core.specs.declared.events.Event.TheVariants as event;
ghost use Rattle.pipe_setup.specs.ReplicaFiles.Events.{IsSetup};
ghost use Rattle.pipe_member.specs.Refusing.{refused_in};

use hd_base::{ConnId, ReplicaState, Stamp, SumRule};
use replica_core::{Event, Refusal, Replica, ReplicaInfo};

/// Why the replica will refuse the event of a request, if it will.
#[tactic(auto, unfolding(replica_core::specs::Transitions::transition))]
pub(crate) fn refusal_at(replica: &Replica, event: &Event) -> Option<Refusal>
    requires { IsSetup event.now }
    ensures { result ≡ refused_in (transition replica.now event.now) }
{
    match *event {
        Event::Create { conn, stamp, sums } => {
            new_refusal(replica, ReplicaState::Rbw, conn, stamp, sums)
        }
        Event::Temporary { conn, stamp, sums } => {
            new_refusal(replica, ReplicaState::Temporary, conn, stamp, sums)
        }
        Event::Append {
            conn,
            named,
            new,
            length,
        } => append_refusal(replica, conn, named, new, length),
        Event::AppendRecovery {
            conn,
            named,
            new,
            length,
        } => append_recovery_refusal(replica, conn, named, new, length),
        Event::StreamRecovery {
            conn,
            named,
            new,
            min,
            max,
        } => stream_recovery_refusal(replica, conn, named, new, min, max),
        Event::CloseRecovery { named, new, length } => {
            close_recovery_refusal(replica, named, new, length)
        }
        _ => unreachable!(),
    }
}

/// What the replica holds that is neither broken nor absent.
fn present(replica: &Replica) -> Result<ReplicaInfo, Refusal>
    ensures { result ≡ present replica.now }
{
    if replica.is_broken() {
        return Err(Refusal::Broken);
    }
    replica.info().ok_or(Refusal::NoReplica)
}

/// Why no new replica will be made.
fn new_refusal(
    replica: &Replica,
    original: ReplicaState,
    conn: ConnId,
    stamp: Stamp,
    sums: SumRule,
) -> Option<Refusal>
    ensures { result ≡ refused_in (new_transition replica.now original conn stamp sums) }
{
    if replica.is_broken() {
        return Some(Refusal::Broken);
    }
    match replica.info() {
        Some(_) => Some(Refusal::Exists),
        None => None,
    }
}

/// Why an append will be refused.
fn append_refusal(
    replica: &Replica,
    conn: ConnId,
    named: Stamp,
    new: Stamp,
    length: u64,
) -> Option<Refusal>
    ensures { result ≡ refused_in (append_transition replica.now conn named new length) }
{
    match present(replica) {
        Ok(info) => info.reopen(named, new, length).err(),
        Err(refusal) => Some(refusal),
    }
}

/// Why the recovery of an append will be refused.
fn append_recovery_refusal(
    replica: &Replica,
    conn: ConnId,
    named: Stamp,
    new: Stamp,
    length: u64,
) -> Option<Refusal>
    ensures { result ≡ refused_in (append_recovery_transition replica.now conn named new length) }
{
    match present(replica) {
        Ok(info) => info
            .recover_setup(named, new, length, ReplicaState::Rbw)
            .err(),
        Err(refusal) => Some(refusal),
    }
}

/// Why the recovery of a stream will be refused.
fn stream_recovery_refusal(
    replica: &Replica,
    conn: ConnId,
    named: Stamp,
    new: Stamp,
    min: u64,
    max: u64,
) -> Option<Refusal>
    ensures { result ≡ refused_in (stream_recovery_transition replica.now conn named new min max) }
{
    match present(replica) {
        Ok(info) => info.recover_stream(named, new, min, max).err(),
        Err(refusal) => Some(refusal),
    }
}

/// Why the recovery of a close will be refused.
fn close_recovery_refusal(
    replica: &Replica,
    named: Stamp,
    new: Stamp,
    length: u64,
) -> Option<Refusal>
    ensures { result ≡ refused_in (close_recovery_transition replica.now named new length) }
{
    match present(replica) {
        Ok(info) => info
            .recover_setup(named, new, length, ReplicaState::Finalized)
            .err(),
        Err(refusal) => Some(refusal),
    }
}
