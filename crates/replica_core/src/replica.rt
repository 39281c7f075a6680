//! A replica.

ghost use Rattle.std.specs.Prelude.{◌≡◌, ◌≤◌, ◌<◌, ◌↔◌, ◌⊎◌, IsTrue, IfOk, IfSome, length, slice_get};
ghost use Rattle.replica_core.specs.declared.refusals.Refusal.{Refusal};
ghost use Rattle.replica_core.specs.Info.{settled_at};
ghost use Rattle.replica_core.specs.Extents.{IsPacket};
ghost use Rattle.replica_core.specs.Transitions.{absent, found, answer_to, state_after, answer_of, IsLawful};
ghost use Rattle.replica_core.specs.Sound.{Sound, IsConsistent};
ghost use Rattle.replica_core.specs.Transitions.{mark_broken};
ghost use Rattle.replica_core.specs.Views.{state_in, original_in, stamp_in, rule_in};
ghost use Rattle.replica_core.specs.Views.{written_in, acked_in, writer_in, visible_in};

use crate::ack_queue::{AckQueue, MAX_PENDING, PendingPacket};
use crate::events::{Answer, Event};
use crate::info::ReplicaInfo;
use crate::records::ReplicaRecord;
use crate::refusals::Refusal;
use hd_base::{BlockId, ConnId, ReplicaState, Stamp, SumRule};
use std::alloc::{AllocError, Global};
use std::marker::Model;

/// One replica of a block, without its bytes. It has room for `MAX_PENDING` pending packets from the
/// start, so that no event wants memory.
#[derive(Debug, Drop)]
pub struct Replica {
    known: ReplicaRecord,
}

impl Model for Replica {
    ghost use Rattle.replica_core.specs.declared.records.ReplicaRecord.{ReplicaRecord};

    ghost Value = { ReplicaRecord };

    ghost use Rattle.replica_core.specs.Sound.{Sound};

    ghost view = { λ r. r.known };

    ghost invariant = { λ r. Sound r.known };
}

impl Replica {
    /// An absent replica.
    pub fn new(alloc: Global, block: BlockId) -> Result<Replica, AllocError>
        ensures { IfOk result (λ r. r ≡ absent block) }
    {
        let known = ReplicaRecord {
            block,
            info: None,
            stream: None,
            pending: AckQueue::new(alloc)?,
            is_broken: false,
        };
        Ok(Replica { known })
    }

    /// A replica that a scan found with so many bytes and this rule of sums. All of them count as acked, and nobody
    /// writes it.
    pub fn found(
        alloc: Global,
        block: BlockId,
        state: ReplicaState,
        stamp: Stamp,
        sums: SumRule,
        length: u64,
    ) -> Result<Replica, AllocError>
        requires { (state ≡ ReplicaState.Finalized) ⊎ (state ≡ ReplicaState.Rwr) }
        ensures { IfOk result (λ r. r ≡ found block (settled_at state stamp sums length)) }
    {
        let known = ReplicaRecord {
            block,
            info: Some(ReplicaInfo::settled_at(state, stamp, sums, length)),
            stream: None,
            pending: AckQueue::new(alloc)?,
            is_broken: false,
        };
        Ok(Replica { known })
    }

    /// Takes an event, or refuses it, which changes nothing. Takes no memory.
    pub fn step(&mut self, event: &Event) -> Answer
        requires room { IsPacket event.now → length self.old.pending < MAX_PENDING }
        requires lawful { IsLawful event.now }
        ensures answer { result ≡ answer_to self.old event.now }
        ensures replica { self.new ≡ state_after self.old event.now }
        ensures sound { Sound self.new }
        ensures refused { (e : Refusal) → result ≡ Answer.Refused e → self.new ≡ self.old }
    {
        answered(self.known.take(event))
    }

    /// Breaks the replica in place of the event that it took last, in which a call on its files failed: it
    /// holds again what it held before, which `info` answered then. Takes no memory.
    pub fn break_from(&mut self, before: Option<ReplicaInfo>)
        requires { IfSome before IsConsistent }
        ensures { self.new ≡ mark_broken (record self.old { info = before }) }
    {
        self.known.info = before;
        self.known.mark_broken();
    }

    /// What is there, `None` exactly for an absent replica.
    pub fn info(&self) -> Option<ReplicaInfo>
        ensures value { result ≡ self.now.info }
        ensures consistent { IfSome result IsConsistent }
    {
        self.known.info
    }

    /// The block.
    pub fn block(&self) -> BlockId
        ensures { result ≡ self.now.block }
    {
        self.known.block
    }

    /// The state, `None` exactly for an absent replica.
    pub fn state(&self) -> Option<ReplicaState>
        ensures { result ≡ state_in self.now }
    {
        self.known.info.map(|info| info.state())
    }

    /// The state apart from a recovery, `None` exactly for an absent replica.
    pub fn original(&self) -> Option<ReplicaState>
        ensures { result ≡ original_in self.now }
    {
        self.known.info.map(|info| info.original)
    }

    /// The stamp, `None` exactly for an absent replica.
    pub fn stamp(&self) -> Option<Stamp>
        ensures { result ≡ stamp_in self.now }
    {
        self.known.info.map(|info| info.stamp)
    }

    /// The rule of its sums, `None` exactly for an absent replica.
    pub fn rule(&self) -> Option<SumRule>
        ensures { result ≡ rule_in self.now }
    {
        self.known.info.map(|info| info.sums)
    }

    /// How many bytes are written, 0 for an absent replica.
    pub fn written(&self) -> u64
        ensures { result ≡ written_in self.now }
    {
        self.known.info.map_or(0, |info| info.written)
    }

    /// How many bytes are acked, 0 for an absent replica.
    pub fn acked(&self) -> u64
        ensures value { result ≡ acked_in self.now }
        ensures within { result ≤ written_in self.now }
    {
        self.known.info.map_or(0, |info| info.acked)
    }

    /// The connection that writes the replica, `None` where nobody does.
    pub fn writer(&self) -> Option<ConnId>
        ensures { result ≡ writer_in self.now }
    {
        self.known.stream.map(|stream| stream.conn)
    }

    /// How many bytes a reader may see: the written ones of a finalized replica and the acked ones
    /// of one being written, also while a recovery holds it; of others `None`.
    pub fn visible(&self) -> Option<u64>
        ensures { result ≡ visible_in self.now }
    {
        self.known.info.and_then(|info| info.visible())
    }

    /// The oldest pending packet.
    pub fn oldest(&self) -> Option<PendingPacket>
        ensures value { result ≡ slice_get self.now.pending 0 }
        ensures within { IfSome result (λ packet. packet.end ≤ written_in self.now) }
    {
        self.known.pending.oldest()
    }

    /// Whether `MAX_PENDING` packets are pending, so that no packet can be taken.
    pub fn is_full(&self) -> bool
        ensures full { IsTrue result ↔ (length self.now.pending ≡ MAX_PENDING) }
        ensures within { length self.now.pending ≤ MAX_PENDING }
    {
        self.known.pending.is_full()
    }

    /// Whether a call on the replica's files failed.
    pub fn is_broken(&self) -> bool
        ensures { result ≡ self.now.is_broken }
    {
        self.known.is_broken
    }
}

/// The answer.
fn answered(taken: Result<Answer, Refusal>) -> Answer
    ensures { result ≡ answer_of taken }
{
    match taken {
        Ok(answer) => answer,
        Err(refusal) => Answer::Refused(refusal),
    }
}
