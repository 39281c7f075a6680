//! What a replica that is there holds, and what events make of it.

ghost use Rattle.std.specs.Prelude.{◌≡◌, ◌≤◌, ◌↔◌, IsTrue};
ghost use Rattle.replica_core.specs.Sound.{IsConsistent};
ghost use Rattle.replica_core.specs.Info.{state_of, visible_of, stamp_check, settled_at, reopen, recover_setup};
ghost use Rattle.replica_core.specs.Info.{cut_to_acked, recover_stream, begin_recovery, end_recovery};
ghost use Rattle.replica_core.specs.Info.{readable, within, given};
ghost use Rattle.replica_core.specs.Info.{extend_written, advance_acked, state_after_last, close_stream};

use crate::refusals::Refusal;
use hd_base::{ReplicaState, Stamp, SumRule};

/// What a replica that is there holds.
#[derive(Clone, Copy, Debug, PartialEq, Eq)]
pub struct ReplicaInfo {
    /// The state apart from a recovery; under one the original state.
    pub original: ReplicaState,
    /// The id of the recovery that it is under.
    pub recovery: Option<Stamp>,
    /// The generation stamp.
    pub stamp: Stamp,
    /// The rule of its sums.
    pub sums: SumRule,
    /// How many bytes are written.
    pub written: u64,
    /// How many bytes the members below have acked.
    pub acked: u64,
}

impl ReplicaInfo {
    /// Whether no more is acked than is written, and as much where the replica is FINALIZED or RWR.
    pub fn is_consistent(&self) -> bool
        ensures { IsTrue result ↔ IsConsistent self.now }
    {
        let settled = matches!(self.original, ReplicaState::Finalized | ReplicaState::Rwr);
        self.acked <= self.written && (!settled || self.acked == self.written)
    }

    /// A replica in this state with nothing but these bytes, all acked.
    pub fn settled_at(
        original: ReplicaState,
        stamp: Stamp,
        sums: SumRule,
        length: u64,
    ) -> ReplicaInfo
        ensures { result ≡ settled_at original stamp sums length }
    {
        ReplicaInfo {
            original,
            recovery: None,
            stamp,
            sums,
            written: length,
            acked: length,
        }
    }

    /// The state.
    pub fn state(&self) -> ReplicaState
        ensures { result ≡ state_of self.now }
    {
        match self.recovery {
            Some(_) => ReplicaState::Rur,
            None => self.original,
        }
    }

    /// How many bytes a reader may see, `None` where there is nothing to read.
    pub fn visible(&self) -> Option<u64>
        ensures { result ≡ visible_of self.now }
    {
        match self.original {
            ReplicaState::Finalized => Some(self.written),
            ReplicaState::Rbw => Some(self.acked),
            _ => None,
        }
    }

    /// The refusal of its state.
    fn wrong_state(&self) -> Refusal
        ensures { result ≡ Refusal.WrongState (state_of self.now) }
    {
        Refusal::WrongState {
            state: self.state(),
        }
    }

    /// The refusal of its stamp.
    fn stale(&self, low: Stamp, high: Stamp) -> Refusal
        ensures { result ≡ Refusal.Stale self.now.stamp low high }
    {
        Refusal::Stale {
            held: self.stamp,
            low,
            high,
        }
    }

    /// Refuses a stamp that isn't from one to the other.
    fn check_stamp(&self, low: Stamp, high: Stamp) -> Result<(), Refusal>
        ensures { result ≡ stamp_check self.now low high }
    {
        if self.stamp < low || high < self.stamp {
            return Err(self.stale(low, high));
        }
        Ok(())
    }

    /// The refusal of its lengths.
    fn length_out(&self, min: u64, max: u64) -> Refusal
        ensures { result ≡ Refusal.LengthOut self.now.acked self.now.written min max }
    {
        Refusal::LengthOut {
            acked: self.acked,
            written: self.written,
            min,
            max,
        }
    }

    /// What an append makes of it.
    #[tactic(auto, unfolding(crate::specs::Info::reopen))]
    pub fn reopen(&self, named: Stamp, new: Stamp, length: u64) -> Result<ReplicaInfo, Refusal>
        ensures { result ≡ reopen self.now named new length }
    {
        if !matches!(self.state(), ReplicaState::Finalized) {
            return Err(self.wrong_state());
        }
        if self.stamp != named || new <= named {
            return Err(self.stale(named, new));
        }
        if self.written != length {
            return Err(self.length_out(length, length));
        }
        Ok(ReplicaInfo::settled_at(ReplicaState::Rbw, new, self.sums, length))
    }

    /// What the recovery of an append or of a close makes of it, which leaves it in this state.
    #[tactic(auto, unfolding(crate::specs::Info::recover_setup))]
    pub fn recover_setup(
        &self,
        named: Stamp,
        new: Stamp,
        length: u64,
        into: ReplicaState,
    ) -> Result<ReplicaInfo, Refusal>
        ensures { result ≡ recover_setup self.now named new length into }
    {
        if !matches!(self.state(), ReplicaState::Finalized | ReplicaState::Rbw) {
            return Err(self.wrong_state());
        }
        self.check_stamp(named, new)?;
        if self.written != length || self.acked != length {
            return Err(self.length_out(length, length));
        }
        Ok(ReplicaInfo::settled_at(into, new, self.sums, length))
    }

    /// What is left under a new stamp where the bytes past the acked ones are cut off.
    fn cut_to_acked(&self, new: Stamp) -> ReplicaInfo
        ensures { result ≡ cut_to_acked self.now new }
    {
        ReplicaInfo::settled_at(ReplicaState::Rbw, new, self.sums, self.acked)
    }

    /// What the recovery of a stream makes of it: the bytes past the acked ones are cut off.
    #[tactic(auto, unfolding(crate::specs::Info::recover_stream))]
    pub fn recover_stream(
        &self,
        named: Stamp,
        new: Stamp,
        min: u64,
        max: u64,
    ) -> Result<ReplicaInfo, Refusal>
        ensures { result ≡ recover_stream self.now named new min max }
    {
        if !matches!(self.state(), ReplicaState::Rbw) {
            return Err(self.wrong_state());
        }
        self.check_stamp(named, new)?;
        if self.acked < min || max < self.written {
            return Err(self.length_out(min, max));
        }
        Ok(self.cut_to_acked(new))
    }

    /// What the beginning of a block recovery makes of it.
    #[tactic(auto, unfolding(crate::specs::Info::begin_recovery))]
    pub fn begin_recovery(&self, named: Stamp, recovery: Stamp) -> Result<ReplicaInfo, Refusal>
        requires { 1 ≤ recovery.0 }
        ensures { result ≡ begin_recovery self.now named recovery }
    {
        if matches!(self.state(), ReplicaState::Temporary) {
            return Err(self.wrong_state());
        }
        self.check_stamp(named, Stamp(recovery.0 - 1))?;
        match self.recovery {
            Some(id) if recovery <= id => Err(Refusal::RecoveryHeld { id }),
            _ => Ok(ReplicaInfo {
                recovery: Some(recovery),
                ..*self
            }),
        }
    }

    /// What the end of a block recovery makes of it: it is finalized at this length.
    #[tactic(auto, unfolding(crate::specs::Info::end_recovery))]
    pub fn end_recovery(&self, recovery: Stamp, length: u64) -> Result<ReplicaInfo, Refusal>
        ensures { result ≡ end_recovery self.now self.now.recovery recovery length }
    {
        let id = self.recovery.ok_or(self.wrong_state())?;
        if id != recovery {
            return Err(Refusal::RecoveryHeld { id });
        }
        if self.written < length {
            return Err(self.length_out(length, length));
        }
        Ok(ReplicaInfo::settled_at(ReplicaState::Finalized, recovery, self.sums, length))
    }

    /// The visible length, where a reader may read these bytes.
    #[tactic(auto, unfolding(crate::specs::Info::readable))]
    pub fn readable(&self, named: Stamp, offset: u64, length: u64) -> Result<u64, Refusal>
        ensures { result ≡ readable self.now (visible_of self.now) named offset length }
    {
        let visible = self.visible().ok_or(self.wrong_state())?;
        self.check_stamp(named, Stamp(u64::MAX))?;
        all_within(visible, offset, length)
    }

    /// The acked length, where a transfer may be given these bytes of it.
    #[tactic(auto, unfolding(crate::specs::Info::given))]
    pub fn give(&self, named: Stamp, offset: u64, length: u64) -> Result<u64, Refusal>
        ensures { result ≡ given self.now named offset length }
    {
        if !matches!(self.state(), ReplicaState::Rbw) {
            return Err(self.wrong_state());
        }
        self.check_stamp(named, named)?;
        all_within(self.acked, offset, length)
    }

    /// What a packet that ends here leaves.
    pub fn extend_written(&self, end: u64) -> ReplicaInfo
        ensures { result ≡ extend_written self.now end }
    {
        ReplicaInfo {
            written: self.written.max(end),
            ..*self
        }
    }

    /// What an ack of this end leaves.
    pub fn advance_acked(&self, end: u64) -> ReplicaInfo
        ensures { result ≡ advance_acked self.now end }
    {
        ReplicaInfo {
            acked: self.acked.max(end),
            ..*self
        }
    }

    /// The state that the good ack of the last packet leaves: a temporary replica is then being
    /// written, and any other is finalized.
    fn after_last_ack(&self) -> ReplicaState
        ensures { result ≡ state_after_last self.now.original }
    {
        match self.original {
            ReplicaState::Temporary => ReplicaState::Rbw,
            _ => ReplicaState::Finalized,
        }
    }

    /// What the good ack of the last packet leaves.
    pub fn close_stream(&self) -> ReplicaInfo
        ensures { result ≡ close_stream self.now }
    {
        ReplicaInfo {
            original: self.after_last_ack(),
            recovery: None,
            ..*self
        }
    }
}

/// This length, where the bytes that are asked for lie below it.
fn all_within(visible: u64, offset: u64, length: u64) -> Result<u64, Refusal>
    ensures { result ≡ within visible offset length }
{
    match offset.checked_add(length) {
        Some(end) if end <= visible => Ok(visible),
        _ => Err(Refusal::OutOfRange { visible }),
    }
}
