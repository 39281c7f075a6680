//! The name office.

ghost use Rattle.std.specs.Prelude.{◌≡◌, ◌↔◌, IsTrue, OnOk, OnErr, Ok, Err};
ghost use Rattle.hd_base.specs.Results.{Gives};
ghost use Rattle.name_core.specs.Steps.{state_after, reply};
ghost use Rattle.name_core.specs.Offices.{HasStampLeft, GivesStamp, IsCreate, new_office, committed_in, create_case};
ghost use Rattle.name_core.specs.Offices.{append_case, new_stamp_case, commit_case, complete_case, begin_case};
ghost use Rattle.name_core.specs.Offices.{sync_case, office_after, answer_to};

use crate::calls::{Begun, OfficeAnswer, OfficeCall, Reopened};
use crate::faults::OfficeFault;
use crate::records::BlockRecord;
use hd_base::{BlockId, Members, Stamp};
use std::alloc::{AllocError, Global};
use std::collections::BTreeMap;
use std::marker::Model;

/// The first stamp that an office gives.
pub const FIRST_STAMP: u64 = 1001;

/// The name office: what it has of each block, and the next stamp. Each call takes logarithmic time.
#[derive(Debug, Drop)]
pub struct Office {
    next: Stamp,
    blocks: BTreeMap<BlockId, BlockRecord, Global>,
}

impl Model for Office {
    ghost use Rattle.name_core.specs.Offices.{OfficeState};

    ghost Value = { OfficeState };

    ghost view = { λ o. record { next = o.next; blocks = o.blocks.entries } };
}

#[tactic(auto, using(std::proofs::lemmas::Map::Steps::set_value_same))]
impl Office {
    /// An office that knows no block. It takes no memory yet.
    pub fn new(alloc: Global) -> Result<Office, AllocError>
        ensures { result ≡ Ok new_office }
    {
        Ok(Office {
            next: Stamp(FIRST_STAMP),
            blocks: BTreeMap::new(alloc),
        })
    }

    /// Whether a stamp is left to be given, which the calls that give one need.
    pub fn has_stamp_left(&self) -> bool
        ensures { IsTrue result ↔ HasStampLeft self.now }
    {
        self.next.0 < u64::MAX
    }

    /// The committed stamp of the block, 0 where it isn't known.
    pub fn committed(&self, block: BlockId) -> Stamp
        ensures { result ≡ committed_in self.now block }
    {
        match self.blocks.get(&block) {
            Some(record) => record.committed,
            None => Stamp(0),
        }
    }

    /// Makes a block known, open for its writer with these members under a new stamp, which is
    /// committed. `Known` where it is known already, else perhaps `Memory`; both change nothing.
    pub fn create(&mut self, block: BlockId, members: &Members) -> Result<Stamp, OfficeFault>
        requires { HasStampLeft self.old }
        ensures answer { Gives OfficeFault.Memory result (reply (create_case self.old block members.now)) }
        ensures office { OnOk result (self.new ≡ state_after self.old (create_case self.old block members.now)) }
        ensures refused { OnErr result (self.new ≡ self.old) }
    {
        if self.blocks.contains_key(&block) {
            return Err(OfficeFault::Known);
        }
        let stamp = self.next;
        let record = BlockRecord::open(members.duplicate(), stamp);
        self.blocks.insert(block, record)?;
        self.next = Stamp(stamp.0 + 1);
        Ok(stamp)
    }

    /// Opens a closed block for an append, with a new stamp. In this order: `Unknown`, `NotClosed`
    /// where it is open, `TooLong` where it has over `MAX_APPEND_LENGTH` bytes. Takes no memory.
    pub fn append(&mut self, block: BlockId) -> Result<Reopened, OfficeFault>
        requires { HasStampLeft self.old }
        ensures answer { result ≡ reply (append_case self.old block) }
        ensures office { self.new ≡ state_after self.old (append_case self.old block) }
        ensures refused { OnErr result (self.new ≡ self.old) }
    {
        let Some(record) = self.blocks.get_mut(&block) else {
            return Err(OfficeFault::Unknown);
        };
        let reopened = record.append(self.next)?;
        self.next = Stamp(self.next.0 + 1);
        Ok(reopened)
    }

    /// A new stamp for the recovery of the writer's pipeline. In this order: `Unknown`, `LeaseLost`
    /// where a block recovery began, `NotOpen` where the block is closed. Takes no memory.
    pub fn new_stamp(&mut self, block: BlockId) -> Result<Stamp, OfficeFault>
        requires { HasStampLeft self.old }
        ensures answer { result ≡ reply (new_stamp_case self.old block) }
        ensures office { self.new ≡ state_after self.old (new_stamp_case self.old block) }
        ensures refused { OnErr result (self.new ≡ self.old) }
    {
        let Some(record) = self.blocks.get(&block) else {
            return Err(OfficeFault::Unknown);
        };
        let stamp = record.new_stamp(self.next)?;
        self.next = Stamp(self.next.0 + 1);
        Ok(stamp)
    }

    /// Commits this stamp and these members. In this order: `Unknown`, `LeaseLost`, `NotOpen`, and
    /// `OldStamp` where the stamp isn't above the committed one. Takes no memory.
    pub fn commit(
        &mut self,
        block: BlockId,
        stamp: Stamp,
        members: &Members,
    ) -> Result<(), OfficeFault>
        ensures answer { result ≡ reply (commit_case self.old block stamp members.now) }
        ensures office { self.new ≡ state_after self.old (commit_case self.old block stamp members.now) }
        ensures refused { OnErr result (self.new ≡ self.old) }
    {
        let Some(record) = self.blocks.get_mut(&block) else {
            return Err(OfficeFault::Unknown);
        };
        record.commit(stamp, members)?;
        Ok(())
    }

    /// Closes the block with so many bytes, for its writer. In this order: `Unknown`, `LeaseLost`,
    /// `NotOpen`, and `OldStamp` where the stamp is below the committed one. Takes no memory.
    pub fn complete(&mut self, block: BlockId, stamp: Stamp, length: u64) -> Result<(), OfficeFault>
        ensures answer { result ≡ reply (complete_case self.old block stamp length) }
        ensures office { self.new ≡ state_after self.old (complete_case self.old block stamp length) }
        ensures refused { OnErr result (self.new ≡ self.old) }
    {
        let Some(record) = self.blocks.get_mut(&block) else {
            return Err(OfficeFault::Unknown);
        };
        record.complete(stamp, length)?;
        Ok(())
    }

    /// Begins a block recovery, whose id is a new stamp: the writer has lost its lease. In this
    /// order: `Unknown`, `NotOpen` where the block is closed. Takes no memory.
    pub fn begin_recovery(&mut self, block: BlockId) -> Result<Begun, OfficeFault>
        requires { HasStampLeft self.old }
        ensures answer { result ≡ reply (begin_case self.old block) }
        ensures office { self.new ≡ state_after self.old (begin_case self.old block) }
        ensures refused { OnErr result (self.new ≡ self.old) }
    {
        let Some(record) = self.blocks.get_mut(&block) else {
            return Err(OfficeFault::Unknown);
        };
        let begun = record.begin_recovery(self.next)?;
        self.next = Stamp(self.next.0 + 1);
        Ok(begun)
    }

    /// Closes the block with so many bytes at these members, for the latest block recovery. In this
    /// order: `Unknown`, `NotOpen`, and `OldRecovery` where the id isn't the latest one. Takes no
    /// memory.
    pub fn commit_sync(
        &mut self,
        block: BlockId,
        id: Stamp,
        length: u64,
        members: &Members,
    ) -> Result<(), OfficeFault>
        ensures answer { result ≡ reply (sync_case self.old block id length members.now) }
        ensures office { self.new ≡ state_after self.old (sync_case self.old block id length members.now) }
        ensures refused { OnErr result (self.new ≡ self.old) }
    {
        let Some(record) = self.blocks.get_mut(&block) else {
            return Err(OfficeFault::Unknown);
        };
        record.commit_sync(id, length, members)?;
        Ok(())
    }

    /// Takes a call as a value: its answer is that of the method that it names.
    #[tactic(auto, unfolding(crate::specs::Offices::office_case))]
    pub fn take(&mut self, call: &OfficeCall) -> Result<OfficeAnswer, OfficeFault>
        requires { GivesStamp call.now → HasStampLeft self.old }
        ensures answer { Gives OfficeFault.Memory result (answer_to self.old call.now) }
        ensures office { OnOk result (self.new ≡ office_after self.old call.now) }
        ensures memory { result ≡ Err OfficeFault.Memory → IsCreate call.now }
        ensures refused { OnErr result (self.new ≡ self.old) }
    {
        Ok(match call {
            OfficeCall::Create { block, members } => {
                OfficeAnswer::Stamp(self.create(*block, members)?)
            }
            OfficeCall::Append { block } => OfficeAnswer::Reopened(self.append(*block)?),
            OfficeCall::NewStamp { block } => OfficeAnswer::Stamp(self.new_stamp(*block)?),
            OfficeCall::Commit {
                block,
                stamp,
                members,
            } => {
                self.commit(*block, *stamp, members)?;
                OfficeAnswer::Nothing
            }
            OfficeCall::Complete {
                block,
                stamp,
                length,
            } => {
                self.complete(*block, *stamp, *length)?;
                OfficeAnswer::Nothing
            }
            OfficeCall::BeginRecovery { block } => {
                OfficeAnswer::Begun(self.begin_recovery(*block)?)
            }
            OfficeCall::CommitSync {
                block,
                id,
                length,
                members,
            } => {
                self.commit_sync(*block, *id, *length, members)?;
                OfficeAnswer::Nothing
            }
        })
    }
}
