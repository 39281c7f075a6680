//! What the office has of a block, and what each call makes of it.

ghost use Rattle.std.specs.Prelude.{◌≡◌};
ghost use Rattle.name_core.specs.Steps.{state_after, reply};
ghost use Rattle.name_core.specs.Records.{opened, writer_check, append_step, new_stamp_step, commit_step};
ghost use Rattle.name_core.specs.Records.{complete_step, begin_step, sync_step};

use crate::calls::{Begun, Reopened};
use crate::faults::OfficeFault;
use hd_base::{Members, Stamp};

/// The most bytes that a block may have for an append: with the 33,554,432 bytes that a client may
/// write, it stays within the 134,217,728 that a block may have.
pub const MAX_APPEND_LENGTH: u64 = 100_663_296;

/// What the office has of a block.
#[derive(Debug, Drop)]
pub struct BlockRecord {
    /// Whether a writer or a recovery may still change it.
    pub is_open: bool,
    /// The stamp of the last pipeline or recovery that was committed.
    pub committed: Stamp,
    /// The members of that pipeline or recovery.
    pub members: Members,
    /// How many bytes it had when it was closed, 0 before.
    pub length: u64,
    /// The id of the latest block recovery since the last create or append.
    pub recovery: Option<Stamp>,
}

impl BlockRecord {
    /// A new block, open under its first stamp.
    pub fn open(members: Members, stamp: Stamp) -> BlockRecord
        ensures { result ≡ opened members stamp }
    {
        BlockRecord {
            is_open: true,
            committed: stamp,
            members,
            length: 0,
            recovery: None,
        }
    }

    /// Refuses the writer where it has lost the lease or the block is closed.
    fn check_writer(&self) -> Result<(), OfficeFault>
        ensures { result ≡ writer_check self.now }
    {
        if let Some(recovery) = self.recovery {
            return Err(OfficeFault::LeaseLost { recovery });
        }
        if !self.is_open {
            return Err(OfficeFault::NotOpen);
        }
        Ok(())
    }

    /// A closed block is open again for an append under this new stamp.
    pub fn append(&mut self, new: Stamp) -> Result<Reopened, OfficeFault>
        ensures answer { result ≡ reply (append_step self.old new) }
        ensures record { self.new ≡ state_after self.old (append_step self.old new) }
    {
        if self.is_open {
            return Err(OfficeFault::NotClosed);
        }
        if self.length > MAX_APPEND_LENGTH {
            return Err(OfficeFault::TooLong {
                length: self.length,
            });
        }
        self.is_open = true;
        self.recovery = None;
        Ok(Reopened {
            committed: self.committed,
            length: self.length,
            new,
        })
    }

    /// The writer's new stamp.
    pub fn new_stamp(&self, new: Stamp) -> Result<Stamp, OfficeFault>
        ensures answer { result ≡ reply (new_stamp_step self.now new) }
        ensures same { state_after self.now (new_stamp_step self.now new) ≡ self.now }
    {
        self.check_writer()?;
        Ok(new)
    }

    /// The writer's pipeline of these members stands under this stamp.
    pub fn commit(&mut self, stamp: Stamp, members: &Members) -> Result<(), OfficeFault>
        ensures answer { result ≡ reply (commit_step self.old stamp members.now) }
        ensures record { self.new ≡ state_after self.old (commit_step self.old stamp members.now) }
    {
        self.check_writer()?;
        if stamp <= self.committed {
            return Err(OfficeFault::OldStamp {
                committed: self.committed,
            });
        }
        self.committed = stamp;
        self.members = members.duplicate();
        Ok(())
    }

    /// The writer has finished the block.
    pub fn complete(&mut self, stamp: Stamp, length: u64) -> Result<(), OfficeFault>
        ensures answer { result ≡ reply (complete_step self.old stamp length) }
        ensures record { self.new ≡ state_after self.old (complete_step self.old stamp length) }
    {
        self.check_writer()?;
        if stamp < self.committed {
            return Err(OfficeFault::OldStamp {
                committed: self.committed,
            });
        }
        self.is_open = false;
        self.length = length;
        Ok(())
    }

    /// A block recovery with this id begins.
    pub fn begin_recovery(&mut self, id: Stamp) -> Result<Begun, OfficeFault>
        ensures answer { result ≡ reply (begin_step self.old id) }
        ensures record { self.new ≡ state_after self.old (begin_step self.old id) }
    {
        if !self.is_open {
            return Err(OfficeFault::NotOpen);
        }
        self.recovery = Some(id);
        Ok(Begun {
            id,
            committed: self.committed,
        })
    }

    /// The block recovery with this id has left so many bytes at these members.
    pub fn commit_sync(
        &mut self,
        id: Stamp,
        length: u64,
        members: &Members,
    ) -> Result<(), OfficeFault>
        ensures answer { result ≡ reply (sync_step self.old id length members.now) }
        ensures record { self.new ≡ state_after self.old (sync_step self.old id length members.now) }
    {
        if !self.is_open {
            return Err(OfficeFault::NotOpen);
        }
        if self.recovery != Some(id) {
            return Err(OfficeFault::OldRecovery {
                latest: self.recovery,
            });
        }
        self.is_open = false;
        self.committed = id;
        self.members = members.duplicate();
        self.length = length;
        Ok(())
    }
}
