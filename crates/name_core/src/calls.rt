//! Calls on the office, and their answers, as values.

ghost use Rattle.std.specs.Prelude.{◌≡◌, ◌↔◌, IsTrue};
ghost use Rattle.name_core.specs.Desks.{FitsCall};

use crate::records::MAX_APPEND_LENGTH;
use hd_base::{BlockId, Members, Stamp};

/// A call on the office.
#[derive(Debug, PartialEq, Eq, Drop)]
pub enum OfficeCall {
    /// A new block, with the members of its first pipeline.
    Create {
        block: BlockId,
        members: Members,
    },
    /// A closed block is to be appended to.
    Append {
        block: BlockId,
    },
    /// A new stamp for the recovery of the writer's pipeline.
    NewStamp {
        block: BlockId,
    },
    /// The writer's pipeline of these members stands under this stamp.
    Commit {
        block: BlockId,
        stamp: Stamp,
        members: Members,
    },
    /// The block is finished under this stamp, with so many bytes.
    Complete {
        block: BlockId,
        stamp: Stamp,
        length: u64,
    },
    /// A block recovery begins.
    BeginRecovery {
        block: BlockId,
    },
    /// The block recovery with this id has left so many bytes at these members.
    CommitSync {
        block: BlockId,
        id: Stamp,
        length: u64,
        members: Members,
    },
}

impl OfficeCall {
    /// The same call once more. Takes no memory.
    pub fn duplicate(&self) -> OfficeCall
        ensures { result ≡ self.now }
    {
        match self {
            OfficeCall::Create { block, members } => OfficeCall::Create {
                block: *block,
                members: members.duplicate(),
            },
            OfficeCall::Append { block } => OfficeCall::Append { block: *block },
            OfficeCall::NewStamp { block } => OfficeCall::NewStamp { block: *block },
            OfficeCall::Commit {
                block,
                stamp,
                members,
            } => OfficeCall::Commit {
                block: *block,
                stamp: *stamp,
                members: members.duplicate(),
            },
            OfficeCall::Complete {
                block,
                stamp,
                length,
            } => OfficeCall::Complete {
                block: *block,
                stamp: *stamp,
                length: *length,
            },
            OfficeCall::BeginRecovery { block } => OfficeCall::BeginRecovery { block: *block },
            OfficeCall::CommitSync {
                block,
                id,
                length,
                members,
            } => OfficeCall::CommitSync {
                block: *block,
                id: *id,
                length: *length,
                members: members.duplicate(),
            },
        }
    }
}

/// What an append is answered.
#[derive(Clone, Copy, Debug, PartialEq, Eq)]
pub struct Reopened {
    /// The committed stamp.
    pub committed: Stamp,
    /// How many bytes the block has.
    pub length: u64,
    /// The stamp of the pipeline that is to be set up.
    pub new: Stamp,
}

/// What a block recovery is answered.
#[derive(Clone, Copy, Debug, PartialEq, Eq)]
pub struct Begun {
    /// The recovery's id.
    pub id: Stamp,
    /// The committed stamp.
    pub committed: Stamp,
}

/// What the office answers a call that it grants.
#[derive(Clone, Copy, Debug, PartialEq, Eq)]
pub enum OfficeAnswer {
    /// The new stamp.
    Stamp(Stamp),
    /// What an append is answered.
    Reopened(Reopened),
    /// What a block recovery is answered.
    Begun(Begun),
    /// No more than that it is granted.
    Nothing,
}

impl OfficeAnswer {
    /// Whether a desk may answer this call so: the answer has the form of the call, and an append is
    /// told a length of at most `MAX_APPEND_LENGTH`.
    pub fn fits(&self, call: &OfficeCall) -> bool
        ensures { IsTrue result ↔ FitsCall call.now self.now }
    {
        match (call, self) {
            (OfficeCall::Create { .. } | OfficeCall::NewStamp { .. }, OfficeAnswer::Stamp(_)) => {
                true
            }
            (OfficeCall::Append { .. }, OfficeAnswer::Reopened(reopened)) => {
                reopened.length <= MAX_APPEND_LENGTH
            }
            (OfficeCall::BeginRecovery { .. }, OfficeAnswer::Begun(_)) => true,
            (
                OfficeCall::Commit { .. }
                | OfficeCall::Complete { .. }
                | OfficeCall::CommitSync { .. },
                OfficeAnswer::Nothing,
            ) => true,
            _ => false,
        }
    }
}
