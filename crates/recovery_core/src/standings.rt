//! How a primary stands with a member.

ghost use Rattle.std.specs.Prelude.{◌≡◌};
ghost use Rattle.recovery_core.specs.Primaries.{told, is_success, informed, remembers_end, updated, after_heard, is_awaited, is_updated, shuts_after, asked, info_of, updated_node, when_chosen};

use hd_base::{NodeId, ReplicaState, Stamp, Status};
use name_core::Info;
use op_headers::RecoveryAnswer;

/// How a primary stands with a member.
#[derive(Clone, Copy, Debug, PartialEq, Eq)]
pub enum Standing {
    /// Its dial wasn't answered.
    Unreached,
    /// It was sent the INIT, and its answer is awaited.
    Asked,
    /// It told what its replica is; its connection may have ended since.
    Told {
        state: ReplicaState,
        stamp: Stamp,
        length: u64,
        ended: bool,
    },
    /// It takes no further part.
    Out,
    /// It was sent the UPDATE, and its answer is awaited.
    Updating,
    /// It answered SUCCESS to the UPDATE.
    Updated,
}

/// What a primary takes from a member.
#[derive(Debug, Drop, PartialEq, Eq)]
pub enum Heard {
    /// An answer.
    Answer(RecoveryAnswer),
    /// What is no answer.
    Unreadable,
    /// The end of the connection.
    End,
}

impl Standing {
    /// How it stands with a member to which the INIT is sent, by whether the dial was answered.
    pub fn asked(answered: bool) -> Standing
        ensures { result ≡ asked answered }
    {
        if answered {
            Standing::Asked
        } else {
            Standing::Unreached
        }
    }

    /// How it stands with the member after this.
    pub fn after(self, heard: &Heard) -> Standing
        ensures { result ≡ after_heard self heard.now }
    {
        match self {
            Standing::Asked => informed(heard),
            Standing::Updating => updated(heard),
            Standing::Told {
                state,
                stamp,
                length,
                ended,
            } => Standing::Told {
                state,
                stamp,
                length,
                ended: remembers_end(heard, ended),
            },
            Standing::Unreached | Standing::Out | Standing::Updated => self,
        }
    }

    /// Whether the connection is shut when the next thing was taken from the member: the answer to the UPDATE.
    pub fn shuts_after(&self) -> bool
        ensures { result ≡ shuts_after self.now }
    {
        matches!(self, Standing::Updating)
    }

    /// Whether it answered SUCCESS to the UPDATE.
    pub(crate) fn is_updated(&self) -> bool
        ensures { result ≡ is_updated self.now }
    {
        matches!(self, Standing::Updated)
    }

    /// Whether an answer of the member is awaited.
    pub fn is_awaited(&self) -> bool
        ensures { result ≡ is_awaited self.now }
    {
        matches!(self, Standing::Asked | Standing::Updating)
    }

    /// What the member told of its replica.
    pub(crate) fn info(self, node: NodeId) -> Option<Info>
        ensures { result ≡ info_of node self }
    {
        match self {
            Standing::Told {
                state,
                stamp,
                length,
                ..
            } => Some(Info {
                node,
                state,
                stamp,
                length,
            }),
            _ => None,
        }
    }

    /// The member, where it was updated.
    pub(crate) fn updated_node(self, node: NodeId) -> Option<NodeId>
        ensures { result ≡ updated_node node self }
    {
        match self {
            Standing::Updated => Some(node),
            _ => None,
        }
    }

    /// How it stands with the member once it was chosen and sent the UPDATE.
    pub(crate) fn when_chosen(self) -> Standing
        ensures { result ≡ when_chosen self }
    {
        match self {
            Standing::Told { ended: false, .. } => Standing::Updating,
            _ => Standing::Out,
        }
    }
}

/// How it stands with a member after this answer to the INIT.
fn informed(heard: &Heard) -> Standing
    ensures { result ≡ informed heard.now }
{
    match heard {
        Heard::Answer(answer) if is_success(answer.status) => told(answer.info),
        _ => Standing::Out,
    }
}

/// What the member told of its replica, if it did.
fn told(info: Option<(ReplicaState, Stamp, u64)>) -> Standing
    ensures { result ≡ told info }
{
    match info {
        Some((state, stamp, length)) => Standing::Told {
            state,
            stamp,
            length,
            ended: false,
        },
        None => Standing::Out,
    }
}

/// Whether the connection has ended, also by what can't be read.
fn remembers_end(heard: &Heard, ended: bool) -> bool
    ensures { result ≡ remembers_end heard.now ended }
{
    match heard {
        Heard::Answer(_) => ended,
        Heard::Unreadable | Heard::End => true,
    }
}

/// How it stands with a member after this answer to the UPDATE.
fn updated(heard: &Heard) -> Standing
    ensures { result ≡ updated heard.now }
{
    match heard {
        Heard::Answer(answer) if is_success(answer.status) => Standing::Updated,
        _ => Standing::Out,
    }
}

/// Whether a status is SUCCESS.
fn is_success(status: Status) -> bool
    ensures { result ≡ is_success status }
{
    matches!(status, Status::Success)
}
