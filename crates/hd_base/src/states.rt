//! Replica states and reply statuses, with their numbers in messages.

ghost use Rattle.std.specs.Prelude.{◌≡◌, ◌<◌, ◌≤◌, Some, IfSome, IsNone, ◌↔◌};
ghost use Rattle.hd_base.specs.Wire.{status_number, status_with, decoded_status, state_number, state_name, IsStatus};

use std::fmt;

/// The state of a replica, in the order of its numbers 0 to 4 in messages (HDFS `ReplicaState`).
#[derive(Clone, Copy, Debug, PartialEq, Eq)]
pub enum ReplicaState {
    /// Finalized: complete, of settled length.
    Finalized,
    /// Replica being written.
    Rbw,
    /// Replica waiting to be recovered, as a restart found it.
    Rwr,
    /// Replica under recovery.
    Rur,
    /// Temporary.
    Temporary,
}

impl ReplicaState {
    /// The state's number in messages.
    pub fn number(&self) -> u32
        ensures { result ≡ state_number self.now }
    {
        match self {
            ReplicaState::Finalized => 0,
            ReplicaState::Rbw => 1,
            ReplicaState::Rwr => 2,
            ReplicaState::Rur => 3,
            ReplicaState::Temporary => 4,
        }
    }

    /// The state's name in reports.
    pub fn name(&self) -> &'static str
        ensures { result.now ≡ state_name self.now }
    {
        match self {
            ReplicaState::Finalized => "FINALIZED",
            ReplicaState::Rbw => "RBW",
            ReplicaState::Rwr => "RWR",
            ReplicaState::Rur => "RUR",
            ReplicaState::Temporary => "TEMPORARY",
        }
    }

    /// The state with this number in messages, `None` past 4.
    pub fn from_number(number: u32) -> Option<ReplicaState>
        ensures found { IfSome result (λ state. state_number state ≡ number) }
        ensures none { IsNone result ↔ (4 < number) }
    {
        match number {
            0 => Some(ReplicaState::Finalized),
            1 => Some(ReplicaState::Rbw),
            2 => Some(ReplicaState::Rwr),
            3 => Some(ReplicaState::Rur),
            4 => Some(ReplicaState::Temporary),
            _ => None,
        }
    }
}

impl fmt::Display for ReplicaState {
    ghost output = { λ state. Some (state_name state) };

    fn fmt<W: fmt::Write>(&self, f: &mut fmt::Formatter<W>) -> fmt::Result {
        f.write_str(self.name())
    }
}

/// The status of a reply, in the order of its numbers 0 to 7 in messages (HDFS `Status`). `Other`
/// keeps a number that isn't listed; no `Other` has a number from 0 to 7.
#[derive(Clone, Copy, Debug, PartialEq, Eq)]
pub enum Status {
    Success,
    Error,
    ErrorChecksum,
    ErrorInvalid,
    ErrorExists,
    ErrorAccessToken,
    ChecksumOk,
    ErrorUnsupported,
    Other(u32),
}

impl Status {
    /// The status's number in messages.
    pub fn number(&self) -> u32
        ensures { result ≡ status_number self.now }
    {
        match self {
            Status::Success => 0,
            Status::Error => 1,
            Status::ErrorChecksum => 2,
            Status::ErrorInvalid => 3,
            Status::ErrorExists => 4,
            Status::ErrorAccessToken => 5,
            Status::ChecksumOk => 6,
            Status::ErrorUnsupported => 7,
            Status::Other(number) => *number,
        }
    }

    /// The status with this number in messages.
    pub fn from_number(number: u32) -> Status
        ensures value { result ≡ status_with number }
        ensures number { status_number result ≡ number }
        ensures listed { IsStatus result }
    {
        match number {
            0 => Status::Success,
            1 => Status::Error,
            2 => Status::ErrorChecksum,
            3 => Status::ErrorInvalid,
            4 => Status::ErrorExists,
            5 => Status::ErrorAccessToken,
            6 => Status::ChecksumOk,
            7 => Status::ErrorUnsupported,
            _ => Status::Other(number),
        }
    }

    /// The status that a varint of a message stands for: an enum takes its low 32 bits.
    #[tactic(auto, unfolding(crate::specs::Wire::decoded_status))]
    pub fn from_varint(value: u64) -> Status
        ensures value { result ≡ decoded_status value }
        ensures listed { IsStatus result }
    {
        Status::from_number((value % (1 << 32)) as u32)
    }
}
