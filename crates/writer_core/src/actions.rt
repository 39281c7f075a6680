//! What the writer asks of its caller.

use crate::phases::Failure;
use hd_base::{Members, NodeId, Stamp};
use name_core::{OfficeCall, OfficeFault};
use op_headers::Op;
use packet_codec::Packet;

/// What an own step of the writer asks of its caller.
#[derive(Debug, Drop)]
pub enum Action {
    /// Nothing: no rule applies.
    Wait,
    /// Nothing: a command was taken that isn't answered yet, or never.
    Took,
    /// Put this call to the office, and bring its answer back by `Writer::granted`.
    Ask(OfficeCall),
    /// Dial this node and send it this request, and bring back by `Writer::dialled` what came of it.
    Dial { to: NodeId, op: Op },
    /// Send this packet on the writer's connection.
    Send(Packet),
    /// The command with this number, counted from 0 over all commands, is answered.
    Answered { ordinal: u64, answer: ClientAnswer },
    /// No memory was left, and nothing changed.
    Memory,
}

/// What a command is answered.
#[derive(Debug, PartialEq, Eq, Drop)]
pub enum ClientAnswer {
    /// A create or an append: the pipeline stands under this committed stamp.
    Granted {
        stamp: Stamp,
    },
    /// A flush, a sync or a close: these members have so many bytes of the block under this stamp.
    Reached {
        length: u64,
        stamp: Stamp,
        members: Members,
    },
    /// The setup of the new block failed, for this member.
    Abandoned {
        member: NodeId,
    },
    /// Every member was dropped, this one last.
    AllBad {
        member: NodeId,
    },
    /// A block recovery has taken the lease.
    Lost {
        recovery: Stamp,
    },
    /// The office refused.
    Refused(OfficeFault),
}

impl Failure {
    ghost use Rattle.std.specs.Prelude.{◌≡◌};
    ghost use Rattle.writer_core.specs.Transitions.{failure_answer};

    /// What each command is answered.
    pub(crate) fn answer(&self) -> ClientAnswer
        ensures { result ≡ failure_answer self.now }
    {
        match *self {
            Failure::Abandoned { member } => ClientAnswer::Abandoned { member },
            Failure::AllBad { member } => ClientAnswer::AllBad { member },
            Failure::Lost { recovery } => ClientAnswer::Lost { recovery },
            Failure::Refused(fault) => ClientAnswer::Refused(fault),
        }
    }
}
