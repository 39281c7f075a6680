//! What acks and answers say of the members.

ghost use Rattle.std.specs.Prelude.{if◌then◌else◌, Some, position, take, ◌≡◌, ◌==◌, ◌≤◌, ◌<◌, [], not, filter, length, option_copied, slice_get};
ghost use Rattle.packet_codec.specs.declared.packets.Packet.{Packet};
ghost use Rattle.writer_core.specs.Phases.{remedy_after, remedy_in, remedy_at_ack, is_success, last_bad};
ghost use Rattle.writer_core.specs.Phases.{replies_verdict, ack_verdict, bad_place, without};
ghost use Rattle.writer_core.specs.Transitions.{wants_pipeline};

use crate::phases::{Phase, Remedy, Setup, Verdict};
use ack_codec::Ack;
use hd_base::{MAX_MEMBERS, Members, NodeId, Status};

impl Setup {
    /// What is to be done when a pipeline fails while it is set up so.
    pub(crate) fn remedy(&self) -> Remedy
        ensures { result ≡ remedy_after self.now }
    {
        match self {
            Setup::Create => Remedy::Abandon,
            Setup::Append | Setup::AppendRecovery => Remedy::Recover(Setup::AppendRecovery),
            Setup::StreamRecovery => Remedy::Recover(Setup::StreamRecovery),
            Setup::CloseRecovery => Remedy::Recover(Setup::CloseRecovery),
        }
    }
}

impl Phase {
    /// What is to be done when the writer's connection fails, `None` where it has no connection.
    pub(crate) fn remedy(&self) -> Option<Remedy>
        ensures { result ≡ remedy_in self.now }
    {
        match self {
            Phase::Accepted {
                setup: Setup::CloseRecovery,
                ..
            } => None,
            Phase::Requested { setup, .. } | Phase::Accepted { setup, .. } => Some(setup.remedy()),
            Phase::Opened => Some(Remedy::Recover(Setup::AppendRecovery)),
            Phase::Streaming { .. } => Some(Remedy::Recover(Setup::StreamRecovery)),
            Phase::Closing => Some(Remedy::Recover(Setup::CloseRecovery)),
            _ => None,
        }
    }

    /// The same when an ack is taken, `None` also where a request waits for its answer.
    pub(crate) fn remedy_at_ack(&self) -> Option<Remedy>
        ensures { result ≡ remedy_at_ack self.now }
    {
        match self {
            Phase::Requested { .. } => None,
            _ => self.remedy(),
        }
    }

    /// Whether a pipeline is wanted and wasn't dialled yet.
    pub(crate) fn wants_pipeline(&self) -> bool
        ensures { result ≡ wants_pipeline self.now }
    {
        matches!(self, Phase::Wanted { .. } | Phase::Stamped { .. })
    }
}

/// Whether a reply or an answer is SUCCESS.
pub(crate) fn is_success(status: Status) -> bool
    ensures { result ≡ is_success status }
{
    matches!(status, Status::Success)
}

/// The place of the last reply that isn't SUCCESS.
fn last_bad(replies: &[Status]) -> Option<usize>
    ensures { result ≡ last_bad replies.now }
{
    let mut last = None;
    for (i, reply) in replies.iter().enumerate() {
        last = last_bad_with(last, i, *reply);
    }
    last
}

/// The same with this reply behind those before.
fn last_bad_with(last: Option<usize>, i: usize, reply: Status) -> Option<usize>
    ensures { result ≡ (if is_success reply then last else Some i) }
{
    if is_success(reply) { last } else { Some(i) }
}

/// What the replies of so many members say.
fn verdict_of(members: usize, replies: &[Status]) -> Verdict
    ensures { result ≡ replies_verdict members replies.now }
{
    if replies.is_empty() || replies.len() > members {
        return Verdict::Bad { index: 0 };
    }
    match last_bad(replies) {
        Some(index) => Verdict::Bad { index },
        None if replies.len() == members => Verdict::Good,
        None => Verdict::Bad { index: 0 },
    }
}

/// What an ack says where the oldest packet that isn't acked, if there is one, has this number.
pub(crate) fn verdict(oldest: Option<i64>, members: usize, ack: &Ack) -> Verdict
    ensures { result ≡ ack_verdict oldest members ack.now }
{
    match oldest {
        Some(seqno) if seqno == ack.seqno => verdict_of(members, ack.replies.as_slice()),
        _ => Verdict::Bad { index: 0 },
    }
}

/// The place of the member that is named bad, 0 where none is.
pub(crate) fn bad_place(members: &Members, bad: Option<NodeId>) -> usize
    ensures { result ≡ bad_place members.now bad }
{
    match bad {
        Some(bad) => place_in(members.as_slice(), bad).unwrap_or(0),
        None => 0,
    }
}

/// The place of a node among others.
fn place_in(nodes: &[NodeId], node: NodeId) -> Option<usize>
    ensures { result ≡ position (λ n. n.0 == node.0) nodes.now }
{
    nodes.iter().position(|other| other.0 == node.0)
}

/// The members without this one.
pub(crate) fn without(members: &Members, bad: NodeId) -> Members
    ensures { result ≡ without members.now bad }
{
    let (kept, count) = others(members.as_slice(), bad);
    let Some(left) = Members::new(&kept[..count]) else {
        unreachable!()
    };
    left
}

/// The nodes but this one, and how many they are.
fn others(nodes: &[NodeId], bad: NodeId) -> ([NodeId; MAX_MEMBERS], usize)
    requires { length nodes.now ≤ MAX_MEMBERS }
    ensures others { take result.1 result.0 ≡ without nodes.now bad }
    ensures few { result.1 ≤ MAX_MEMBERS }
{
    let mut kept = [NodeId(0); MAX_MEMBERS];
    let mut count = 0;
    for node in nodes {
        if node.0 != bad.0 {
            kept[count] = *node;
            count += 1;
        }
    }
    (kept, count)
}

/// No member.
pub(crate) fn no_members() -> Members
    ensures { result ≡ [] }
{
    let Some(none) = Members::new(&[]) else {
        unreachable!()
    };
    none
}
