//! The write request of a member.

ghost use Rattle.std.specs.Prelude.{◌≡◌, ◌≤◌, ◌↔◌, length, option_map, IfOk, IsTrue};
ghost use Rattle.member_core.specs.Requests.{
  setup_with,
  unless_other,
  rule_for,
  named_setup,
  named_rule,
  setup_event,
  request_event,
  closes,
  mirror_request,
  first_address,
  failing,
  response_of,
};

use crate::effects::SetupAnswer;
use ack_codec::Response;
use hd_base::{ByteList, ConnId, Status, SumRule};
use itoa::Buffer;
use op_headers::{NodeRef, Stage, Targets, WriteOp};
use replica_core::Event;
use request_refusals::{RequestRefusal, is_in_pool, rule_with};
use std::alloc::{AllocError, Global};

/// The most members that a pipeline has below one.
pub const MAX_BELOW: usize = 15;

/// The greatest port.
pub const MAX_PORT: u32 = 65_535;

/// What a write request sets up (HDFS `BlockConstructionStage`).
#[derive(Clone, Copy, Debug, PartialEq, Eq)]
pub enum SetupKind {
    /// A new block (HDFS `PIPELINE_SETUP_CREATE`).
    Create,
    /// An append (HDFS `PIPELINE_SETUP_APPEND`).
    Append,
    /// An append whose pipeline failed (HDFS `PIPELINE_SETUP_APPEND_RECOVERY`).
    AppendRecovery,
    /// A pipeline that failed amid the stream (HDFS `PIPELINE_SETUP_STREAMING_RECOVERY`).
    StreamRecovery,
    /// A pipeline that failed at the close (HDFS `PIPELINE_CLOSE_RECOVERY`).
    CloseRecovery,
}

/// The event that a write request is at a replica with this rule of sums, which is `None` for an absent one; or
/// why the member refuses the request before it asks the replica: for its block pool, its stage, its sums, or too
/// many members, tried in this order.
#[tactic(auto, unfolding(crate::specs::Requests::request_event))]
pub fn request_event(
    conn: ConnId,
    op: &WriteOp,
    held: Option<SumRule>,
) -> Result<Event, RequestRefusal>
    ensures { result ≡ request_event conn op.now held }
{
    if !is_in_pool(&op.block) {
        return Err(RequestRefusal::Pool);
    }
    let kind = named_setup(op.stage)?;
    let sums = named_rule(op, held)?;
    if op.targets.len() > MAX_BELOW {
        return Err(RequestRefusal::TooMany {
            targets: op.targets.len() as u64,
        });
    }
    Ok(setup_event(conn, op, sums, kind))
}

/// The setup of a request with this stage, if it is one.
fn setup_with(stage: u32) -> Option<SetupKind>
    ensures { result ≡ setup_with stage }
{
    match Stage::from_number(stage)? {
        Stage::PipelineSetupAppend => Some(SetupKind::Append),
        Stage::PipelineSetupAppendRecovery => Some(SetupKind::AppendRecovery),
        Stage::PipelineSetupStreamingRecovery => Some(SetupKind::StreamRecovery),
        Stage::PipelineCloseRecovery => Some(SetupKind::CloseRecovery),
        Stage::PipelineSetupCreate => Some(SetupKind::Create),
        _ => None,
    }
}

/// The setup of a request with this stage.
fn named_setup(stage: u32) -> Result<SetupKind, RequestRefusal>
    ensures { result ≡ named_setup stage (setup_with stage) }
{
    setup_with(stage).ok_or(RequestRefusal::Stage { stage })
}

/// Whether the request is of the recovery of a close.
pub(crate) fn closes(op: &WriteOp) -> bool
    ensures { result ≡ closes op.now }
{
    matches!(setup_with(op.stage), Some(SetupKind::CloseRecovery))
}

/// This rule, where the replica has none or the same.
fn unless_other(held: Option<SumRule>, rule: SumRule) -> Option<SumRule>
    ensures { result ≡ unless_other held rule }
{
    match held {
        None => Some(rule),
        Some(held)
            if held.kind().number() == rule.kind().number() && held.chunk() == rule.chunk() => Some(
            rule,
        ),
        Some(_) => None,
    }
}

/// The rule of sums that a request asks for, where there is such a rule and the replica has no other.
#[tactic(auto, unfolding(crate::specs::Requests::rule_for))]
fn rule_for(op: &WriteOp, held: Option<SumRule>) -> Option<SumRule>
    ensures { result ≡ rule_for op.now held }
{
    unless_other(held, rule_with(op.kind, op.chunk)?)
}

/// The rule of sums that a request asks for.
fn named_rule(op: &WriteOp, held: Option<SumRule>) -> Result<SumRule, RequestRefusal>
    ensures { result ≡ named_rule op.now (rule_for op.now held) }
{
    rule_for(op, held).ok_or(RequestRefusal::Checksum {
        kind: op.kind,
        chunk: op.chunk,
    })
}

/// The event that a setup is.
fn setup_event(conn: ConnId, op: &WriteOp, sums: SumRule, kind: SetupKind) -> Event
    ensures { result ≡ setup_event conn op.now sums kind }
{
    let (stamp, named, new) = (op.block.stamp, op.block.stamp, op.latest);
    let length = op.min;
    match kind {
        SetupKind::Create => Event::Create { conn, stamp, sums },
        SetupKind::Append => Event::Append {
            conn,
            named,
            new,
            length,
        },
        SetupKind::AppendRecovery => Event::AppendRecovery {
            conn,
            named,
            new,
            length,
        },
        SetupKind::StreamRecovery => Event::StreamRecovery {
            conn,
            named,
            new,
            min: op.min,
            max: op.max,
        },
        SetupKind::CloseRecovery => Event::CloseRecovery { named, new, length },
    }
}

/// The request that goes on to the mirror: without the first of the targets, from this member. `None` where there is
/// no target, or its port is none.
#[tactic(auto, unfolding(crate::specs::Requests::mirror_request))]
pub fn mirror_request(
    alloc: Global,
    source: NodeRef,
    op: &WriteOp,
) -> Result<Option<WriteOp>, AllocError>
    ensures { IfOk result (λ request. request ≡ mirror_request source op.now) }
{
    let [mirror, rest @ ..] = op.targets.as_slice() else {
        return Ok(None);
    };
    if mirror.xfer > MAX_PORT {
        return Ok(None);
    }
    let mut request = op.duplicate()?;
    request.targets = listed(alloc, rest)?;
    request.source = Some(source);
    Ok(Some(request))
}

/// These nodes once more.
fn listed(alloc: Global, nodes: &[NodeRef]) -> Result<Targets, AllocError>
    ensures { IfOk result (λ list. list ≡ nodes.now) }
{
    let mut list = Targets::new(alloc);
    for node in nodes {
        list.push(node.duplicate()?)?;
    }
    Ok(list)
}

/// The response that an answer to a request is: after SUCCESS it names no member; an error names the first bad member
/// or says in its message why this one refuses.
#[tactic(auto, unfolding(crate::specs::Requests::response_of))]
pub fn response(alloc: Global, op: &WriteOp, answer: SetupAnswer) -> Result<Response, AllocError>
    ensures { IfOk result (λ response. response ≡ response_of op.now answer) }
{
    let empty = ByteList::from_vec(Vec::new(alloc));
    let none = ByteList::from_vec(Vec::new(alloc));
    match answer {
        SetupAnswer::Success => Ok(Response {
            status: Status::Success,
            first_bad: empty,
            sums_from: None,
            message: none,
        }),
        SetupAnswer::Unreached => {
            let mirror = first_address(alloc, op.targets.as_slice())?;
            Ok(failing(mirror, none))
        }
        SetupAnswer::Below { first_bad } => Ok(failing(first_bad, none)),
        SetupAnswer::Refused(refusal) => Ok(failing(empty, refusal.text(alloc)?)),
    }
}

/// A response with this first bad member and this message.
fn failing(first_bad: ByteList, message: ByteList) -> Response
    ensures { result ≡ failing first_bad message }
{
    Response {
        status: Status::Error,
        first_bad,
        sums_from: None,
        message,
    }
}

/// The address of the first node, IP:PORT.
fn first_address(alloc: Global, nodes: &[NodeRef]) -> Result<ByteList, AllocError>
    ensures { IfOk result (λ address. address ≡ first_address nodes.now) }
{
    let mut address = Vec::new(alloc);
    if let [mirror, ..] = nodes {
        let mut buffer = Buffer::new();
        address.extend_from_slice(mirror.ip.as_slice())?;
        address.push(b':')?;
        address.extend_from_slice(buffer.format(mirror.xfer).as_bytes())?;
    }
    Ok(ByteList::from_vec(address))
}
