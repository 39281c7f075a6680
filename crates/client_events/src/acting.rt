//! A writer's own step that asks nothing and dials nothing.

ghost use Rattle.std.specs.Prelude.{◌≡◌, IfOk};
ghost use Rattle.writer_core.specs.Transitions.{own_step};
ghost use Rattle.member_events.specs.Roads.{RoadsPass};
ghost use Rattle.client_events.specs.Acting.{said_by, IsStepped, AnswersIf};
ghost use Rattle.client_events.specs.Events.{ActShows, FitsActed};
ghost use Rattle.client_events.specs.Showing.{PipeIsKnown};

use crate::faults::ClientFault;
use crate::pipes::Pipe;
use crate::sending::followed;
use hd_base::{LinkIn, LinkOut, Roads};
use std::alloc::Global;
use writer_core::{Action, ClientAnswer, Writer};

/// What a step of a writer leaves.
#[derive(Drop)]
pub struct Acted<I, O> {
    /// The writer's connection.
    pub pipe: Pipe<I, O>,
    /// What it answered, if it did.
    pub said: Option<Said>,
}

/// What a command is answered.
#[derive(Debug, PartialEq, Eq, Drop)]
pub struct Said {
    /// The number of the command, counted from 0.
    pub ordinal: u64,
    /// The answer.
    pub answer: ClientAnswer,
}

/// A writer takes a command that it was given, sends a packet, or answers.
pub fn act<I: LinkIn, O: LinkOut, R: Roads<Inward = I, Outward = O>>(
    alloc: Global,
    roads: &mut R,
    writer: &mut Writer,
    pipe: Pipe<I, O>,
) -> Result<Acted<I, O>, ClientFault>
    requires { PipeIsKnown (R.plain roads.old) pipe }
    ensures shows { ActShows R.Roads I.LinkIn O.LinkOut writer.old writer.new pipe roads.old roads.new result }
    ensures fits { FitsActed writer.old writer.new pipe result }
    ensures pass { RoadsPass R.Roads roads.old roads.new }
    ensures known { IfOk result (λ left. PipeIsKnown (R.plain roads.new) left.pipe) }
{
    let action = stepped(writer)?;
    let connected = writer.connected();
    let pipe = followed(alloc, roads, connected, pipe, &action)?;
    let said = said_by(action);
    Ok(Acted { pipe, said })
}

/// A writer's own step.
pub(crate) fn stepped(writer: &mut Writer) -> Result<Action, ClientFault>
    ensures { IsStepped (own_step writer.old) writer.new result }
{
    match writer.next() {
        Action::Memory => Err(ClientFault::Memory),
        action => Ok(action),
    }
}

/// What an action answers.
pub(crate) fn said_by(action: Action) -> Option<Said>
    ensures { result ≡ said_by action }
{
    match action {
        Action::Answered { ordinal, answer } => Some(Said { ordinal, answer }),
        Action::Wait | Action::Took | Action::Memory => None,
        Action::Ask(_call) => None,
        Action::Dial { to: _to, op: _op } => None,
        Action::Send(_packet) => None,
    }
}

/// The own step of a writer that is due to answer a command, if it is.
pub(crate) fn answer_if(writer: &mut Writer, due: bool) -> Result<Option<Said>, ClientFault>
    ensures { AnswersIf due writer.old writer.new result }
{
    if !due {
        return Ok(None);
    }
    let action = stepped(writer)?;
    Ok(said_by(action))
}
