//! What the writer asks of the name office.

ghost use Rattle.std.specs.Prelude.{◌≡◌};
ghost use Rattle.writer_core.specs.Transitions.{own_step};
ghost use Rattle.pipe_recovery.specs.Asking.{Asks, IsPut, asked_as, asked_by};

use crate::acting::Acted;
use name_core::{Desk, OfficeAnswer, OfficeCall, OfficeFault};
use writer_core::{Action, Writer};

/// The writer's own step where it asks the office: it is asked, and the writer told its answer.
pub(crate) fn ask<D: Desk>(writer: &mut Writer, office: &mut D) -> Acted
    ensures { Asks D.Desk (own_step writer.old) writer.old writer.new office.old office.new result }
{
    match writer.next() {
        Action::Ask(call) => put(writer, office, &call),
        action => asked_by(&action),
    }
}

/// Puts a call to the office, and tells the writer its answer.
fn put<D: Desk>(writer: &mut Writer, office: &mut D, call: &OfficeCall) -> Acted
    ensures { IsPut D.Desk call.now writer.old writer.new office.old office.new result }
{
    let answer = office.ask(call);
    writer.granted(&answer);
    asked_as(&answer)
}

/// How a call ended that was answered so.
fn asked_as(answer: &Result<OfficeAnswer, OfficeFault>) -> Acted
    ensures { result ≡ asked_as answer.now }
{
    match answer {
        Err(OfficeFault::Memory) => Acted::Memory,
        _ => Acted::Moved,
    }
}

/// How an own step ended that asks nothing.
fn asked_by(action: &Action) -> Acted
    ensures { result ≡ asked_by action.now }
{
    match action {
        Action::Memory => Acted::Memory,
        _ => Acted::Idle,
    }
}
