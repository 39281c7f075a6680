//! The completion of a block by its writer.

ghost use Rattle.std.specs.Prelude.{◌≡◌};
ghost use Rattle.client_events.specs.Acting.{AnswersIf};
ghost use Rattle.client_events.specs.Completing.{put_as, Puts, is_completed};
ghost use Rattle.client_events.specs.Events.{CompleteShows, FitsCompleted};

use crate::acting::{Said, answer_if, said_by, stepped};
use crate::faults::ClientFault;
use name_core::{Desk, OfficeAnswer, OfficeCall, OfficeFault};
use writer_core::{Action, Phase, Writer};

/// A writer whose packets are all acked asks the office to complete its block, and answers the close once it is
/// completed.
pub fn complete<D: Desk>(office: &mut D, writer: &mut Writer) -> Result<Option<Said>, ClientFault>
    ensures shows { CompleteShows D.Desk writer.old writer.new office.old office.new result }
    ensures fits { FitsCompleted writer.old writer.new result }
{
    match stepped(writer)? {
        Action::Ask(call) => {
            put(office, writer, &call)?;
            closed(writer)
        }
        action => Ok(said_by(action)),
    }
}

/// Puts a call to the office, and tells the writer its answer.
fn put<D: Desk>(office: &mut D, writer: &mut Writer, call: &OfficeCall) -> Result<(), ClientFault>
    ensures { Puts D.Desk call.now writer.old writer.new office.old office.new result }
{
    let answer = office.ask(call);
    writer.granted(&answer);
    put_as(&answer)
}

/// How a call ended that was answered so.
fn put_as(answer: &Result<OfficeAnswer, OfficeFault>) -> Result<(), ClientFault>
    ensures { result ≡ put_as answer.now }
{
    match answer {
        Err(OfficeFault::Memory) => Err(ClientFault::Memory),
        _ => Ok(()),
    }
}

/// Answers the close, where the block is completed.
fn closed(writer: &mut Writer) -> Result<Option<Said>, ClientFault>
    ensures { AnswersIf (is_completed writer.old.phase) writer.old writer.new result }
{
    let due = is_completed(writer.phase());
    answer_if(writer, due)
}

/// Whether the office has completed the block.
fn is_completed(phase: Phase) -> bool
    ensures { result ≡ is_completed phase }
{
    matches!(phase, Phase::Completed)
}
