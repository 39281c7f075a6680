//! What a command's answer is in a report.

ghost use Rattle.std.specs.Prelude.{◌≡◌};
ghost use Rattle.std.specs.Option.{option_copied};
ghost use Rattle.play_report.specs.Results.{office_refusal, failure_of, setup_result, flush_result, answer_of};

use name_core::OfficeFault;
use script_lang::{Answer, Failure, FlushResult, Instruction, OfficeRefusal, SetupResult};
use writer_core::ClientAnswer;

/// The office's refusal, without what it told beside.
pub(crate) fn office_refusal(fault: &OfficeFault) -> OfficeRefusal
    ensures { result ≡ office_refusal fault.now }
{
    match fault {
        OfficeFault::Known => OfficeRefusal::Known,
        OfficeFault::Unknown => OfficeRefusal::Unknown,
        OfficeFault::NotOpen => OfficeRefusal::NotOpen,
        OfficeFault::NotClosed => OfficeRefusal::NotClosed,
        OfficeFault::LeaseLost { .. } => OfficeRefusal::LeaseLost,
        OfficeFault::OldStamp { .. } => OfficeRefusal::OldStamp,
        OfficeFault::OldRecovery { .. } => OfficeRefusal::OldRecovery,
        OfficeFault::TooLong { .. } => OfficeRefusal::TooLong,
        OfficeFault::Memory => OfficeRefusal::Memory,
    }
}

/// Why a command failed. An answer of another kind isn't the command's, which was never answered then.
fn failure_of(told: &ClientAnswer) -> Failure
    ensures { result ≡ failure_of told.now }
{
    match told {
        ClientAnswer::Abandoned { member } => Failure::Abandoned { node: *member },
        ClientAnswer::AllBad { member } => Failure::AllBad { node: *member },
        ClientAnswer::Lost { recovery } => Failure::Lost {
            recovery: *recovery,
        },
        ClientAnswer::Refused(fault) => Failure::Refused(office_refusal(fault)),
        ClientAnswer::Granted { .. } | ClientAnswer::Reached { .. } => Failure::Waiting,
    }
}

/// What became of a create or an append.
fn setup_result(told: Option<&ClientAnswer>) -> SetupResult
    ensures { result ≡ setup_result (option_copied told.entry) }
{
    match told {
        Some(ClientAnswer::Granted { stamp }) => SetupResult::Ok { stamp: *stamp },
        Some(told) => SetupResult::Failed(failure_of(told)),
        None => SetupResult::Failed(Failure::Waiting),
    }
}

/// What became of an hflush, an hsync or a close.
fn flush_result(told: Option<&ClientAnswer>) -> FlushResult
    ensures { result ≡ flush_result (option_copied told.entry) }
{
    match told {
        Some(
            ClientAnswer::Reached {
                length,
                stamp,
                members,
            },
        ) => FlushResult::Ok {
            length: *length,
            stamp: *stamp,
            members: members.duplicate(),
        },
        Some(told) => FlushResult::Failed(failure_of(told)),
        None => FlushResult::Failed(Failure::Waiting),
    }
}

/// What a report tells of a line's command, to which this was answered; nothing of other lines.
pub(crate) fn answer_of(instruction: &Instruction, told: Option<&ClientAnswer>) -> Option<Answer>
    ensures { result ≡ answer_of instruction.now (option_copied told.entry) }
{
    match instruction {
        Instruction::Create { .. } => Some(Answer::Create(setup_result(told))),
        Instruction::Append { .. } => Some(Answer::Append(setup_result(told))),
        Instruction::Hflush { .. } => Some(Answer::Hflush(flush_result(told))),
        Instruction::Hsync { .. } => Some(Answer::Hsync(flush_result(told))),
        Instruction::Close { .. } => Some(Answer::Close(flush_result(told))),
        _ => None,
    }
}
