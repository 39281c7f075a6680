//! What lines that read or recover came to, in a report, in the order of the lines.

ghost use Rattle.std.specs.Prelude.{◌≡◌, ◌++◌, [], ◌∷◌, map, true, IfOk, OnOk};
ghost use Rattle.play_report.specs.Reads.{client_read};
ghost use Rattle.play_scripts.specs.Reads.{is_read};
ghost use Rattle.play_report.specs.Recoveries.{
  recovery_told,
  led_told,
  client_recovery,
  first_if,
  rest_if,
  recovers,
  next_lines,
  merged,
};

use crate::appending::append;
use crate::reads::push_read;
use crate::results::office_refusal;
use hd_base::{LinkIn, LinkOut};
use play_primaries::{PrimaryClient, PrimaryState, ReadClient};
use recovery_core::Recovered;
use script_lang::{Instruction, OfficeRefusal, RecoveryResult, ReportLine, ScriptLine};
use std::alloc::AllocError;

/// What a recovery came to.
fn recovery_told(led: &Recovered) -> RecoveryResult
    ensures { result ≡ recovery_told led.now }
{
    match led {
        Recovered::Done {
            id,
            length,
            members,
        } => RecoveryResult::Ok {
            id: *id,
            length: *length,
            members: members.duplicate(),
        },
        Recovered::Nothing => RecoveryResult::Nothing,
        Recovered::Unequal { a, b } => RecoveryResult::Unequal {
            first: *a,
            second: *b,
        },
        Recovered::NoneUpdated => RecoveryResult::NoneUpdated,
        Recovered::OfficeRefused(fault) => RecoveryResult::Refused(office_refusal(fault)),
        Recovered::Memory => RecoveryResult::Refused(OfficeRefusal::Memory),
    }
}

/// What a client came to. One that has no result counts as ended: its node didn't run, or has stopped.
fn led_told<I: LinkIn, O: LinkOut>(state: &PrimaryState<I, O>) -> RecoveryResult
    ensures { result ≡ led_told state.now }
{
    match state {
        PrimaryState::HasLed(led) => recovery_told(led),
        PrimaryState::New | PrimaryState::Leads(_) | PrimaryState::Stopped => RecoveryResult::Ended,
    }
}

/// Appends the line of a client.
fn push_recovery<I: LinkIn, O: LinkOut>(
    client: &PrimaryClient<I, O>,
    out: &mut Vec<ReportLine>,
) -> Result<(), AllocError>
    ensures { OnOk result (out.new.items ≡ out.old.items ++ client_recovery client.now ∷ []) }
{
    let line = ReportLine::Recovery {
        line: client.recovery.primary,
        result: led_told(&client.state),
    };
    append(out, line)
}

/// Appends the line of the first client that reads, if there is one. Answers those behind it.
fn push_next_read<'a, I: LinkIn, O: LinkOut>(
    clients: &'a [ReadClient<I, O>],
    out: &mut Vec<ReportLine>,
) -> Result<&'a [ReadClient<I, O>], AllocError>
    ensures lines { OnOk result (out.new.items ≡
        out.old.items ++ first_if true (map client_read clients.now)) }
    ensures rest { IfOk result (λ rest. rest.now ≡ rest_if true clients.now) }
{
    let Some((client, rest)) = clients.split_first() else {
        return Ok(clients);
    };
    push_read(client, out)?;
    Ok(rest)
}

/// Appends the line of the first client that recovers, if there is one. Answers those behind it.
fn push_next_recovery<'a, I: LinkIn, O: LinkOut>(
    clients: &'a [PrimaryClient<I, O>],
    out: &mut Vec<ReportLine>,
) -> Result<&'a [PrimaryClient<I, O>], AllocError>
    ensures lines { OnOk result (out.new.items ≡
        out.old.items ++ first_if true (map client_recovery clients.now)) }
    ensures rest { IfOk result (λ rest. rest.now ≡ rest_if true clients.now) }
{
    let Some((client, rest)) = clients.split_first() else {
        return Ok(clients);
    };
    push_recovery(client, out)?;
    Ok(rest)
}

/// Appends the line of the client whose turn it is behind a line of the script, if this reads or recovers. Answers the
/// clients whose lines are still to come.
fn push_next<'a, 'b, I: LinkIn, O: LinkOut>(
    reads: &'a [ReadClient<I, O>],
    recoveries: &'b [PrimaryClient<I, O>],
    line: &ScriptLine,
    out: &mut Vec<ReportLine>,
) -> Result<(&'a [ReadClient<I, O>], &'b [PrimaryClient<I, O>]), AllocError>
    ensures lines { OnOk result (out.new.items ≡ out.old.items ++
        next_lines (map client_read reads.now) (map client_recovery recoveries.now) line.now) }
    ensures reads { IfOk result (λ rest. rest.0.now ≡ rest_if (is_read line.now.instruction) reads.now) }
    ensures recoveries { IfOk result (λ rest. rest.1.now ≡ rest_if (recovers line.now) recoveries.now) }
{
    match line.instruction {
        Instruction::Read { .. } => {
            let reads = push_next_read(reads, out)?;
            Ok((reads, recoveries))
        }
        Instruction::Recover { .. } => {
            let recoveries = push_next_recovery(recoveries, out)?;
            Ok((reads, recoveries))
        }
        _ => Ok((reads, recoveries)),
    }
}

/// Appends what the lines' clients have read and recovered, in the order of the lines.
pub(crate) fn push_asked<I: LinkIn, O: LinkOut>(
    reads: &[ReadClient<I, O>],
    recoveries: &[PrimaryClient<I, O>],
    lines: &[ScriptLine],
    out: &mut Vec<ReportLine>,
) -> Result<(), AllocError>
    ensures { OnOk result (out.new.items ≡ out.old.items ++
        merged (map client_read reads.now) (map client_recovery recoveries.now) lines.now) }
{
    let mut reads = reads;
    let mut recoveries = recoveries;
    for line in lines {
        let (next_reads, next_recoveries) = push_next(reads, recoveries, line, out)?;
        reads = next_reads;
        recoveries = next_recoveries;
    }
    Ok(())
}
