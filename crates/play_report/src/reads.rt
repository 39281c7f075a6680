//! What was read, in a report.

ghost use Rattle.std.specs.Prelude.{◌≡◌, ◌++◌, [], ◌∷◌, IfOk, OnOk};
ghost use Rattle.play_primaries.specs.ReaderEvents.Hearing.{bytes_read};
ghost use Rattle.play_report.specs.Reads.{fault_told, result_told, state_told, client_read};

use crate::appending::append;
use chunk_sums::crc;
use hd_base::{LinkIn, LinkOut, SumKind};
use play_primaries::{ReadClient, ReadState};
use read_core::ReadFault;
use script_lang::{ReadResult, ReportLine};
use std::alloc::AllocError;

/// Why a read failed. The node's message is copied.
fn fault_told(fault: &ReadFault) -> Result<ReadResult, AllocError>
    ensures { IfOk result (λ told. told ≡ fault_told fault.now) }
{
    match fault {
        ReadFault::Refused { message } => {
            let text = message.duplicate()?;
            Ok(ReadResult::Refused { text })
        }
        ReadFault::BadSum { chunk } => Ok(ReadResult::BadSum { chunk: *chunk }),
        ReadFault::Ended => Ok(ReadResult::Ended),
        ReadFault::Rule { .. }
        | ReadFault::SumCount
        | ReadFault::Unreadable
        | ReadFault::OutOfPlace { .. } => Ok(ReadResult::Malformed),
    }
}

/// The CRC32C of the bytes that were read, or why the read failed.
fn result_told(read: &Result<Vec<u8>, ReadFault>) -> Result<ReadResult, AllocError>
    ensures { IfOk result (λ told. told ≡ result_told (bytes_read read.now)) }
{
    match read {
        Ok(bytes) => {
            let sum = crc(SumKind::Crc32c, bytes.as_slice());
            Ok(ReadResult::Ok { sum })
        }
        Err(fault) => fault_told(fault),
    }
}

/// What a client came to. One that has no result counts as ended.
fn state_told<I: LinkIn, O: LinkOut>(state: &ReadState<I, O>) -> Result<ReadResult, AllocError>
    ensures { IfOk result (λ told. told ≡ state_told state.now) }
{
    match state {
        ReadState::HasRead(read) => result_told(read),
        ReadState::Asks | ReadState::Reads(_) => Ok(ReadResult::Ended),
    }
}

/// Appends the line of a client.
pub(crate) fn push_read<I: LinkIn, O: LinkOut>(
    client: &ReadClient<I, O>,
    out: &mut Vec<ReportLine>,
) -> Result<(), AllocError>
    ensures { OnOk result (out.new.items ≡ out.old.items ++ client_read client.now ∷ []) }
{
    let result = state_told(&client.state)?;
    let line = ReportLine::Read {
        line: client.ask.reader,
        result,
    };
    append(out, line)
}
