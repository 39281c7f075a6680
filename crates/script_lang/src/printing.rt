//! Lines of reports, printed.

ghost use Rattle.std.specs.Prelude.{◌≡◌, ◌++◌, ◌∷◌, [], map, codes, decimal, IfOk, OnOk, OnErr};
ghost use Rattle.script_lang.specs.Reports.{spaced, words_text, listed, members_text, sum_text, refusal_name as name_of_refusal, sum_words, failure_words, setup_words, flush_words, answer_words, read_words, recovery_words, line_words, printed};

use crate::report::{
    Answer, Failure, FlushResult, OfficeRefusal, ReadResult, RecoveryResult, ReportLine,
    SetupResult,
};
use hd_base::{Members, NodeId};
use itoa::Buffer;
use std::alloc::{AllocError, Global};

/// The bytes that a line mostly has at most.
const USUAL_SIZE: usize = 128;

/// Appends a line of a report, with its LF. Want of memory leaves what was there.
pub fn print_line(line: &ReportLine, out: &mut Vec<u8>) -> Result<(), AllocError>
    ensures printed { OnOk result (out.new.items ≡ out.old.items ++ printed line.now) }
    ensures err { OnErr result (out.new.items ≡ out.old.items) }
{
    let text = text_of(*out.allocator(), line)?;
    out.extend_from_slice(text.as_slice())
}

/// The text of a line, with its LF.
fn text_of(alloc: Global, line: &ReportLine) -> Result<Vec<u8>, AllocError>
    ensures { IfOk result (λ text. text.items ≡ printed line.now) }
{
    let mut text = Vec::with_capacity(alloc, USUAL_SIZE)?;
    push_line(&mut text, line)?;
    text.push(b'\n')?;
    Ok(text)
}

/// Appends the words of a line.
fn push_line(out: &mut Vec<u8>, line: &ReportLine) -> Result<(), AllocError>
    ensures { OnOk result (out.new.items ≡ out.old.items ++ words_text (line_words line.now)) }
{
    match line {
        ReportLine::Replica {
            node,
            block,
            state,
            stamp,
            written,
            acked,
            sum,
        } => {
            out.extend_from_slice(b"replica")?;
            push_numbers(out, &[u64::from(node.0), block.0])?;
            push_word(out, state.name().as_bytes())?;
            push_numbers(out, &[stamp.0, *written, *acked])?;
            push_sum_or_none(out, *sum)
        }
        ReportLine::Down { node } => {
            out.extend_from_slice(b"down")?;
            push_number(out, u64::from(node.0))
        }
        ReportLine::Answer {
            block,
            ordinal,
            answer,
        } => {
            out.extend_from_slice(b"answer")?;
            push_numbers(out, &[block.0, *ordinal])?;
            push_answer(out, answer)
        }
        ReportLine::Read { line, result } => {
            out.extend_from_slice(b"read")?;
            push_number(out, *line)?;
            push_read(out, result)
        }
        ReportLine::Recovery { line, result } => {
            out.extend_from_slice(b"recovery")?;
            push_number(out, *line)?;
            push_recovery(out, result)
        }
        ReportLine::End => out.extend_from_slice(b"end"),
    }
}

/// Appends the words of an answer.
fn push_answer(out: &mut Vec<u8>, answer: &Answer) -> Result<(), AllocError>
    ensures { OnOk result (out.new.items ≡ out.old.items ++ spaced (answer_words answer.now)) }
{
    match answer {
        Answer::Create(result) => {
            push_word(out, b"create")?;
            push_setup(out, result)
        }
        Answer::Append(result) => {
            push_word(out, b"append")?;
            push_setup(out, result)
        }
        Answer::Hflush(result) => {
            push_word(out, b"hflush")?;
            push_flush(out, result)
        }
        Answer::Hsync(result) => {
            push_word(out, b"hsync")?;
            push_flush(out, result)
        }
        Answer::Close(result) => {
            push_word(out, b"close")?;
            push_flush(out, result)
        }
    }
}

/// Appends the words of a create's or an append's result.
fn push_setup(out: &mut Vec<u8>, setup: &SetupResult) -> Result<(), AllocError>
    ensures { OnOk result (out.new.items ≡ out.old.items ++ spaced (setup_words setup.now)) }
{
    match setup {
        SetupResult::Ok { stamp } => {
            push_word(out, b"ok")?;
            push_number(out, stamp.0)
        }
        SetupResult::Failed(failure) => push_failure(out, *failure),
    }
}

/// Appends the words of an hflush's, an hsync's or a close's result.
fn push_flush(out: &mut Vec<u8>, flush: &FlushResult) -> Result<(), AllocError>
    ensures { OnOk result (out.new.items ≡ out.old.items ++ spaced (flush_words flush.now)) }
{
    match flush {
        FlushResult::Ok {
            length,
            stamp,
            members,
        } => {
            push_word(out, b"ok")?;
            push_numbers(out, &[*length, stamp.0])?;
            push_members(out, members)
        }
        FlushResult::Failed(failure) => push_failure(out, *failure),
    }
}

/// Appends the words of a failure.
fn push_failure(out: &mut Vec<u8>, failure: Failure) -> Result<(), AllocError>
    ensures { OnOk result (out.new.items ≡ out.old.items ++ spaced (failure_words failure)) }
{
    match failure {
        Failure::Abandoned { node } => {
            push_word(out, b"abandoned")?;
            push_number(out, u64::from(node.0))
        }
        Failure::AllBad { node } => {
            push_word(out, b"allbad")?;
            push_number(out, u64::from(node.0))
        }
        Failure::Lost { recovery } => {
            push_word(out, b"lost")?;
            push_number(out, recovery.0)
        }
        Failure::Refused(refusal) => {
            push_word(out, b"refused")?;
            push_word(out, refusal_name(refusal))
        }
        Failure::Waiting => push_word(out, b"waiting"),
    }
}

/// Appends the words of a read's result.
fn push_read(out: &mut Vec<u8>, read: &ReadResult) -> Result<(), AllocError>
    ensures { OnOk result (out.new.items ≡ out.old.items ++ spaced (read_words read.now)) }
{
    match read {
        ReadResult::Ok { sum } => {
            push_word(out, b"ok")?;
            push_sum(out, *sum)
        }
        ReadResult::Refused { text } => {
            push_word(out, b"refused")?;
            push_word(out, text.as_slice())
        }
        ReadResult::BadSum { chunk } => {
            push_word(out, b"badsum")?;
            push_number(out, *chunk)
        }
        ReadResult::Malformed => push_word(out, b"malformed"),
        ReadResult::Ended => push_word(out, b"ended"),
    }
}

/// Appends the words of a recovery's result.
fn push_recovery(out: &mut Vec<u8>, recovery: &RecoveryResult) -> Result<(), AllocError>
    ensures { OnOk result (out.new.items ≡ out.old.items ++ spaced (recovery_words recovery.now)) }
{
    match recovery {
        RecoveryResult::Ok {
            id,
            length,
            members,
        } => {
            push_word(out, b"ok")?;
            push_numbers(out, &[id.0, *length])?;
            push_members(out, members)
        }
        RecoveryResult::Nothing => push_word(out, b"nothing"),
        RecoveryResult::Unequal { first, second } => {
            push_word(out, b"unequal")?;
            push_numbers(out, &[*first, *second])
        }
        RecoveryResult::NoneUpdated => push_word(out, b"noneupdated"),
        RecoveryResult::Refused(refusal) => {
            push_word(out, b"refused")?;
            push_word(out, refusal_name(*refusal))
        }
        RecoveryResult::Ended => push_word(out, b"ended"),
    }
}

/// Appends a replica's sum and mark.
fn push_sum_or_none(out: &mut Vec<u8>, sum: Option<u32>) -> Result<(), AllocError>
    ensures { OnOk result (out.new.items ≡ out.old.items ++ spaced (sum_words sum)) }
{
    match sum {
        Some(sum) => {
            push_sum(out, sum)?;
            push_word(out, b"ok")
        }
        None => {
            push_word(out, b"-")?;
            push_word(out, b"broken")
        }
    }
}

/// Appends a space and a sum.
#[tactic(auto, unfolding(crate::specs::Reports::sum_text))]
fn push_sum(out: &mut Vec<u8>, sum: u32) -> Result<(), AllocError>
    ensures { OnOk result (out.new.items ≡ out.old.items ++ (32 ∷ sum_text sum)) }
{
    let digits = hex::encode(*out.allocator(), sum.to_be_bytes())?;
    push_word(out, digits.as_bytes())
}

/// Appends a space and the members, with commas between them.
fn push_members(out: &mut Vec<u8>, members: &Members) -> Result<(), AllocError>
    ensures { OnOk result (out.new.items ≡ out.old.items ++ (32 ∷ members_text members.now)) }
{
    out.push(b' ')?;
    if let Some((first, rest)) = members.as_slice().split_first() {
        push_digits(out, u64::from(first.0))?;
        push_listed(out, rest)?;
    }
    Ok(())
}

/// Appends each node behind a comma.
fn push_listed(out: &mut Vec<u8>, nodes: &[NodeId]) -> Result<(), AllocError>
    ensures { OnOk result (out.new.items ≡ out.old.items ++ listed nodes.now) }
{
    'nodes: for node in nodes {
        out.push(b',')?;
        push_digits(out, u64::from(node.0))?;
    }
    Ok(())
}

/// Appends numbers, each behind a space.
fn push_numbers(out: &mut Vec<u8>, numbers: &[u64]) -> Result<(), AllocError>
    ensures { OnOk result (out.new.items ≡ out.old.items ++ spaced (map decimal numbers.now)) }
{
    'numbers: for number in numbers {
        push_number(out, *number)?;
    }
    Ok(())
}

/// Appends a space and a number.
fn push_number(out: &mut Vec<u8>, number: u64) -> Result<(), AllocError>
    ensures { OnOk result (out.new.items ≡ out.old.items ++ (32 ∷ decimal number)) }
{
    out.push(b' ')?;
    push_digits(out, number)
}

/// Appends a number in least decimal.
fn push_digits(out: &mut Vec<u8>, number: u64) -> Result<(), AllocError>
    ensures { OnOk result (out.new.items ≡ out.old.items ++ decimal number) }
{
    out.extend_from_slice(Buffer::new().format(number).as_bytes())
}

/// Appends a space and a word.
fn push_word(out: &mut Vec<u8>, word: &[u8]) -> Result<(), AllocError>
    ensures { OnOk result (out.new.items ≡ out.old.items ++ (32 ∷ word.now)) }
{
    out.push(b' ')?;
    out.extend_from_slice(word)
}

/// The office's refusal in a report.
#[tactic(auto, unfolding(crate::specs::Reports::refusal_name))]
pub(crate) fn refusal_name(refusal: OfficeRefusal) -> &'static [u8]
    ensures { result.now ≡ name_of_refusal refusal }
{
    match refusal {
        OfficeRefusal::Known => b"known",
        OfficeRefusal::Unknown => b"unknown",
        OfficeRefusal::NotOpen => b"notopen",
        OfficeRefusal::NotClosed => b"notclosed",
        OfficeRefusal::LeaseLost => b"leaselost",
        OfficeRefusal::OldStamp => b"oldstamp",
        OfficeRefusal::OldRecovery => b"oldrecovery",
        OfficeRefusal::TooLong => b"toolong",
        OfficeRefusal::Memory => b"memory",
    }
}
