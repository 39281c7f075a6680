//! Lines of reports, read.

ghost use Rattle.std.specs.Prelude.{◌≡◌, ◌<◌, ◌^◌, find, bytes_eq, option_map, IfOk, IsErrOf, None, Some};
ghost use Rattle.hd_base.specs.Wire.{state_name};
ghost use Rattle.script_lang.specs.Words.{parts_of};
ghost use Rattle.script_lang.specs.Names.{states};
ghost use Rattle.script_lang.specs.Numbers.{node};
ghost use Rattle.script_lang.specs.declared.report.ReportLine.{ReportLine};
ghost use Rattle.script_lang.specs.Reports.{refusal_name, printed};
ghost use Rattle.script_lang.specs.ReportReading.{found, line_name, line_names, command_name, commands, result_name, results, refusals, number_of, node_of, sum_of, members_of, left_of, next as next_of, no_more, failure_said, setup_by, setup_said, flushed_said, flush_by, flush_said, answer_by, text_said, whole_said, bad_sum_said, numbered_said, read_by, recovered_said, unequal_said, recovery_by, items_named, mark, sum_said, replica_said, down_said, answer_said, read_said, recovery_said, line_by, line_said, Holds, Says};

use crate::faults::LineFault;
use crate::names::state_named;
use crate::report::{
    Answer, Failure, FlushResult, OfficeRefusal, ReadResult, RecoveryResult, ReportLine,
    SetupResult,
};
use crate::report_words::{
    CommandWord, LineWord, ResultWord, command_word, line_word, refusal_word, result_word,
};
use crate::words::split_part;
use hd_base::{
    BlockId, ByteList, MAX_MEMBERS, Members, NodeId, ReplicaState, Stamp, least_decimal,
};
use std::alloc::Global;

/// The words of a line that are left, with one space between them; `None` where no word is left.
type Left<'a> = Option<&'a [u8]>;

/// The next word, and those behind it.
#[tactic(auto, unfolding(crate::specs::ReportReading::next))]
fn next_word(left: Left<'_>) -> Option<(&[u8], Left<'_>)>
    ensures { option_map (λ x. (x.0.now, left_of x.1)) result ≡ next_of Some (left_of left.entry) }
{
    match left {
        Some(text) => Some(split_part(text, b' ')),
        None => None,
    }
}

/// A number, and the words behind it.
#[tactic(auto, unfolding(crate::specs::ReportReading::next))]
fn number(left: Left<'_>) -> Option<(u64, Left<'_>)>
    ensures { option_map (λ x. (x.0, left_of x.1)) result ≡ next_of number_of (left_of left.entry) }
{
    let (text, left) = next_word(left)?;
    Some((read_number(text)?, left))
}

/// The number of 64 bits that a word is in least decimal.
#[tactic(auto, unfolding(crate::specs::ReportReading::number_of))]
fn read_number(text: &[u8]) -> Option<u64>
    ensures { result ≡ number_of text.now }
{
    match least_decimal(text)? {
        (number, []) => Some(number),
        _ => None,
    }
}

/// A node, and the words behind it.
#[tactic(auto, unfolding(crate::specs::ReportReading::next))]
fn node(left: Left<'_>) -> Option<(NodeId, Left<'_>)>
    ensures { option_map (λ x. (x.0, left_of x.1)) result ≡ next_of node_of (left_of left.entry) }
{
    let (text, left) = next_word(left)?;
    Some((read_node(text)?, left))
}

/// Members, and the words behind it.
#[tactic(auto, unfolding(crate::specs::ReportReading::next))]
fn members(left: Left<'_>) -> Option<(Members, Left<'_>)>
    ensures { option_map (λ x. (x.0, left_of x.1)) result ≡ next_of members_of (left_of left.entry) }
{
    let (text, left) = next_word(left)?;
    Some((read_members(text)?, left))
}

/// A sum, and the words behind it.
#[tactic(auto, unfolding(crate::specs::ReportReading::next))]
fn sum(left: Left<'_>) -> Option<(u32, Left<'_>)>
    ensures { option_map (λ x. (x.0, left_of x.1)) result ≡ next_of sum_of (left_of left.entry) }
{
    let (text, left) = next_word(left)?;
    Some((read_sum(text)?, left))
}

/// A state, and the words behind it.
#[tactic(auto, unfolding(crate::specs::ReportReading::next))]
fn state(left: Left<'_>) -> Option<(ReplicaState, Left<'_>)>
    ensures { option_map (λ x. (x.0, left_of x.1)) result ≡ next_of (found state_name states) (left_of left.entry) }
{
    let (text, left) = next_word(left)?;
    Some((state_named(text)?, left))
}

/// A refusal of the office, and the words behind it.
#[tactic(auto, unfolding(crate::specs::ReportReading::next))]
fn refusal(left: Left<'_>) -> Option<(OfficeRefusal, Left<'_>)>
    ensures { option_map (λ x. (x.0, left_of x.1)) result ≡ next_of (found refusal_name refusals) (left_of left.entry) }
{
    let (text, left) = next_word(left)?;
    Some((refusal_word(text)?, left))
}

/// A command, and the words behind it.
#[tactic(auto, unfolding(crate::specs::ReportReading::next))]
fn command(left: Left<'_>) -> Option<(CommandWord, Left<'_>)>
    ensures { option_map (λ x. (x.0, left_of x.1)) result ≡ next_of (found command_name commands) (left_of left.entry) }
{
    let (text, left) = next_word(left)?;
    Some((command_word(text)?, left))
}

/// The first word of a result, and the words behind it.
#[tactic(auto, unfolding(crate::specs::ReportReading::next))]
fn outcome(left: Left<'_>) -> Option<(ResultWord, Left<'_>)>
    ensures { option_map (λ x. (x.0, left_of x.1)) result ≡ next_of (found result_name results) (left_of left.entry) }
{
    let (text, left) = next_word(left)?;
    Some((result_word(text)?, left))
}

/// The first word of a line, and the words behind it.
#[tactic(auto, unfolding(crate::specs::ReportReading::next))]
fn beginning(left: Left<'_>) -> Option<(LineWord, Left<'_>)>
    ensures { option_map (λ x. (x.0, left_of x.1)) result ≡ next_of (found line_name line_names) (left_of left.entry) }
{
    let (text, left) = next_word(left)?;
    Some((line_word(text)?, left))
}

/// That no word is left.
#[tactic(auto, unfolding(crate::specs::ReportReading::no_more))]
fn none(left: Left<'_>) -> Option<()>
    ensures { result ≡ no_more tt (left_of left.entry) }
{
    match left {
        Some(_) => None,
        None => Some(()),
    }
}

/// The node that a word is, in least decimal.
#[tactic(auto, unfolding(crate::specs::ReportReading::node_of))]
fn read_node(text: &[u8]) -> Option<NodeId>
    ensures { result ≡ node_of text.now }
{
    let number = read_number(text)?;
    if number <= u64::from(u32::MAX) {
        Some(NodeId(number as u32))
    } else {
        None
    }
}

/// The sum that a word is, in eight lower-case hexadecimal digits.
#[tactic(auto, unfolding(crate::specs::ReportReading::sum_of))]
fn read_sum(text: &[u8]) -> Option<u32>
    ensures { result ≡ sum_of text.now }
{
    let mut bytes = [0; 4];
    hex::decode_to_slice(text, &mut bytes).ok()?;
    let mut digits = [0; 8];
    hex::encode_to_slice(bytes, &mut digits).ok()?;
    if digits.as_slice() == text {
        Some(u32::from_be_bytes(bytes))
    } else {
        None
    }
}

/// The members that a word names, between commas, or none.
#[tactic(auto, unfolding(crate::specs::ReportReading::members_of))]
fn read_members(text: &[u8]) -> Option<Members>
    ensures { result ≡ members_of text.now }
{
    if text.is_empty() {
        Members::new(&[])
    } else {
        named_members(text)
    }
}

/// The members that the items of a word name.
fn named_members(text: &[u8]) -> Option<Members>
    ensures { result ≡ items_named text.now }
{
    let mut named = [NodeId(0); MAX_MEMBERS];
    let mut count = 0;
    let mut rest = Some(text);
    'items: while let Some(text) = rest {
        let (item, behind) = split_part(text, b',');
        let node = read_node(item)?;
        if count == MAX_MEMBERS {
            return None;
        }
        named[count] = node;
        count += 1;
        rest = behind;
    }
    Members::new(&named[..count])
}

/// Why a command failed, by the first word of its result and those behind it.
#[tactic(auto, unfolding(crate::specs::ReportReading::failure_said, crate::specs::ReportReading::no_more))]
fn failure(word: ResultWord, left: Left<'_>) -> Option<Failure>
    ensures { result ≡ failure_said word (left_of left.entry) }
{
    match word {
        ResultWord::Abandoned => {
            let (node, left) = node(left)?;
            none(left)?;
            Some(Failure::Abandoned { node })
        }
        ResultWord::AllBad => {
            let (node, left) = node(left)?;
            none(left)?;
            Some(Failure::AllBad { node })
        }
        ResultWord::Lost => {
            let (recovery, left) = number(left)?;
            none(left)?;
            Some(Failure::Lost {
                recovery: Stamp(recovery),
            })
        }
        ResultWord::Refused => {
            let (name, left) = refusal(left)?;
            none(left)?;
            Some(Failure::Refused(name))
        }
        ResultWord::Waiting => {
            none(left)?;
            Some(Failure::Waiting)
        }
        _ => None,
    }
}

/// How a block was created or opened again.
#[tactic(auto, unfolding(crate::specs::ReportReading::setup_said, crate::specs::ReportReading::no_more))]
fn setup(left: Left<'_>) -> Option<SetupResult>
    ensures { result ≡ setup_said (left_of left.entry) }
{
    let (word, left) = outcome(left)?;
    match word {
        ResultWord::Ok => {
            let (stamp, left) = number(left)?;
            none(left)?;
            Some(SetupResult::Ok {
                stamp: Stamp(stamp),
            })
        }
        _ => Some(SetupResult::Failed(failure(word, left)?)),
    }
}

/// How a block was flushed or closed.
#[tactic(auto, unfolding(crate::specs::ReportReading::flush_said))]
fn flush(left: Left<'_>) -> Option<FlushResult>
    ensures { result ≡ flush_said (left_of left.entry) }
{
    let (word, left) = outcome(left)?;
    match word {
        ResultWord::Ok => flushed(left),
        _ => Some(FlushResult::Failed(failure(word, left)?)),
    }
}

/// The length, stamp and members of a flush or close.
#[tactic(auto, unfolding(crate::specs::ReportReading::flushed_said, crate::specs::ReportReading::no_more))]
fn flushed(left: Left<'_>) -> Option<FlushResult>
    ensures { result ≡ flushed_said (left_of left.entry) }
{
    let (length, left) = number(left)?;
    let (stamp, left) = number(left)?;
    let (members, left) = members(left)?;
    none(left)?;
    Some(FlushResult::Ok {
        length,
        stamp: Stamp(stamp),
        members,
    })
}

/// The answer to a command, by the words behind it.
fn answer(command: CommandWord, left: Left<'_>) -> Option<Answer>
    ensures { result ≡ answer_by command (left_of left.entry) }
{
    match command {
        CommandWord::Create => Some(Answer::Create(setup(left)?)),
        CommandWord::Append => Some(Answer::Append(setup(left)?)),
        CommandWord::Hflush => Some(Answer::Hflush(flush(left)?)),
        CommandWord::Hsync => Some(Answer::Hsync(flush(left)?)),
        CommandWord::Close => Some(Answer::Close(flush(left)?)),
    }
}

/// What a block recovery came to, by the first word of its result and those behind it.
#[tactic(auto, unfolding(crate::specs::ReportReading::recovery_by, crate::specs::ReportReading::no_more))]
fn recovery(word: ResultWord, left: Left<'_>) -> Option<RecoveryResult>
    ensures { result ≡ recovery_by word (left_of left.entry) }
{
    match word {
        ResultWord::Ok => recovered(left),
        ResultWord::Nothing => {
            none(left)?;
            Some(RecoveryResult::Nothing)
        }
        ResultWord::Unequal => unequal(left),
        ResultWord::NoneUpdated => {
            none(left)?;
            Some(RecoveryResult::NoneUpdated)
        }
        ResultWord::Refused => {
            let (name, left) = refusal(left)?;
            none(left)?;
            Some(RecoveryResult::Refused(name))
        }
        ResultWord::Ended => {
            none(left)?;
            Some(RecoveryResult::Ended)
        }
        _ => None,
    }
}

/// The id, length and members of a block recovery.
#[tactic(auto, unfolding(crate::specs::ReportReading::recovered_said, crate::specs::ReportReading::no_more))]
fn recovered(left: Left<'_>) -> Option<RecoveryResult>
    ensures { result ≡ recovered_said (left_of left.entry) }
{
    let (id, left) = number(left)?;
    let (length, left) = number(left)?;
    let (members, left) = members(left)?;
    none(left)?;
    Some(RecoveryResult::Ok {
        id: Stamp(id),
        length,
        members,
    })
}

/// The two lengths of a block recovery.
#[tactic(auto, unfolding(crate::specs::ReportReading::unequal_said, crate::specs::ReportReading::no_more))]
fn unequal(left: Left<'_>) -> Option<RecoveryResult>
    ensures { result ≡ unequal_said (left_of left.entry) }
{
    let (first, left) = number(left)?;
    let (second, left) = number(left)?;
    none(left)?;
    Some(RecoveryResult::Unequal { first, second })
}

/// What a reading client got, by the first word of its result and those behind it.
#[tactic(auto, unfolding(crate::specs::ReportReading::read_by, crate::specs::ReportReading::no_more))]
fn read(alloc: Global, word: ResultWord, left: Left<'_>) -> Result<ReadResult, LineFault>
    ensures { Says result (read_by word (left_of left.entry)) }
{
    match word {
        ResultWord::Ok => whole_read(left).ok_or(LineFault::Line),
        ResultWord::Refused => Ok(ReadResult::Refused {
            text: message(alloc, left)?,
        }),
        ResultWord::BadSum => bad_sum(left).ok_or(LineFault::Line),
        ResultWord::Malformed => {
            none(left).ok_or(LineFault::Line)?;
            Ok(ReadResult::Malformed)
        }
        ResultWord::Ended => {
            none(left).ok_or(LineFault::Line)?;
            Ok(ReadResult::Ended)
        }
        _ => Err(LineFault::Line),
    }
}

/// The sum of the bytes that a reading client got.
#[tactic(auto, unfolding(crate::specs::ReportReading::whole_said, crate::specs::ReportReading::no_more))]
fn whole_read(left: Left<'_>) -> Option<ReadResult>
    ensures { result ≡ whole_said (left_of left.entry) }
{
    let (sum, left) = sum(left)?;
    none(left)?;
    Some(ReadResult::Ok { sum })
}

/// The chunk whose sum was bad.
#[tactic(auto, unfolding(crate::specs::ReportReading::bad_sum_said, crate::specs::ReportReading::no_more))]
fn bad_sum(left: Left<'_>) -> Option<ReadResult>
    ensures { result ≡ bad_sum_said (left_of left.entry) }
{
    let (chunk, left) = number(left)?;
    none(left)?;
    Some(ReadResult::BadSum { chunk })
}

/// A message, which may have spaces.
#[tactic(auto, unfolding(crate::specs::ReportReading::text_said))]
fn message(alloc: Global, left: Left<'_>) -> Result<ByteList, LineFault>
    ensures { Says result (text_said (left_of left.entry)) }
{
    match left {
        Some(text) => Ok(ByteList::from_slice(alloc, text)?),
        None => Err(LineFault::Line),
    }
}

/// A replica's sum and mark.
#[tactic(auto, unfolding(crate::specs::ReportReading::sum_said, crate::specs::ReportReading::next, crate::specs::ReportReading::no_more))]
fn sum_or_none(left: Left<'_>) -> Option<Option<u32>>
    ensures { result ≡ sum_said (left_of left.entry) }
{
    let (sum, left) = next_word(left)?;
    let (name, left) = next_word(left)?;
    none(left)?;
    read_mark(sum, name)
}

/// A replica's sum, by the two words.
fn read_mark(sum: &[u8], name: &[u8]) -> Option<Option<u32>>
    ensures { result ≡ mark sum.now name.now }
{
    if name == b"ok".as_slice() {
        return Some(Some(read_sum(sum)?));
    }
    if name == b"broken".as_slice() && sum == b"-".as_slice() {
        return Some(None);
    }
    None
}

/// A replica's line.
#[tactic(auto, unfolding(crate::specs::ReportReading::replica_said))]
fn replica(left: Left<'_>) -> Option<ReportLine>
    ensures { result ≡ replica_said (left_of left.entry) }
{
    let (node, left) = node(left)?;
    let (block, left) = number(left)?;
    let (state, left) = state(left)?;
    let (stamp, left) = number(left)?;
    let (written, left) = number(left)?;
    let (acked, left) = number(left)?;
    let sum = sum_or_none(left)?;
    Some(ReportLine::Replica {
        node,
        block: BlockId(block),
        state,
        stamp: Stamp(stamp),
        written,
        acked,
        sum,
    })
}

/// The line of a stopped node.
#[tactic(auto, unfolding(crate::specs::ReportReading::down_said, crate::specs::ReportReading::no_more))]
fn down(left: Left<'_>) -> Option<ReportLine>
    ensures { result ≡ down_said (left_of left.entry) }
{
    let (node, left) = node(left)?;
    none(left)?;
    Some(ReportLine::Down { node })
}

/// An answer's line.
#[tactic(auto, unfolding(crate::specs::ReportReading::answer_said))]
fn answer_line(left: Left<'_>) -> Option<ReportLine>
    ensures { result ≡ answer_said (left_of left.entry) }
{
    let (block, left) = number(left)?;
    let (ordinal, left) = number(left)?;
    let (name, left) = command(left)?;
    Some(ReportLine::Answer {
        block: BlockId(block),
        ordinal,
        answer: answer(name, left)?,
    })
}

/// A number, and the first word of a result behind it.
#[tactic(auto, unfolding(crate::specs::ReportReading::numbered_said))]
fn numbered(left: Left<'_>) -> Option<(u64, ResultWord, Left<'_>)>
    ensures { option_map (λ x. (x.0, x.1, left_of x.2)) result ≡ numbered_said (left_of left.entry) }
{
    let (line, left) = number(left)?;
    let (word, left) = outcome(left)?;
    Some((line, word, left))
}

/// A read's line.
#[tactic(auto, unfolding(crate::specs::ReportReading::read_said))]
fn read_line_of(alloc: Global, left: Left<'_>) -> Result<ReportLine, LineFault>
    ensures { Says result (read_said (left_of left.entry)) }
{
    match numbered(left) {
        Some((line, word, left)) => Ok(ReportLine::Read {
            line,
            result: read(alloc, word, left)?,
        }),
        None => Err(LineFault::Line),
    }
}

/// A recovery's line.
#[tactic(auto, unfolding(crate::specs::ReportReading::recovery_said))]
fn recovery_line(left: Left<'_>) -> Option<ReportLine>
    ensures { result ≡ recovery_said (left_of left.entry) }
{
    let (line, word, left) = numbered(left)?;
    Some(ReportLine::Recovery {
        line,
        result: recovery(word, left)?,
    })
}

/// The end of a report.
#[tactic(auto, unfolding(crate::specs::ReportReading::no_more))]
fn end(left: Left<'_>) -> Option<ReportLine>
    ensures { result ≡ no_more ReportLine.End (left_of left.entry) }
{
    none(left)?;
    Some(ReportLine::End)
}

/// A line, by its words.
#[tactic(auto, unfolding(crate::specs::ReportReading::line_said))]
fn line(alloc: Global, text: &[u8]) -> Result<ReportLine, LineFault>
    ensures { Says result (line_said (parts_of 32 text.now)) }
{
    match beginning(Some(text)) {
        Some((LineWord::Replica, left)) => replica(left).ok_or(LineFault::Line),
        Some((LineWord::Down, left)) => down(left).ok_or(LineFault::Line),
        Some((LineWord::Answer, left)) => answer_line(left).ok_or(LineFault::Line),
        Some((LineWord::Read, left)) => read_line_of(alloc, left),
        Some((LineWord::Recovery, left)) => recovery_line(left).ok_or(LineFault::Line),
        Some((LineWord::End, left)) => end(left).ok_or(LineFault::Line),
        None => Err(LineFault::Line),
    }
}

/// Reads a line of a report, with its LF. `Line` comes exactly where no report line prints to these bytes.
pub fn read_line(alloc: Global, bytes: &[u8]) -> Result<ReportLine, LineFault>
    ensures found { IfOk result (λ line. printed line ≡ bytes.now) }
    ensures only { (line : ReportLine) → Holds line → printed line ≡ bytes.now → Says result (Some line) }
    ensures none { IsErrOf result LineFault.Line → (line : ReportLine) → Holds line → printed line ≡ bytes.now → ⊥ }
{
    match bytes.strip_suffix(b"\n") {
        Some(text) => line(alloc, text),
        None => Err(LineFault::Line),
    }
}
