//! The answers to the commands of blocks, in a report.

ghost use Rattle.std.specs.Prelude.{◌≡◌, ◌++◌, ◌<◌, ◌^◌, ℕ, nat_eq, flat_map, IfOk, OnOk};
ghost use Rattle.std.specs.HashMap.{get};
ghost use Rattle.std.specs.Option.{option_copied};
ghost use Rattle.play_report.specs.Answers.{told, answer_at, said_in, is_given, answer_line, answer_lines, client_lines};
ghost use Rattle.play_report.specs.Answers.{line_answers, next_ordinal};

use crate::appending::append;
use crate::results::answer_of;
use hd_base::{BlockId, LinkIn, LinkOut};
use play_clients::{Client, Said};
use script_lang::{Answer, Instruction, ReportLine, ScriptLine};
use std::alloc::{AllocError, Global};
use std::collections::HashMap;
use writer_core::ClientAnswer;

/// Where the answers stand, by the ordinals of their commands.
fn places_of(alloc: Global, said: &[Said]) -> Result<HashMap<u64, usize>, AllocError>
    ensures { IfOk result (λ places.
        (q : ℕ) → answer_at said.now (get nat_eq places q) ≡ told (said_in said.now) q) }
{
    let mut places = HashMap::new(alloc);
    let mut place = said.len();
    while place > 0 {
        place -= 1;
        places.insert(said[place].ordinal, place)?;
    }
    Ok(places)
}

/// The answer at a place.
fn answer_at(said: &[Said], place: Option<usize>) -> Option<&ClientAnswer>
    ensures { option_copied result ≡ answer_at said.now place }
{
    let said = said.get(place?)?;
    Some(&said.answer)
}

/// Whether a line gives a command to the client of a block.
fn is_given(block: BlockId, instruction: &Instruction) -> bool
    ensures { result ≡ is_given block.0 instruction.now }
{
    let given = match instruction {
        Instruction::Create { block, .. } => *block,
        Instruction::Append { block, .. } => *block,
        Instruction::Write { block, .. } => *block,
        Instruction::Fill { block, .. } => *block,
        Instruction::Hflush { block } => *block,
        Instruction::Hsync { block } => *block,
        Instruction::Close { block } => *block,
        _ => return false,
    };
    given.0 == block.0
}

/// Appends the line of an answer, if there is one to tell.
fn push_answer(
    block: BlockId,
    ordinal: u64,
    answer: Option<Answer>,
    out: &mut Vec<ReportLine>,
) -> Result<(), AllocError>
    ensures { OnOk result (out.new.items ≡ out.old.items ++ answer_line block.0 ordinal answer) }
{
    match answer {
        Some(answer) => {
            let line = ReportLine::Answer {
                block,
                ordinal,
                answer,
            };
            append(out, line)
        }
        None => Ok(()),
    }
}

/// The answer to the command with this ordinal, if it was answered.
fn told<'a>(
    said: &'a [Said],
    places: &HashMap<u64, usize>,
    ordinal: u64,
) -> Option<&'a ClientAnswer>
    ensures { option_copied result ≡ answer_at said.now (get nat_eq places.now ordinal) }
{
    answer_at(said, places.get(&ordinal).copied())
}

/// Appends the line of the command that a line gives a block, if it gives one: it has this ordinal and was answered so.
/// Answers the ordinal of the block's next command.
fn push_line(
    block: BlockId,
    ordinal: u64,
    line: &ScriptLine,
    told: Option<&ClientAnswer>,
    out: &mut Vec<ReportLine>,
) -> Result<u64, AllocError>
    requires { ordinal < 2 ^ 63 }
    ensures next { IfOk result (λ next. next ≡ next_ordinal block.0 ordinal line.now) }
    ensures lines { OnOk result (out.new.items ≡
        out.old.items ++ line_answers block.0 ordinal line.now (option_copied told.entry)) }
{
    if !is_given(block, &line.instruction) {
        return Ok(ordinal);
    }
    push_answer(block, ordinal, answer_of(&line.instruction, told), out)?;
    Ok(ordinal + 1)
}

/// Appends what the commands of a block were answered.
fn push_answers(
    block: BlockId,
    said: &[Said],
    lines: &[ScriptLine],
    out: &mut Vec<ReportLine>,
) -> Result<(), AllocError>
    ensures { OnOk result (out.new.items ≡
        out.old.items ++ answer_lines block.0 (said_in said.now) 0 lines.now) }
{
    let places = places_of(*out.allocator(), said)?;
    let mut ordinal = 0;
    for line in lines {
        ordinal = push_line(block, ordinal, line, told(said, &places, ordinal), out)?;
    }
    Ok(())
}

/// Appends what all commands were answered.
pub(crate) fn push_clients<I: LinkIn, O: LinkOut>(
    clients: &[Client<I, O>],
    lines: &[ScriptLine],
    out: &mut Vec<ReportLine>,
) -> Result<(), AllocError>
    ensures { OnOk result (out.new.items ≡
        out.old.items ++ flat_map (λ c. client_lines lines.now c) clients.now) }
{
    for client in clients {
        push_answers(client.block, &client.said, lines, out)?;
    }
    Ok(())
}
