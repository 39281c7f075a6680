//! What the lines of a script say by themselves, each by the words behind its first.

ghost use Rattle.std.specs.Prelude.{◌≡◌};
ghost use Rattle.script_lang.specs.Rules.{Gives};
ghost use Rattle.script_lang.specs.Words.{words_of};
ghost use Rattle.script_lang.specs.Said.{nodes_said, seed_said, sums_said, create_said, append_said, write_said, fill_said, read_said, recover_said, cut_said, fault_said, run_said, settle_said, writer_said, connection_said, event_said, step_said, expect_said, keyword_said, body_said};

use crate::arguments::{block, four, next, none, one, one_block, one_node, sum_rule, three, two};
use crate::faults::{BadKind, Stop};
use crate::instructions::{Instruction, StepEvent};
use crate::names::{EventName, Keyword, read_event, read_keyword, read_state, read_sum_kind};
use crate::numbers::{bytes, members, node, number, number_within};
use hd_base::{MAX_NODES, Stamp};
use std::alloc::Global;

/// The most events of one `run` line.
const MAX_RUN: u64 = 1_000_000;

/// `nodes N`, where there are so many shelves.
#[tactic(auto, unfolding(crate::specs::Said::nodes_said))]
pub(crate) fn nodes(shelves: u64, line: &[u8]) -> Result<Instruction, BadKind>
    ensures { result ≡ nodes_said shelves (words_of line.now) }
{
    let count = number_within(one(line)?, 1, u64::from(MAX_NODES))?;
    if count > shelves {
        return Err(BadKind::TooManyNodes);
    }
    Ok(Instruction::Nodes {
        count: count as u32,
    })
}

/// `seed S`.
#[tactic(auto, unfolding(crate::specs::Said::seed_said))]
pub(crate) fn seed(line: &[u8]) -> Result<Instruction, BadKind>
    ensures { result ≡ seed_said (words_of line.now) }
{
    Ok(Instruction::Seed {
        seed: number(one(line)?)?,
    })
}

/// A line behind the head, by its first word and what stands behind it, where there are so many nodes.
#[tactic(auto, unfolding(crate::specs::Said::body_said))]
pub(crate) fn body(alloc: Global, nodes: u32, word: &[u8], line: &[u8]) -> Result<Instruction, Stop>
    ensures { Gives result (body_said nodes word.now (words_of line.now)) }
{
    instruction(alloc, read_keyword(word)?, nodes, line)
}

/// A line whose first word is known.
fn instruction(
    alloc: Global,
    keyword: Keyword,
    nodes: u32,
    line: &[u8],
) -> Result<Instruction, Stop>
    ensures { Gives result (keyword_said keyword nodes (words_of line.now)) }
{
    match keyword {
        Keyword::Sums => Ok(sums(line)?),
        Keyword::Create => Ok(create(nodes, line)?),
        Keyword::Append => Ok(append(nodes, line)?),
        Keyword::Write => write(alloc, line),
        Keyword::Fill => Ok(fill(line)?),
        Keyword::Hflush => Ok(Instruction::Hflush {
            block: one_block(line)?,
        }),
        Keyword::Hsync => Ok(Instruction::Hsync {
            block: one_block(line)?,
        }),
        Keyword::Close => Ok(Instruction::Close {
            block: one_block(line)?,
        }),
        Keyword::Read => Ok(read(nodes, line)?),
        Keyword::Recover => Ok(recover(nodes, line)?),
        Keyword::Cut => Ok(cut(line)?),
        Keyword::Fault => Ok(fault(nodes, line)?),
        Keyword::Stop => Ok(Instruction::Stop {
            node: one_node(line, nodes)?,
        }),
        Keyword::Start => Ok(Instruction::Start {
            node: one_node(line, nodes)?,
        }),
        Keyword::Run => Ok(run(line)?),
        Keyword::Settle => Ok(settle(line)?),
        Keyword::Step => Ok(step(line)?),
        Keyword::Expect => Ok(expect(nodes, line)?),
    }
}

/// `sums B KIND CHUNK`.
#[tactic(auto, unfolding(crate::specs::Said::sums_said))]
fn sums(line: &[u8]) -> Result<Instruction, BadKind>
    ensures { result ≡ sums_said (words_of line.now) }
{
    let (named, rest) = next(line)?;
    let (kind, rest) = next(rest)?;
    let kind = read_sum_kind(kind)?;
    let chunk = one(rest)?;
    Ok(Instruction::Sums {
        block: block(named)?,
        rule: sum_rule(kind, chunk)?,
    })
}

/// `create B MEMBERS`.
#[tactic(auto, unfolding(crate::specs::Said::create_said))]
fn create(nodes: u32, line: &[u8]) -> Result<Instruction, BadKind>
    ensures { result ≡ create_said nodes (words_of line.now) }
{
    let (named, list) = two(line)?;
    Ok(Instruction::Create {
        block: block(named)?,
        members: members(list, nodes)?,
    })
}

/// `append B MEMBERS`.
#[tactic(auto, unfolding(crate::specs::Said::append_said))]
fn append(nodes: u32, line: &[u8]) -> Result<Instruction, BadKind>
    ensures { result ≡ append_said nodes (words_of line.now) }
{
    let (named, list) = two(line)?;
    Ok(Instruction::Append {
        block: block(named)?,
        members: members(list, nodes)?,
    })
}

/// `write B HEX`.
#[tactic(auto, unfolding(crate::specs::Said::write_said))]
fn write(alloc: Global, line: &[u8]) -> Result<Instruction, Stop>
    ensures { Gives result (write_said (words_of line.now)) }
{
    let (named, digits) = two(line)?;
    let block = block(named)?;
    Ok(Instruction::Write {
        block,
        bytes: bytes(alloc, digits)?,
    })
}

/// `fill B COUNT`.
#[tactic(auto, unfolding(crate::specs::Said::fill_said))]
fn fill(line: &[u8]) -> Result<Instruction, BadKind>
    ensures { result ≡ fill_said (words_of line.now) }
{
    let (named, count) = two(line)?;
    Ok(Instruction::Fill {
        block: block(named)?,
        count: number_within(count, 1, u64::MAX)?,
    })
}

/// `read B NODE OFFSET LEN`.
#[tactic(auto, unfolding(crate::specs::Said::read_said))]
fn read(nodes: u32, line: &[u8]) -> Result<Instruction, BadKind>
    ensures { result ≡ read_said nodes (words_of line.now) }
{
    let (named, place, offset, count) = four(line)?;
    let block = block(named)?;
    let place = number(place)?;
    let offset = number(offset)?;
    let count = number(count)?;
    Ok(Instruction::Read {
        block,
        node: node(place, nodes)?,
        offset,
        count,
    })
}

/// `recover B NODE MEMBERS`.
#[tactic(auto, unfolding(crate::specs::Said::recover_said))]
fn recover(nodes: u32, line: &[u8]) -> Result<Instruction, BadKind>
    ensures { result ≡ recover_said nodes (words_of line.now) }
{
    let (named, place, list) = three(line)?;
    let block = block(named)?;
    let place = number(place)?;
    let members = members(list, nodes)?;
    Ok(Instruction::Recover {
        block,
        node: node(place, nodes)?,
        members,
    })
}

/// `cut B K DOWN UP`.
#[tactic(auto, unfolding(crate::specs::Said::cut_said))]
fn cut(line: &[u8]) -> Result<Instruction, BadKind>
    ensures { result ≡ cut_said (words_of line.now) }
{
    let (named, connection, down, up) = four(line)?;
    Ok(Instruction::Cut {
        block: block(named)?,
        connection: number(connection)?,
        down: number(down)?,
        up: number(up)?,
    })
}

/// `fault NODE NTH`.
#[tactic(auto, unfolding(crate::specs::Said::fault_said))]
fn fault(nodes: u32, line: &[u8]) -> Result<Instruction, BadKind>
    ensures { result ≡ fault_said nodes (words_of line.now) }
{
    let (place, nth) = two(line)?;
    let place = number(place)?;
    let nth = number_within(nth, 1, u64::MAX)?;
    Ok(Instruction::Fault {
        node: node(place, nodes)?,
        nth,
    })
}

/// `run K`.
#[tactic(auto, unfolding(crate::specs::Said::run_said))]
fn run(line: &[u8]) -> Result<Instruction, BadKind>
    ensures { result ≡ run_said (words_of line.now) }
{
    Ok(Instruction::Run {
        events: number_within(one(line)?, 0, MAX_RUN)?,
    })
}

/// `settle`.
#[tactic(auto, unfolding(crate::specs::Said::settle_said))]
fn settle(line: &[u8]) -> Result<Instruction, BadKind>
    ensures { result ≡ settle_said (words_of line.now) }
{
    none(line)?;
    Ok(Instruction::Settle)
}

/// `step B ..`.
#[tactic(auto, unfolding(crate::specs::Said::step_said))]
fn step(line: &[u8]) -> Result<Instruction, BadKind>
    ensures { result ≡ step_said (words_of line.now) }
{
    let (named, rest) = next(line)?;
    let (name, rest) = next(rest)?;
    let event = read_event(name)?;
    event_step(event, named, rest)
}

/// `step B ..`, whose event is known.
fn event_step(event: EventName, named: &[u8], line: &[u8]) -> Result<Instruction, BadKind>
    ensures { result ≡ event_said event named.now (words_of line.now) }
{
    match event {
        EventName::Writer => writer(named, line),
        EventName::Down => down(named, line),
        EventName::Ready => ready(named, line),
        EventName::Up => up(named, line),
    }
}

/// `step B writer`.
#[tactic(auto, unfolding(crate::specs::Said::writer_said))]
fn writer(named: &[u8], line: &[u8]) -> Result<Instruction, BadKind>
    ensures { result ≡ writer_said named.now (words_of line.now) }
{
    none(line)?;
    Ok(Instruction::Step {
        block: block(named)?,
        event: StepEvent::Writer,
    })
}

/// `step B down K`.
#[tactic(auto, unfolding(crate::specs::Said::connection_said))]
fn down(named: &[u8], line: &[u8]) -> Result<Instruction, BadKind>
    ensures { result ≡ connection_said StepEvent.Down named.now (words_of line.now) }
{
    let connection = one(line)?;
    Ok(Instruction::Step {
        block: block(named)?,
        event: StepEvent::Down {
            connection: number(connection)?,
        },
    })
}

/// `step B ready K`.
#[tactic(auto, unfolding(crate::specs::Said::connection_said))]
fn ready(named: &[u8], line: &[u8]) -> Result<Instruction, BadKind>
    ensures { result ≡ connection_said StepEvent.Ready named.now (words_of line.now) }
{
    let connection = one(line)?;
    Ok(Instruction::Step {
        block: block(named)?,
        event: StepEvent::Ready {
            connection: number(connection)?,
        },
    })
}

/// `step B up K`.
#[tactic(auto, unfolding(crate::specs::Said::connection_said))]
fn up(named: &[u8], line: &[u8]) -> Result<Instruction, BadKind>
    ensures { result ≡ connection_said StepEvent.Up named.now (words_of line.now) }
{
    let connection = one(line)?;
    Ok(Instruction::Step {
        block: block(named)?,
        event: StepEvent::Up {
            connection: number(connection)?,
        },
    })
}

/// `expect NODE B STATE STAMP LENGTH`.
#[tactic(auto, unfolding(crate::specs::Said::expect_said))]
fn expect(nodes: u32, line: &[u8]) -> Result<Instruction, BadKind>
    ensures { result ≡ expect_said nodes (words_of line.now) }
{
    let (place, rest) = next(line)?;
    let (named, rest) = next(rest)?;
    let (name, rest) = next(rest)?;
    let state = read_state(name)?;
    let (stamp, written) = two(rest)?;
    let place = number(place)?;
    let block = block(named)?;
    let stamp = Stamp(number(stamp)?);
    let written = number(written)?;
    Ok(Instruction::Expect {
        node: node(place, nodes)?,
        block,
        state,
        stamp,
        written,
    })
}
