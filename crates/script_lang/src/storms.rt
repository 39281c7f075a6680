//! The script of a storm, which is drawn from a number.

ghost use Rattle.std.specs.Prelude.{◌≡◌, ◌<◌, ◌≤◌, IfOk, OnOk};
ghost use Rattle.rand_pcg.specs.Pcg.{pcg32};
ghost use Rattle.script_lang.specs.Storms.{
  storm,
  begun,
  creates,
  rounds,
  closes,
  creating,
  round,
  writing,
  cutting,
  failing,
  restarting,
  recovering,
  restarted,
  cut,
  fault,
  restart,
  recovery,
  says,
  drawn,
  advanced,
  making,
  block_of_round,
  storm_block,
  storm_node,
  three_from,
  all_nodes,
};

use crate::instructions::{Instruction, Script, ScriptLine};
use hd_base::{BlockId, Members, NodeId};
use rand_core::utils::NextWord;
use rand_pcg::Pcg32;
use std::alloc::{AllocError, Global};

/// How many nodes a storm has.
pub const STORM_NODES: u32 = 5;

/// The stream of the generator that draws a storm's script.
const STORM_STREAM: u64 = 54;

/// How many blocks a storm has.
const STORM_BLOCKS: u64 = 8;

/// The number of its first block.
const FIRST_STORM_BLOCK: u64 = 1_073_741_825;

/// How many rounds a storm has.
const ROUNDS: u64 = 128;

/// The rounds with a number below this may have cuts and faults.
const FAILING_ROUNDS: u64 = 120;

/// How many bytes are written in a round.
const ROUND_BYTES: u64 = 65_536;

/// How many events are drawn between a stop and the start of the same node.
const STOPPED_EVENTS: u64 = 50;

/// The script of `storm N`: 8 blocks on 5 nodes are written in 128 rounds, between cuts, file faults, stops and
/// recoveries that are drawn from the number, and closed.
#[tactic(auto, unfolding(crate::specs::Storms::storm))]
pub fn storm_script(alloc: Global, number: u64) -> Result<Script, AllocError>
    ensures { IfOk result (λ script. script ≡ storm number) }
{
    let mut storm = Storm::new(alloc, number)?;
    storm.creates(STORM_BLOCKS)?;
    storm.rounds(ROUNDS)?;
    storm.closes(STORM_BLOCKS)?;
    Ok(Script::from_vec(storm.lines))
}

/// A storm's script so far, and the generator that draws the rest.
#[derive(Drop)]
struct Storm {
    generator: Pcg32,
    lines: Vec<ScriptLine>,
}

impl Storm {
    /// The head of the script.
    fn new(alloc: Global, number: u64) -> Result<Storm, AllocError>
        ensures { IfOk result (λ storm. making storm ≡ begun number) }
    {
        let mut storm = Storm {
            generator: Pcg32::new(number, STORM_STREAM),
            lines: Vec::new(alloc),
        };
        storm.say(Instruction::Nodes { count: STORM_NODES })?;
        storm.say(Instruction::Seed { seed: number })?;
        Ok(storm)
    }

    /// Creates so many blocks.
    #[tactic(auto, unfolding(crate::specs::Storms::creates))]
    fn creates(&mut self, count: u64) -> Result<(), AllocError>
        requires { count ≤ STORM_BLOCKS }
        ensures { OnOk result (making self.new ≡ creates count (making self.old)) }
    {
        for index in 0..count {
            self.create(storm_block(index))?;
        }
        Ok(())
    }

    /// Has so many rounds.
    #[tactic(auto, unfolding(crate::specs::Storms::rounds))]
    fn rounds(&mut self, count: u64) -> Result<(), AllocError>
        ensures { OnOk result (making self.new ≡ rounds count (making self.old)) }
    {
        for number in 0..count {
            self.round(number)?;
        }
        Ok(())
    }

    /// Closes so many blocks.
    #[tactic(auto, unfolding(crate::specs::Storms::closes))]
    fn closes(&mut self, count: u64) -> Result<(), AllocError>
        requires { count ≤ STORM_BLOCKS }
        ensures { OnOk result (making self.new ≡ closes count (making self.old)) }
    {
        for index in 0..count {
            self.say(Instruction::Close {
                block: storm_block(index),
            })?;
        }
        Ok(())
    }

    /// Creates a block at three nodes, the first of which is drawn.
    fn create(&mut self, block: BlockId) -> Result<(), AllocError>
        ensures { OnOk result (making self.new ≡ creating block (making self.old)) }
    {
        let first = self.draw(STORM_NODES);
        self.say(Instruction::Create {
            block,
            members: three_from(first),
        })
    }

    /// Has the round with this number: its block is written and flushed, up to 199 events are drawn, and then what
    /// this round has of failures comes.
    #[tactic(auto, unfolding(crate::specs::Storms::round))]
    fn round(&mut self, number: u64) -> Result<(), AllocError>
        ensures { OnOk result (making self.new ≡ round number (making self.old)) }
    {
        let block = block_of_round(number);
        self.write(block)?;
        self.cut_in(number, block)?;
        self.fail_in(number)?;
        self.restart_in(number)?;
        self.recover_in(number, block)
    }

    /// Writes and flushes a block, and draws up to 199 events.
    fn write(&mut self, block: BlockId) -> Result<(), AllocError>
        ensures { OnOk result (making self.new ≡ writing block (making self.old)) }
    {
        self.say(Instruction::Fill {
            block,
            count: ROUND_BYTES,
        })?;
        self.say(Instruction::Hflush { block })?;
        let events = u64::from(self.draw(200));
        self.say(Instruction::Run { events })
    }

    /// Cuts a connection of the block's pipeline, where this round has a cut.
    fn cut_in(&mut self, number: u64, block: BlockId) -> Result<(), AllocError>
        ensures { OnOk result (making self.new ≡ cutting number block (making self.old)) }
    {
        if number < FAILING_ROUNDS && number % 3 == 0 {
            self.cut(block)
        } else {
            Ok(())
        }
    }

    /// Cuts a connection of the block's pipeline.
    fn cut(&mut self, block: BlockId) -> Result<(), AllocError>
        ensures { OnOk result (making self.new ≡ cut block (making self.old)) }
    {
        let connection = u64::from(self.draw(3));
        let down = u64::from(self.draw(4));
        let up = u64::from(self.draw(4));
        self.say(Instruction::Cut {
            block,
            connection,
            down,
            up,
        })
    }

    /// Has a write to come fail at a node, where this round has a fault.
    fn fail_in(&mut self, number: u64) -> Result<(), AllocError>
        ensures { OnOk result (making self.new ≡ failing number (making self.old)) }
    {
        if number < FAILING_ROUNDS && number % 10 == 5 {
            self.fail()
        } else {
            Ok(())
        }
    }

    /// Has a write to come fail at a node.
    fn fail(&mut self) -> Result<(), AllocError>
        ensures { OnOk result (making self.new ≡ fault (making self.old)) }
    {
        let node = NodeId(self.draw(STORM_NODES));
        let nth = 1 + u64::from(self.draw(3));
        self.say(Instruction::Fault { node, nth })
    }

    /// Stops a node and starts it again, where this round has a stop.
    fn restart_in(&mut self, number: u64) -> Result<(), AllocError>
        ensures { OnOk result (making self.new ≡ restarting number (making self.old)) }
    {
        if number % 20 == 12 {
            self.restart()
        } else {
            Ok(())
        }
    }

    /// Stops a node and starts it again, with up to 50 events in between.
    fn restart(&mut self) -> Result<(), AllocError>
        ensures { OnOk result (making self.new ≡ restart (making self.old)) }
    {
        let node = NodeId(self.draw(STORM_NODES));
        self.say(Instruction::Stop { node })?;
        self.say(Instruction::Run {
            events: STOPPED_EVENTS,
        })?;
        self.say(Instruction::Start { node })
    }

    /// Recovers the block, where this round has a recovery.
    fn recover_in(&mut self, number: u64, block: BlockId) -> Result<(), AllocError>
        ensures { OnOk result (making self.new ≡ recovering number block (making self.old)) }
    {
        if number % 32 == 31 {
            self.recover(block)
        } else {
            Ok(())
        }
    }

    /// Recovers the block by a node that is drawn, with all nodes as members.
    fn recover(&mut self, block: BlockId) -> Result<(), AllocError>
        ensures { OnOk result (making self.new ≡ recovery block (making self.old)) }
    {
        let node = NodeId(self.draw(STORM_NODES));
        self.say(Instruction::Recover {
            block,
            node,
            members: all_nodes(),
        })
    }

    /// A number below this one, by the generator's next word.
    fn draw(&mut self, below: u32) -> u32
        requires { 0 < below }
        ensures value { result ≡ drawn below (making self.old) }
        ensures rest { making self.new ≡ advanced (making self.old) }
        ensures in_range { result < below }
    {
        self.generator.next_word() % below
    }

    /// The next line.
    fn say(&mut self, instruction: Instruction) -> Result<(), AllocError>
        ensures { OnOk result (making self.new ≡ says instruction (making self.old)) }
    {
        let number = self.lines.len() as u64 + 1;
        self.lines.push(ScriptLine {
            number,
            instruction,
        })?;
        Ok(())
    }
}

/// The block with this number among a storm's blocks, from 0.
fn storm_block(index: u64) -> BlockId
    requires { index < STORM_BLOCKS }
    ensures { result ≡ storm_block index }
{
    BlockId(FIRST_STORM_BLOCK + index)
}

/// The block of a round.
fn block_of_round(number: u64) -> BlockId
    ensures { result ≡ block_of_round number }
{
    storm_block(number % STORM_BLOCKS)
}

/// Three nodes in a circle of all, from this one.
fn three_from(first: u32) -> Members
    requires { first < STORM_NODES }
    ensures { result ≡ three_from first }
{
    let nodes = [
        storm_node(first),
        storm_node(first + 1),
        storm_node(first + 2),
    ];
    match Members::new(&nodes) {
        Some(members) => members,
        None => unreachable!(),
    }
}

/// The node with this number, counted in a circle of all.
fn storm_node(number: u32) -> NodeId
    ensures { result ≡ storm_node number }
{
    NodeId(number % STORM_NODES)
}

/// All nodes of a storm.
fn all_nodes() -> Members
    ensures { result ≡ all_nodes }
{
    let nodes = [NodeId(0), NodeId(1), NodeId(2), NodeId(3), NodeId(4)];
    match Members::new(&nodes) {
        Some(members) => members,
        None => unreachable!(),
    }
}
