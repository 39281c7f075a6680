//! What the lines of a script say.

ghost use Rattle.std.specs.Prelude.{◌≡◌, ◌↔◌, length, IsTrue};

use hd_base::{BlockId, ByteList, Members, NodeId, ReplicaState, Stamp, SumRule};
use std::marker::Model;

/// What one line of a script says.
#[derive(Debug, PartialEq, Eq, Drop)]
pub enum Instruction {
    /// `nodes N`: there are so many DataNodes, 1 to 16, numbered from 0.
    Nodes {
        count: u32,
    },
    /// `seed S`: where the drawing of events begins.
    Seed {
        seed: u64,
    },
    /// `sums B KIND CHUNK`: the rule of the block's sums.
    Sums {
        block: BlockId,
        rule: SumRule,
    },
    /// `create B MEMBERS`: the client makes the block and its pipeline.
    Create {
        block: BlockId,
        members: Members,
    },
    /// `append B MEMBERS`: the client opens a closed block again.
    Append {
        block: BlockId,
        members: Members,
    },
    /// `write B HEX`: the client appends these bytes, at least one.
    Write {
        block: BlockId,
        bytes: ByteList,
    },
    /// `fill B COUNT`: the client appends so many bytes, at least one.
    Fill {
        block: BlockId,
        count: u64,
    },
    /// `hflush B`: the client waits until readers see what it has written.
    Hflush {
        block: BlockId,
    },
    /// `hsync B`: the client waits until that is also on the members' disks.
    Hsync {
        block: BlockId,
    },
    /// `close B`: the client closes the block.
    Close {
        block: BlockId,
    },
    /// `read B NODE OFFSET LEN`: a reading client asks the node for so many bytes.
    Read {
        block: BlockId,
        node: NodeId,
        offset: u64,
        count: u64,
    },
    /// `recover B NODE MEMBERS`: the node recovers the block, with these members.
    Recover {
        block: BlockId,
        node: NodeId,
        members: Members,
    },
    /// `cut B K DOWN UP`: a connection of the block's pipeline ends, after so many messages in flight.
    Cut {
        block: BlockId,
        connection: u64,
        down: u64,
        up: u64,
    },
    /// `fault NODE NTH`: the write with this number to come, from 1, to a data file at the node fails.
    Fault {
        node: NodeId,
        nth: u64,
    },
    /// `stop NODE`: the node's process stops.
    Stop {
        node: NodeId,
    },
    /// `start NODE`: the node's process starts again.
    Start {
        node: NodeId,
    },
    /// `run K`: up to so many drawn events, at most 1,000,000.
    Run {
        events: u64,
    },
    /// `settle`: drawn events until none is enabled.
    Settle,
    /// `step B ..`: one event of the block's pipeline.
    Step {
        block: BlockId,
        event: StepEvent,
    },
    /// `expect NODE B STATE STAMP LENGTH`: what the node's replica is at the end.
    Expect {
        node: NodeId,
        block: BlockId,
        state: ReplicaState,
        stamp: Stamp,
        written: u64,
    },
}

/// One event of a block's pipeline, whose connections are numbered from the client's, 0.
#[derive(Clone, Copy, Debug, PartialEq, Eq)]
pub enum StepEvent {
    /// The writing client's own step.
    Writer,
    /// The lower end of the connection takes the next message.
    Down { connection: u64 },
    /// The lower end's responder acts by itself.
    Ready { connection: u64 },
    /// The upper end of the connection takes the next message.
    Up { connection: u64 },
}

/// A line that says something, and its number in the script, from 1.
#[derive(Debug, PartialEq, Eq, Drop)]
pub struct ScriptLine {
    pub number: u64,
    pub instruction: Instruction,
}

/// A script: its lines that say something, in order, seen as their list.
#[derive(Debug, Drop)]
pub struct Script {
    lines: Vec<ScriptLine>,
}

impl Model for Script {
    ghost use Rattle.std.specs.Prelude.{List};
    ghost use Rattle.script_lang.specs.declared.instructions.ScriptLine.{ScriptLine};

    ghost Value = { List ScriptLine };

    ghost view = { λ l. l.lines.items };
}

impl Script {
    /// The script of these lines.
    pub fn from_vec(lines: Vec<ScriptLine>) -> Script
        ensures { result ≡ lines.items }
    {
        Script { lines }
    }

    /// The lines, in the vector that holds them: nothing is copied.
    pub fn into_vec(self) -> Vec<ScriptLine>
        ensures { result.items ≡ self }
    {
        let Script { lines } = self;
        lines
    }

    /// The lines.
    pub fn as_slice(&self) -> &[ScriptLine]
        ensures { result.now ≡ self.now }
    {
        self.lines.as_slice()
    }

    /// How many lines there are.
    pub fn len(&self) -> usize
        ensures { result ≡ length self.now }
    {
        self.lines.len()
    }

    /// Whether there is no line.
    pub fn is_empty(&self) -> bool
        ensures { IsTrue result ↔ (length self.now ≡ 0) }
    {
        self.lines.is_empty()
    }
}
