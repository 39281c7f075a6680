//! What the lines before a line tell, against which it must fit.

ghost use Rattle.std.specs.Prelude.{◌≡◌, ◌<◌, ◌≤◌, ◌+◌, ◌∷◌, [], ◌&&◌, not, nat_lt, nat_le, is_none, OnOk, true, false};
ghost use Rattle.hd_base.specs.Results.{with_value};
ghost use Rattle.script_lang.specs.Rules.{by_rules, Gives};

use crate::faults::{BadKind, Stop};
use crate::instructions::Instruction;
use hd_base::{BlockId, MAX_NODES, NodeId};
use std::alloc::{AllocError, Global};
use std::collections::BTreeMap;

/// A slot for each node that there may be.
const NODE_SLOTS: usize = MAX_NODES as usize;

/// The most blocks that a script creates.
const MAX_BLOCKS: u64 = 1_024;

/// The most bytes that the lines of a script write together, and the most that they read together.
const MAX_BYTES: u64 = 33_554_432;

/// Which line of the head is next.
#[derive(Clone, Copy, Debug, PartialEq, Eq)]
pub(crate) enum Head {
    /// `nodes`.
    Nodes,
    /// `seed`.
    Seed,
    /// None: both were there.
    Body,
}

/// What a block's lines were.
#[derive(Clone, Copy, Debug, PartialEq, Eq)]
pub(crate) enum Stage {
    /// Its sums have a rule, and it wasn't created.
    Ruled,
    /// It was created or appended to, and not closed since.
    Open,
    /// It was closed, and not appended to since.
    Closed,
}

/// What the lines before tell.
#[derive(Drop)]
pub(crate) struct Progress {
    /// Which line of the head is next.
    pub head: Head,
    /// How many nodes there are.
    pub nodes: u32,
    stopped: [bool; NODE_SLOTS],
    blocks: BTreeMap<u64, Stage>,
    created: u64,
    written: u64,
    read: u64,
    ghost few: { nodes ≤ 16 },
}

impl Progress {
    ghost use Rattle.script_lang.specs.Fits.{start, is_open, is_closed, is_created, block_rule, with_stage, with_stopped, moved, created_now, wrote, has_read, stopped_now, started_now, taken, before_of, IsInRange};

    /// Before the first line.
    pub fn new(alloc: Global) -> Progress
        ensures { before_of result ≡ start }
    {
        Progress {
            head: Head::Nodes,
            nodes: 0,
            stopped: [false; NODE_SLOTS],
            blocks: BTreeMap::new(alloc),
            created: 0,
            written: 0,
            read: 0,
        }
    }

    /// Takes a line, which must fit those before it.
    pub fn take(&mut self, line: &Instruction) -> Result<(), Stop>
        requires { IsInRange line.now }
        ensures { Gives (with_value (λ _. before_of self.new) result) (taken (before_of self.old) line.now) }
    {
        match line {
            Instruction::Nodes { count } => {
                self.head = Head::Seed;
                self.nodes = *count;
                Ok(())
            }
            Instruction::Seed { .. } => {
                self.head = Head::Body;
                Ok(())
            }
            Instruction::Sums { block, .. } => self.rule(*block),
            Instruction::Create { block, .. } => self.create(*block),
            Instruction::Append { block, .. } => self.append(*block),
            Instruction::Write { block, bytes } => Ok(self.write(*block, bytes.len() as u64)?),
            Instruction::Fill { block, count } => Ok(self.write(*block, *count)?),
            Instruction::Hflush { block } => Ok(self.flush(*block)?),
            Instruction::Hsync { block } => Ok(self.flush(*block)?),
            Instruction::Close { block } => self.close(*block),
            Instruction::Read { block, count, .. } => Ok(self.read(*block, *count)?),
            Instruction::Recover { block, .. } => Ok(self.look_up(*block)?),
            Instruction::Cut { block, .. } => Ok(self.look_up(*block)?),
            Instruction::Step { block, .. } => Ok(self.look_up(*block)?),
            Instruction::Stop { node } => Ok(self.stop(*node)?),
            Instruction::Start { node } => Ok(self.start(*node)?),
            Instruction::Fault { .. }
            | Instruction::Run { .. }
            | Instruction::Settle
            | Instruction::Expect { .. } => Ok(()),
        }
    }

    /// What the block's lines were.
    fn stage(&self, block: BlockId) -> Option<Stage>
        ensures { result ≡ (before_of self.now).stage block.0 }
    {
        self.blocks.get(&block.0).copied()
    }

    /// Sets what the block's lines were.
    fn set_stage(&mut self, block: BlockId, stage: Stage) -> Result<(), AllocError>
        ensures { OnOk result (before_of self.new ≡ with_stage (before_of self.old) block stage) }
    {
        self.blocks.insert(block.0, stage)?;
        Ok(())
    }

    /// `sums` of a block.
    fn rule(&mut self, block: BlockId) -> Result<(), Stop>
        ensures { Gives (with_value (λ _. before_of self.new) result)
            (moved is_none (before_of self.old) block Stage.Ruled) }
    {
        if self.stage(block).is_some() {
            return Err(Stop::Bad(BadKind::Block));
        }
        Ok(self.set_stage(block, Stage::Ruled)?)
    }

    /// `create` of a block.
    fn create(&mut self, block: BlockId) -> Result<(), Stop>
        ensures { Gives (with_value (λ _. before_of self.new) result) (created_now (before_of self.old) block) }
    {
        if self.is_created(block) || self.created >= MAX_BLOCKS {
            return Err(Stop::Bad(BadKind::Block));
        }
        self.created += 1;
        Ok(self.set_stage(block, Stage::Open)?)
    }

    /// `append` to a block.
    fn append(&mut self, block: BlockId) -> Result<(), Stop>
        ensures { Gives (with_value (λ _. before_of self.new) result)
            (moved is_closed (before_of self.old) block Stage.Open) }
    {
        if self.stage(block) != Some(Stage::Closed) {
            return Err(Stop::Bad(BadKind::Block));
        }
        Ok(self.set_stage(block, Stage::Open)?)
    }

    /// `close` of a block.
    fn close(&mut self, block: BlockId) -> Result<(), Stop>
        ensures { Gives (with_value (λ _. before_of self.new) result)
            (moved is_open (before_of self.old) block Stage.Closed) }
    {
        self.flush(block)?;
        Ok(self.set_stage(block, Stage::Closed)?)
    }

    /// `hflush` or `hsync` of a block.
    fn flush(&self, block: BlockId) -> Result<(), BadKind>
        ensures { result ≡ by_rules (block_rule is_open (before_of self.now) block ∷ []) tt }
    {
        if self.stage(block) == Some(Stage::Open) {
            Ok(())
        } else {
            Err(BadKind::Block)
        }
    }

    /// `write` or `fill` of a block, by so many bytes.
    fn write(&mut self, block: BlockId, count: u64) -> Result<(), BadKind>
        ensures { with_value (λ _. before_of self.new) result ≡ wrote (before_of self.old) block count }
    {
        self.flush(block)?;
        self.written = total(self.written, count)?;
        Ok(())
    }

    /// `read` of a block, of so many bytes.
    fn read(&mut self, block: BlockId, count: u64) -> Result<(), BadKind>
        ensures { with_value (λ _. before_of self.new) result ≡ has_read (before_of self.old) block count }
    {
        self.look_up(block)?;
        self.read = total(self.read, count)?;
        Ok(())
    }

    /// Any other line of a block.
    fn look_up(&self, block: BlockId) -> Result<(), BadKind>
        ensures { result ≡ by_rules (block_rule is_created (before_of self.now) block ∷ []) tt }
    {
        if self.is_created(block) {
            Ok(())
        } else {
            Err(BadKind::Block)
        }
    }

    /// Whether a block was created.
    fn is_created(&self, block: BlockId) -> bool
        ensures { result ≡ is_created ((before_of self.now).stage block.0) }
    {
        matches!(self.stage(block), Some(Stage::Open | Stage::Closed))
    }

    /// `stop` of a node.
    fn stop(&mut self, node: NodeId) -> Result<(), BadKind>
        requires { node.0 < 16 }
        ensures { with_value (λ _. before_of self.new) result ≡ stopped_now (before_of self.old) node }
    {
        if self.stopped[node.0 as usize] {
            return Err(BadKind::Node);
        }
        self.set_stopped(node, true);
        Ok(())
    }

    /// `start` of a node.
    fn start(&mut self, node: NodeId) -> Result<(), BadKind>
        requires { node.0 < 16 }
        ensures { with_value (λ _. before_of self.new) result ≡ started_now (before_of self.old) node }
    {
        if !self.stopped[node.0 as usize] {
            return Err(BadKind::Node);
        }
        self.set_stopped(node, false);
        Ok(())
    }

    /// Sets whether a node is stopped.
    fn set_stopped(&mut self, node: NodeId, stopped: bool)
        requires { node.0 < 16 }
        ensures { before_of self.new ≡ with_stopped (before_of self.old) node stopped }
    {
        self.stopped[node.0 as usize] = stopped;
    }
}

/// A sum of bytes with more of them, which must be within the limit.
fn total(bytes: u64, more: u64) -> Result<u64, BadKind>
    ensures { result ≡ by_rules ((BadKind.TooMuch, nat_le (bytes + more) MAX_BYTES) ∷ []) (bytes + more) }
{
    match bytes.checked_add(more) {
        Some(total) if total <= MAX_BYTES => Ok(total),
        _ => Err(BadKind::TooMuch),
    }
}
