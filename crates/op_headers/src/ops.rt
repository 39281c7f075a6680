//! The requests of the data transfer protocol.

ghost use Rattle.std.specs.Prelude.{◌≡◌, IfOk};

use crate::blocks::BlockRef;
use crate::nodes::{NodeRef, Targets};
use hd_base::{ByteList, Stamp};
use std::alloc::AllocError;
use std::marker::Model;

/// A request to a DataNode.
#[derive(Debug, Drop, PartialEq, Eq)]
pub enum Op {
    /// Opcode 80, WRITE_BLOCK.
    Write(WriteOp),
    /// Opcode 81, READ_BLOCK.
    Read(ReadOp),
    /// Opcode 86, TRANSFER_BLOCK.
    Transfer(TransferOp),
    /// Opcode 85, BLOCK_CHECKSUM.
    Checksum(ChecksumOp),
    /// Opcode 127, CUSTOM: a step of block recovery.
    Recovery(RecoveryOp),
}

impl Op {
    /// The same request once more.
    pub fn duplicate(&self) -> Result<Op, AllocError>
        ensures { IfOk result (λ copy. copy ≡ self.now) }
    {
        let copy = match self {
            Op::Write(op) => Op::Write(op.duplicate()?),
            Op::Read(op) => Op::Read(op.duplicate()?),
            Op::Transfer(op) => Op::Transfer(op.duplicate()?),
            Op::Checksum(op) => Op::Checksum(op.duplicate()?),
            Op::Recovery(op) => Op::Recovery(op.duplicate()?),
        };
        Ok(copy)
    }
}

/// A request to write a block (HDFS `OpWriteBlockProto`). The stage is at most 8, and the kind of
/// sums at most 2.
#[derive(Debug, Drop, PartialEq, Eq)]
pub struct WriteOp {
    /// The block.
    pub block: BlockRef,
    /// The client's name.
    pub client: ByteList,
    /// The members behind this one.
    pub targets: Targets,
    /// The member that forwards the request.
    pub source: Option<NodeRef>,
    /// The stage of the pipeline's construction (HDFS `BlockConstructionStage`), 0 to 8.
    pub stage: u32,
    /// How many members the pipeline has.
    pub pipeline: u32,
    /// How many bytes each replica has at least.
    pub min: u64,
    /// How many bytes each replica has at most.
    pub max: u64,
    /// The pipeline's generation stamp.
    pub latest: Stamp,
    /// The kind of sums (HDFS `ChecksumTypeProto`): none 0, CRC32 1, CRC32C 2.
    pub kind: u32,
    /// How many bytes a sum is of.
    pub chunk: u32,
}

impl Model for WriteOp {
    ghost use Rattle.std.specs.Prelude.{◌≤◌};
    ghost use Rattle.op_headers.specs.Values.{WriteFields};

    ghost Value = { WriteFields };

    ghost view = { λ w. record {
      block = w.block;
      client = w.client;
      targets = w.targets;
      source = w.source;
      stage = w.stage;
      pipeline = w.pipeline;
      min = w.min;
      max = w.max;
      latest = w.latest;
      kind = w.kind;
      chunk = w.chunk;
    } };

    ghost inverse = { λ w. record {
      block = w.block;
      client = w.client;
      targets = w.targets;
      source = w.source;
      stage = w.stage;
      pipeline = w.pipeline;
      min = w.min;
      max = w.max;
      latest = w.latest;
      kind = w.kind;
      chunk = w.chunk;
    } };

    ghost invariant = { λ w. (w.stage ≤ 8) × (w.kind ≤ 2) };
}

impl WriteOp {
    /// The same request once more.
    pub fn duplicate(&self) -> Result<WriteOp, AllocError>
        ensures { IfOk result (λ copy. copy ≡ self.now) }
    {
        let source = match &self.source {
            Some(node) => Some(node.duplicate()?),
            None => None,
        };
        Ok(WriteOp {
            block: self.block.duplicate()?,
            client: self.client.duplicate()?,
            targets: self.targets.duplicate()?,
            source,
            stage: self.stage,
            pipeline: self.pipeline,
            min: self.min,
            max: self.max,
            latest: self.latest,
            kind: self.kind,
            chunk: self.chunk,
        })
    }
}

/// A request to read a block (HDFS `OpReadBlockProto`).
#[derive(Debug, Drop, PartialEq, Eq)]
pub struct ReadOp {
    /// The block.
    pub block: BlockRef,
    /// The client's name.
    pub client: ByteList,
    /// Where to begin.
    pub offset: u64,
    /// How many bytes to read.
    pub len: u64,
}

impl ReadOp {
    /// The same request once more.
    pub fn duplicate(&self) -> Result<ReadOp, AllocError>
        ensures { IfOk result (λ copy. copy ≡ self.now) }
    {
        Ok(ReadOp {
            block: self.block.duplicate()?,
            client: self.client.duplicate()?,
            offset: self.offset,
            len: self.len,
        })
    }
}

/// A request to send a block to other nodes (HDFS `OpTransferBlockProto`).
#[derive(Debug, Drop, PartialEq, Eq)]
pub struct TransferOp {
    /// The block.
    pub block: BlockRef,
    /// The client's name.
    pub client: ByteList,
    /// The nodes to send it to.
    pub targets: Targets,
}

impl TransferOp {
    /// The same request once more.
    pub fn duplicate(&self) -> Result<TransferOp, AllocError>
        ensures { IfOk result (λ copy. copy ≡ self.now) }
    {
        Ok(TransferOp {
            block: self.block.duplicate()?,
            client: self.client.duplicate()?,
            targets: self.targets.duplicate()?,
        })
    }
}

/// A request for a block's checksum (HDFS `OpBlockChecksumProto`).
#[derive(Debug, Drop, PartialEq, Eq)]
pub struct ChecksumOp {
    /// The block.
    pub block: BlockRef,
}

impl ChecksumOp {
    /// The same request once more.
    pub fn duplicate(&self) -> Result<ChecksumOp, AllocError>
        ensures { IfOk result (λ copy. copy ≡ self.now) }
    {
        Ok(ChecksumOp {
            block: self.block.duplicate()?,
        })
    }
}

/// A step of block recovery, in the order of its numbers 0 to 2 in messages.
#[derive(Clone, Copy, Debug, PartialEq, Eq)]
pub enum RecoveryKind {
    /// A node is to lead the recovery.
    Begin,
    /// A member is to stop writing and tell its replica's state.
    Init,
    /// A member is to cut its replica and take the recovery's stamp.
    Update,
}

impl RecoveryKind {
    ghost use Rattle.std.specs.Prelude.{◌≡◌};
    ghost use Rattle.op_headers.specs.Recoveries.{kind_number, kind_with};

    /// The kind's number in messages.
    pub fn number(&self) -> u32
        ensures { result ≡ kind_number self.now }
    {
        match self {
            RecoveryKind::Begin => 0,
            RecoveryKind::Init => 1,
            RecoveryKind::Update => 2,
        }
    }

    /// The kind with this number, `Update` from 2 on.
    pub(crate) fn with_number(number: u32) -> RecoveryKind
        ensures { result ≡ kind_with number }
    {
        match number {
            0 => RecoveryKind::Begin,
            1 => RecoveryKind::Init,
            _ => RecoveryKind::Update,
        }
    }
}

/// A step of block recovery: the length is 0 unless the kind is `Update`, and only `Begin` has
/// targets.
#[derive(Debug, Drop, PartialEq, Eq)]
pub struct RecoveryOp {
    /// Which step.
    pub kind: RecoveryKind,
    /// The block.
    pub block: BlockRef,
    /// The recovery's number, a generation stamp.
    pub recovery: Stamp,
    /// How many bytes the replica is to have.
    pub new_length: u64,
    /// The members of the recovery.
    pub targets: Targets,
}

impl RecoveryOp {
    /// The same request once more.
    pub fn duplicate(&self) -> Result<RecoveryOp, AllocError>
        ensures { IfOk result (λ copy. copy ≡ self.now) }
    {
        Ok(RecoveryOp {
            kind: self.kind,
            block: self.block.duplicate()?,
            recovery: self.recovery,
            new_length: self.new_length,
            targets: self.targets.duplicate()?,
        })
    }
}
