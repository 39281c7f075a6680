//! Reading the messages of requests.

ghost use Rattle.std.specs.Prelude.{◌≡◌, ◌<◌, ℕ, Ok, IfSome};
ghost use Rattle.hd_base.specs.Results.{with_cause, with_value};
ghost use Rattle.op_headers.specs.Tables.{decoded_field, decoded_message, Required, Default, Optional};
ghost use Rattle.op_headers.specs.Paths.{below, both};
ghost use Rattle.op_headers.specs.Formats.{write_from, read_from, transfer_from, checksum_op_from, recovery_from};

use crate::blocks::BlockRef;
use crate::headers::{BaseHeader, Checksum, ClientHeader};
use crate::messages::{Message, UINT32, message_under, small_under};
use crate::nodes::{NodeRef, Targets, nodes_under};
use crate::ops::{ChecksumOp, ReadOp, RecoveryKind, RecoveryOp, TransferOp, WriteOp};
use crate::paths::{Decoded, optional_message, required, required_message, within};
use hd_base::Stamp;
use proto_fields::{FieldsFault, fields};
use std::alloc::Global;

/// How many stages there are.
const STAGES: u64 = 9;

/// How many kinds of recovery steps there are.
const RECOVERY_KINDS: u64 = 3;

/// The numbers of a write request, as they were found.
#[derive(Clone, Copy)]
struct WriteNumbers {
    stage: Option<u32>,
    pipeline: Option<u32>,
    min: Option<u64>,
    max: Option<u64>,
    latest: Option<u64>,
}

impl Message for WriteOp {
    ghost use Rattle.op_headers.specs.Formats.{write_format};

    ghost format = { write_format };

    #[tactic(auto, unfolding(crate::specs::Formats::write_format))]
    fn read(alloc: Global, bytes: &[u8]) -> Result<Decoded<WriteOp>, FieldsFault> {
        let listed = fields(alloc, bytes)?;
        let header = message_under(alloc, bytes, 1, &listed)?;
        let targets = nodes_under(alloc, bytes, 2, &listed)?;
        let source = message_under(alloc, bytes, 3, &listed)?;
        let numbers = WriteNumbers {
            stage: small_under(&listed, 4, STAGES),
            pipeline: small_under(&listed, 5, UINT32),
            min: listed.number(6),
            max: listed.number(7),
            latest: listed.number(8),
        };
        let checksum = message_under(alloc, bytes, 9, &listed)?;
        Ok(decoded_write(header, targets, source, numbers, checksum))
    }
}

/// The write request that these fields tell.
fn decoded_write(
    header: Option<Decoded<ClientHeader>>,
    targets: Decoded<Targets>,
    source: Option<Decoded<NodeRef>>,
    numbers: WriteNumbers,
    checksum: Option<Decoded<Checksum>>,
) -> Decoded<WriteOp>
    requires { IfSome numbers.stage (λ s. s < 9) }
    ensures { result ≡ with_value write_from
        (both (decoded_message Required 1 header) (both (with_cause (below 2) targets)
        (both (decoded_message Optional 3 source) (both (decoded_field Required 4 numbers.stage)
        (both (decoded_field Required 5 numbers.pipeline) (both (decoded_field Required 6 numbers.min)
        (both (decoded_field Required 7 numbers.max) (both (decoded_field Required 8 numbers.latest)
        (both (decoded_message Required 9 checksum) (Ok tt)))))))))) }
{
    let header = required_message(1, header)?;
    let targets = within(2, targets)?;
    let source = optional_message(3, source)?;
    let stage = required(4, numbers.stage)?;
    let pipeline = required(5, numbers.pipeline)?;
    let min = required(6, numbers.min)?;
    let max = required(7, numbers.max)?;
    let latest = required(8, numbers.latest)?;
    let checksum = required_message(9, checksum)?;
    Ok(WriteOp {
        block: header.block,
        client: header.client,
        targets,
        source,
        stage,
        pipeline,
        min,
        max,
        latest: Stamp(latest),
        kind: checksum.kind,
        chunk: checksum.chunk,
    })
}

impl Message for ReadOp {
    ghost use Rattle.op_headers.specs.Formats.{read_format};

    ghost format = { read_format };

    #[tactic(auto, unfolding(crate::specs::Formats::read_format))]
    fn read(alloc: Global, bytes: &[u8]) -> Result<Decoded<ReadOp>, FieldsFault> {
        let listed = fields(alloc, bytes)?;
        let header = message_under(alloc, bytes, 1, &listed)?;
        Ok(decoded_read(header, listed.number(2), listed.number(3)))
    }
}

/// The read request that these fields tell, whatever it says of sums, which are always sent.
fn decoded_read(
    header: Option<Decoded<ClientHeader>>,
    offset: Option<u64>,
    len: Option<u64>,
) -> Decoded<ReadOp>
    ensures { (sums : ℕ) → result ≡ with_value read_from
        (both (decoded_message Required 1 header)
        (both (decoded_field Required 2 offset) (both (decoded_field Required 3 len) (Ok (sums, tt))))) }
{
    let header = required_message(1, header)?;
    let offset = required(2, offset)?;
    let len = required(3, len)?;
    Ok(ReadOp {
        block: header.block,
        client: header.client,
        offset,
        len,
    })
}

impl Message for TransferOp {
    ghost use Rattle.op_headers.specs.Formats.{transfer_format};

    ghost format = { transfer_format };

    #[tactic(auto, unfolding(crate::specs::Formats::transfer_format))]
    fn read(alloc: Global, bytes: &[u8]) -> Result<Decoded<TransferOp>, FieldsFault> {
        let listed = fields(alloc, bytes)?;
        let header = message_under(alloc, bytes, 1, &listed)?;
        let targets = nodes_under(alloc, bytes, 2, &listed)?;
        Ok(decoded_transfer(header, targets))
    }
}

/// The transfer request that these fields tell.
fn decoded_transfer(
    header: Option<Decoded<ClientHeader>>,
    targets: Decoded<Targets>,
) -> Decoded<TransferOp>
    ensures { result ≡ with_value transfer_from
        (both (decoded_message Required 1 header) (both (with_cause (below 2) targets) (Ok tt))) }
{
    let header = required_message(1, header)?;
    let targets = within(2, targets)?;
    Ok(TransferOp {
        block: header.block,
        client: header.client,
        targets,
    })
}

impl Message for ChecksumOp {
    ghost use Rattle.op_headers.specs.Formats.{checksum_op_format};

    ghost format = { checksum_op_format };

    #[tactic(auto, unfolding(crate::specs::Formats::checksum_op_format))]
    fn read(alloc: Global, bytes: &[u8]) -> Result<Decoded<ChecksumOp>, FieldsFault> {
        let listed = fields(alloc, bytes)?;
        let header = message_under(alloc, bytes, 1, &listed)?;
        Ok(decoded_checksum_op(header))
    }
}

/// The checksum request that this field tells.
fn decoded_checksum_op(header: Option<Decoded<BaseHeader>>) -> Decoded<ChecksumOp>
    ensures { result ≡ with_value checksum_op_from (both (decoded_message Required 1 header) (Ok tt)) }
{
    let header = required_message(1, header)?;
    Ok(ChecksumOp {
        block: header.block,
    })
}

impl Message for RecoveryOp {
    ghost use Rattle.op_headers.specs.Formats.{recovery_format};

    ghost format = { recovery_format };

    #[tactic(auto, unfolding(crate::specs::Formats::recovery_format))]
    fn read(alloc: Global, bytes: &[u8]) -> Result<Decoded<RecoveryOp>, FieldsFault> {
        let listed = fields(alloc, bytes)?;
        let kind = small_under(&listed, 1, RECOVERY_KINDS);
        let block = message_under(alloc, bytes, 2, &listed)?;
        let recovery = listed.number(3);
        let new_length = listed.number(4);
        let targets = nodes_under(alloc, bytes, 5, &listed)?;
        Ok(decoded_recovery(kind, block, recovery, new_length, targets))
    }
}

/// The recovery request that these fields tell.
fn decoded_recovery(
    kind: Option<u32>,
    block: Option<Decoded<BlockRef>>,
    recovery: Option<u64>,
    new_length: Option<u64>,
    targets: Decoded<Targets>,
) -> Decoded<RecoveryOp>
    ensures { result ≡ with_value recovery_from
        (both (decoded_field Required 1 kind) (both (decoded_message Required 2 block)
        (both (decoded_field Required 3 recovery) (both (decoded_field (Default 0) 4 new_length)
        (both (with_cause (below 5) targets) (Ok tt)))))) }
{
    let kind = required(1, kind)?;
    let block = required_message(2, block)?;
    let recovery = required(3, recovery)?;
    let targets = within(5, targets)?;
    Ok(RecoveryOp {
        kind: RecoveryKind::with_number(kind),
        block,
        recovery: Stamp(recovery),
        new_length: new_length.unwrap_or(0),
        targets,
    })
}
