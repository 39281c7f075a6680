//! Writing the messages of requests.

ghost use Rattle.std.specs.Prelude.{◌≡◌, ◌++◌, ◌≤◌, ◌<◌, ◌^◌, List, OnOk, IfSome};
ghost use Rattle.std.specs.List.{flat_map};
ghost use Rattle.proto_fields.specs.Writing.{varint_field};
ghost use Rattle.op_headers.specs.Tables.{EachFits, message_field, if_there};
ghost use Rattle.op_headers.specs.Formats.{
  block_format,
  identity_format,
  node_format,
  base_format,
  client_format,
  checksum_format,
  write_format,
  read_format,
  transfer_format,
  checksum_op_format,
  recovery_format,
  length_to_encode,
};
ghost use Rattle.op_headers.specs.Recoveries.{HasItsLength};

use crate::blocks::BlockRef;
use crate::nodes::NodeRef;
use crate::ops::{ChecksumOp, ReadOp, RecoveryKind, RecoveryOp, TransferOp, WriteOp};
use proto_fields::{put_bytes, put_varint};
use std::alloc::AllocError;

/// Appends the message of a block.
#[tactic(auto, unfolding(crate::specs::Formats::block_format))]
fn push_block(block: &BlockRef, out: &mut Vec<u8>) -> Result<(), AllocError>
    ensures ok { OnOk result (out.new.items ≡ out.old.items ++ block_format.text block.now) }
    ensures fits { OnOk result (block_format.fits block.now) }
{
    put_bytes(out, 1, block.pool.as_slice())?;
    put_varint(out, 2, block.block.0)?;
    put_varint(out, 3, block.stamp.0)?;
    put_varint(out, 4, block.bytes)
}

/// Appends a header's block as a field.
#[tactic(auto, unfolding(crate::specs::Formats::base_format, crate::specs::Tables::message_field))]
fn push_base(block: &BlockRef, out: &mut Vec<u8>) -> Result<(), AllocError>
    ensures ok { OnOk result (out.new.items ≡ out.old.items ++ base_format.text (record { block = block.now })) }
    ensures fits { OnOk result (block_format.fits block.now) }
{
    let mut inner = Vec::new(*out.allocator());
    push_block(block, &mut inner)?;
    put_bytes(out, 1, inner.as_slice())
}

/// Appends the header of a client's request.
#[tactic(auto, unfolding(crate::specs::Formats::client_format, crate::specs::Tables::message_field))]
fn push_client(block: &BlockRef, client: &[u8], out: &mut Vec<u8>) -> Result<(), AllocError>
    ensures ok { OnOk result (out.new.items ≡ out.old.items
        ++ client_format.text (record { block = block.now; client = client.now })) }
    ensures fits { OnOk result (block_format.fits block.now) }
{
    let mut inner = Vec::new(*out.allocator());
    push_base(block, &mut inner)?;
    put_bytes(out, 1, inner.as_slice())?;
    put_bytes(out, 2, client)
}

/// Appends the message of a node's numbers and names.
#[tactic(auto, unfolding(crate::specs::Formats::identity_format))]
fn push_identity(node: &NodeRef, out: &mut Vec<u8>) -> Result<(), AllocError>
    ensures ok { OnOk result (out.new.items ≡ out.old.items ++ identity_format.text (record { node = node.now })) }
    ensures fits { OnOk result ((node.now.xfer < 2 ^ 32) × (node.now.info < 2 ^ 32) × (node.now.ipc < 2 ^ 32)) }
{
    put_bytes(out, 1, node.ip.as_slice())?;
    put_bytes(out, 2, node.host.as_slice())?;
    put_bytes(out, 3, node.uuid.as_slice())?;
    put_varint(out, 4, u64::from(node.xfer))?;
    put_varint(out, 5, u64::from(node.info))?;
    put_varint(out, 6, u64::from(node.ipc))
}

/// Appends a node as a field.
#[tactic(auto, unfolding(crate::specs::Formats::node_format, crate::specs::Tables::message_field))]
fn put_node(field: u32, node: &NodeRef, out: &mut Vec<u8>) -> Result<(), AllocError>
    requires least { 1 ≤ field }
    requires most { field < 2 ^ 29 }
    ensures ok { OnOk result (out.new.items ≡ out.old.items ++ message_field field node_format node.now) }
    ensures fits { OnOk result (node_format.fits node.now) }
{
    let mut identity = Vec::new(*out.allocator());
    push_identity(node, &mut identity)?;
    let mut inner = Vec::new(*out.allocator());
    put_bytes(&mut inner, 1, identity.as_slice())?;
    put_bytes(out, field, inner.as_slice())
}

/// Appends nodes, each as a field.
fn put_nodes(field: u32, nodes: &[NodeRef], out: &mut Vec<u8>) -> Result<(), AllocError>
    requires least { 1 ≤ field }
    requires most { field < 2 ^ 29 }
    ensures ok { OnOk result (out.new.items ≡ out.old.items ++ flat_map (message_field field node_format) nodes.now) }
    ensures fits { OnOk result (EachFits node_format.fits nodes.now) }
{
    for node in nodes {
        put_node(field, node, out)?;
    }
    Ok(())
}

/// Appends a node as a field, where there is one.
fn put_source(source: &Option<NodeRef>, out: &mut Vec<u8>) -> Result<(), AllocError>
    ensures ok { OnOk result (out.new.items ≡ out.old.items ++ if_there (message_field 3 node_format) source.now) }
    ensures fits { OnOk result (IfSome source.now node_format.fits) }
{
    match source {
        Some(node) => put_node(3, node, out),
        None => Ok(()),
    }
}

/// Appends the header of a client's request as a field.
#[tactic(auto, unfolding(crate::specs::Tables::message_field))]
fn put_header(block: &BlockRef, client: &[u8], out: &mut Vec<u8>) -> Result<(), AllocError>
    ensures ok { OnOk result (out.new.items ≡ out.old.items
        ++ message_field 1 client_format (record { block = block.now; client = client.now })) }
    ensures fits { OnOk result (block_format.fits block.now) }
{
    let mut inner = Vec::new(*out.allocator());
    push_client(block, client, &mut inner)?;
    put_bytes(out, 1, inner.as_slice())
}

/// Appends a kind of sums as a field.
#[tactic(auto, unfolding(crate::specs::Formats::checksum_format, crate::specs::Tables::message_field))]
fn put_checksum(kind: u32, chunk: u32, out: &mut Vec<u8>) -> Result<(), AllocError>
    ensures ok { OnOk result (out.new.items ≡ out.old.items
        ++ message_field 9 checksum_format (record { kind = kind; chunk = chunk })) }
    ensures fits { OnOk result (chunk < 2 ^ 32) }
{
    let mut inner = Vec::new(*out.allocator());
    put_varint(&mut inner, 1, u64::from(kind))?;
    put_varint(&mut inner, 2, u64::from(chunk))?;
    put_bytes(out, 9, inner.as_slice())
}

/// Appends the message of a write request: source where it is there.
#[tactic(auto, unfolding(crate::specs::Formats::write_format))]
pub(crate) fn push_write(op: &WriteOp, out: &mut Vec<u8>) -> Result<(), AllocError>
    ensures ok { OnOk result (out.new.items ≡ out.old.items ++ write_format.text op.now) }
    ensures fits { OnOk result (write_format.fits op.now) }
{
    put_header(&op.block, op.client.as_slice(), out)?;
    put_nodes(2, op.targets.as_slice(), out)?;
    put_source(&op.source, out)?;
    put_varint(out, 4, u64::from(op.stage))?;
    put_varint(out, 5, u64::from(op.pipeline))?;
    put_varint(out, 6, op.min)?;
    put_varint(out, 7, op.max)?;
    put_varint(out, 8, op.latest.0)?;
    put_checksum(op.kind, op.chunk, out)
}

/// Appends the message of a read request. It never says of sums that they are to be left out.
#[tactic(auto, unfolding(crate::specs::Formats::read_format))]
pub(crate) fn push_read(op: &ReadOp, out: &mut Vec<u8>) -> Result<(), AllocError>
    ensures ok { OnOk result (out.new.items ≡ out.old.items ++ read_format.text op.now) }
    ensures fits { OnOk result (read_format.fits op.now) }
{
    put_header(&op.block, op.client.as_slice(), out)?;
    put_varint(out, 2, op.offset)?;
    put_varint(out, 3, op.len)
}

/// Appends the message of a transfer request.
#[tactic(auto, unfolding(crate::specs::Formats::transfer_format))]
pub(crate) fn push_transfer(op: &TransferOp, out: &mut Vec<u8>) -> Result<(), AllocError>
    ensures ok { OnOk result (out.new.items ≡ out.old.items ++ transfer_format.text op.now) }
    ensures fits { OnOk result (transfer_format.fits op.now) }
{
    put_header(&op.block, op.client.as_slice(), out)?;
    put_nodes(2, op.targets.as_slice(), out)
}

/// Appends the message of a checksum request.
#[tactic(auto, unfolding(crate::specs::Formats::checksum_op_format, crate::specs::Tables::message_field))]
pub(crate) fn push_checksum(op: &ChecksumOp, out: &mut Vec<u8>) -> Result<(), AllocError>
    ensures ok { OnOk result (out.new.items ≡ out.old.items ++ checksum_op_format.text op.now) }
    ensures fits { OnOk result (checksum_op_format.fits op.now) }
{
    let mut inner = Vec::new(*out.allocator());
    push_base(&op.block, &mut inner)?;
    put_bytes(out, 1, inner.as_slice())
}

/// Appends a block as a field.
#[tactic(auto, unfolding(crate::specs::Tables::message_field))]
fn put_block(block: &BlockRef, out: &mut Vec<u8>) -> Result<(), AllocError>
    ensures ok { OnOk result (out.new.items ≡ out.old.items ++ message_field 2 block_format block.now) }
    ensures fits { OnOk result (block_format.fits block.now) }
{
    let mut inner = Vec::new(*out.allocator());
    push_block(block, &mut inner)?;
    put_bytes(out, 2, inner.as_slice())
}

/// Appends the new length of a last step.
fn put_length(kind: RecoveryKind, new_length: u64, out: &mut Vec<u8>) -> Result<(), AllocError>
    ensures ok { OnOk result (out.new.items ≡ out.old.items
        ++ if_there (varint_field 4) (length_to_encode kind new_length)) }
    ensures fits { new_length < 2 ^ 64 }
{
    match kind {
        RecoveryKind::Update => put_varint(out, 4, new_length),
        RecoveryKind::Begin | RecoveryKind::Init => Ok(()),
    }
}

/// Appends the message of a recovery request: newLength in a last step alone.
#[tactic(auto, unfolding(crate::specs::Formats::recovery_format))]
pub(crate) fn push_recovery(op: &RecoveryOp, out: &mut Vec<u8>) -> Result<(), AllocError>
    ensures ok { OnOk result (out.new.items ≡ out.old.items ++ recovery_format.text op.now) }
    ensures fits { OnOk result (HasItsLength op.now.kind op.now.new_length → recovery_format.fits op.now) }
{
    put_varint(out, 1, u64::from(op.kind.number()))?;
    put_block(&op.block, out)?;
    put_varint(out, 3, op.recovery.0)?;
    put_length(op.kind, op.new_length, out)?;
    put_nodes(5, op.targets.as_slice(), out)
}
