//! What requests have in common: their headers, and the kind of sums.

ghost use Rattle.std.specs.Prelude.{◌≡◌, ◌<◌, Ok, IfSome};
ghost use Rattle.hd_base.specs.Results.{with_value};
ghost use Rattle.op_headers.specs.Tables.{decoded_field, decoded_message, Required};
ghost use Rattle.op_headers.specs.Paths.{both};
ghost use Rattle.op_headers.specs.Formats.{base_from, client_from, checksum_from};

use crate::blocks::BlockRef;
use crate::messages::{Message, UINT32, message_under, small_under, text_under};
use crate::paths::{Decoded, required, required_message};
use hd_base::ByteList;
use proto_fields::{FieldsFault, fields};
use std::alloc::Global;
use std::marker::Model;

/// A request's header (HDFS `BaseHeaderProto`). Its token is skipped.
#[derive(Drop)]
pub(crate) struct BaseHeader {
    pub block: BlockRef,
}

impl Message for BaseHeader {
    ghost use Rattle.op_headers.specs.Formats.{base_format};

    ghost format = { base_format };

    #[tactic(auto, unfolding(crate::specs::Formats::base_format))]
    fn read(alloc: Global, bytes: &[u8]) -> Result<Decoded<BaseHeader>, FieldsFault> {
        let listed = fields(alloc, bytes)?;
        let block = message_under(alloc, bytes, 1, &listed)?;
        Ok(decoded_base(block))
    }
}

/// The header that this field tells.
fn decoded_base(block: Option<Decoded<BlockRef>>) -> Decoded<BaseHeader>
    ensures { result ≡ with_value base_from (both (decoded_message Required 1 block) (Ok tt)) }
{
    let block = required_message(1, block)?;
    Ok(BaseHeader { block })
}

/// The header of a client's request (HDFS `ClientOperationHeaderProto`).
#[derive(Drop)]
pub(crate) struct ClientHeader {
    pub block: BlockRef,
    pub client: ByteList,
}

impl Message for ClientHeader {
    ghost use Rattle.op_headers.specs.Formats.{client_format};

    ghost format = { client_format };

    #[tactic(auto, unfolding(crate::specs::Formats::client_format))]
    fn read(alloc: Global, bytes: &[u8]) -> Result<Decoded<ClientHeader>, FieldsFault> {
        let listed = fields(alloc, bytes)?;
        let base = message_under(alloc, bytes, 1, &listed)?;
        let client = text_under(alloc, bytes, 2, &listed)?;
        Ok(decoded_client(base, client))
    }
}

/// The header that these fields tell.
fn decoded_client(
    base: Option<Decoded<BaseHeader>>,
    client: Option<ByteList>,
) -> Decoded<ClientHeader>
    ensures { result ≡ with_value client_from
        (both (decoded_message Required 1 base) (both (decoded_field Required 2 client) (Ok tt))) }
{
    let base = required_message(1, base)?;
    let client = required(2, client)?;
    Ok(ClientHeader {
        block: base.block,
        client,
    })
}

/// A kind of sums, 0 to 2, and how many bytes each is of (HDFS `ChecksumProto`).
#[derive(Drop)]
pub(crate) struct Checksum {
    pub kind: u32,
    pub chunk: u32,
}

impl Model for Checksum {
    ghost use Rattle.std.specs.Prelude.{◌≤◌};
    ghost use Rattle.op_headers.specs.Values.{ChecksumFields};

    ghost Value = { ChecksumFields };

    ghost view = { λ c. record { kind = c.kind; chunk = c.chunk } };

    ghost invariant = { λ c. c.kind ≤ 2 };
}

impl Message for Checksum {
    ghost use Rattle.op_headers.specs.Formats.{checksum_format};

    ghost format = { checksum_format };

    #[tactic(auto, unfolding(crate::specs::Formats::checksum_format))]
    fn read(alloc: Global, bytes: &[u8]) -> Result<Decoded<Checksum>, FieldsFault> {
        let listed = fields(alloc, bytes)?;
        let kind = small_under(&listed, 1, 3);
        let chunk = small_under(&listed, 2, UINT32);
        Ok(decoded_checksum(kind, chunk))
    }
}

/// The kind of sums that these fields tell.
fn decoded_checksum(kind: Option<u32>, chunk: Option<u32>) -> Decoded<Checksum>
    requires { IfSome kind (λ k. k < 3) }
    ensures { result ≡ with_value checksum_from
        (both (decoded_field Required 1 kind) (both (decoded_field Required 2 chunk) (Ok tt))) }
{
    let kind = required(1, kind)?;
    let chunk = required(2, chunk)?;
    Ok(Checksum { kind, chunk })
}
