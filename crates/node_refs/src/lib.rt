//! What requests say of the product's own nodes.
#![tactic(auto)]

ghost use Rattle.std.specs.Prelude.{◌≡◌, IfOk};
ghost use Rattle.node_refs.specs.NodeRefs.{port_of, ref_of, uuid_of};

use hd_base::{ByteList, FIRST_PORT, NodeId};
use op_headers::NodeRef;
use std::alloc::{AllocError, Global};
use uuid::Uuid;

/// The unique name of node 0 as a number: of version 4 and variant 1 (RFC 9562). The others' follow.
pub const FIRST_UUID: u128 = 0x4000_8000_0000_0000_0000;

/// What requests say of a node: it is at this machine, its port is 9866 and its number (at most the
/// greatest number of a port's field), its unique name is a UUID as hyphenated text in lower case, and
/// it has no information server and no server of calls.
pub fn node_ref(alloc: Global, node: NodeId) -> Result<NodeRef, AllocError>
    ensures { IfOk result (λ told. told ≡ ref_of node) }
{
    Ok(NodeRef {
        ip: ByteList::from_slice(alloc, b"127.0.0.1")?,
        host: ByteList::from_slice(alloc, b"localhost")?,
        uuid: unique_name(alloc, node)?,
        xfer: port(node),
        info: 0,
        ipc: 0,
    })
}

/// The node's unique name.
fn unique_name(alloc: Global, node: NodeId) -> Result<ByteList, AllocError>
    ensures { IfOk result (λ name. name ≡ uuid_of node) }
{
    let mut buffer = Uuid::encode_buffer();
    let name = Uuid::from_u128(FIRST_UUID + u128::from(node.0)).hyphenated();
    let text = name.encode_lower(&mut buffer);
    ByteList::from_slice(alloc, text.as_bytes())
}

/// The node's port.
fn port(node: NodeId) -> u32
    ensures { result ≡ port_of node }
{
    u32::from(FIRST_PORT).saturating_add(node.0)
}
