//! Which member an answer to a request names.

ghost use Rattle.std.specs.Prelude.{◌≡◌, ◌↔◌, ◌++◌, IsTrue};
ghost use Rattle.node_refs.specs.NodeRefs.{port_of};
ghost use Rattle.pipe_recovery.specs.Naming.{is_address, named_member};

use hd_base::{FIRST_PORT, NodeId};
use itoa::Buffer;

/// What the address of each node begins with.
const HOST: &[u8] = b"127.0.0.1:";

/// The member whose address this text is.
pub(crate) fn named_member(members: &[NodeId], text: &[u8]) -> Option<NodeId>
    ensures { result ≡ named_member members.now text.now }
{
    let member = members.iter().find(|member| has_address(**member, text))?;
    Some(*member)
}

/// Whether this text is the address of a node.
fn has_address(node: NodeId, text: &[u8]) -> bool
    ensures { result ≡ is_address text.now node }
{
    let mut buffer = Buffer::new();
    is_joined(HOST, buffer.format(port(node)).as_bytes(), text)
}

/// Whether this text is the one and then the other.
fn is_joined(front: &[u8], back: &[u8], text: &[u8]) -> bool
    ensures { IsTrue result ↔ (front.now ++ back.now ≡ text.now) }
{
    match text.strip_prefix(front) {
        Some(rest) => rest == back,
        None => false,
    }
}

/// A node's port, as requests say it.
fn port(node: NodeId) -> u32
    ensures { result ≡ port_of node }
{
    u32::from(FIRST_PORT).saturating_add(node.0)
}
