//! Nodes, as requests name them.

ghost use Rattle.std.specs.Prelude.{◌≡◌, ◌==◌, ◌<◌, ◌^◌, ◌++◌, ◌∷◌, [], Ok, OnOk, OnErr, IfOk, length};
ghost use Rattle.std.specs.Cmp.Lexicographic.{pointwise, lists_per, lists_equiv};
ghost use Rattle.std.specs.Iterator.Runs.{EveryRun, ItemsMapTo};
ghost use Rattle.std.specs.Slice.Iter.{iter_rest, iter_steps};
ghost use Rattle.op_headers.specs.declared.nodes.NodeRef.{NodeRef};
ghost use Rattle.hd_base.specs.Results.{with_cause, with_value, Gives};
ghost use Rattle.proto_fields.specs.Fields.{fields_at};
ghost use Rattle.op_headers.specs.Tables.{decoded_field, decoded_message, Required, each_at, texts_under, then_one};
ghost use Rattle.op_headers.specs.Paths.{both};
ghost use Rattle.op_headers.specs.Formats.{identity_from, node_from, node_format};

use crate::messages::{Message, UINT32, message_under, small_under, text_under};
use crate::paths::{Decoded, required, required_message};
use hd_base::ByteList;
use proto_fields::{Fields, FieldsFault, fields, part_under};
use std::alloc::{AllocError, Global};
use std::marker::Model;
use std::slice;

/// A DataNode (HDFS `DatanodeInfoProto`, and the `DatanodeIDProto` in it).
#[derive(Debug, Drop, PartialEq, Eq)]
pub struct NodeRef {
    /// Its address.
    pub ip: ByteList,
    /// Its host's name.
    pub host: ByteList,
    /// Its unique name.
    pub uuid: ByteList,
    /// The port of the data transfer protocol.
    pub xfer: u32,
    /// The port of its information server.
    pub info: u32,
    /// The port of its calls.
    pub ipc: u32,
}

impl NodeRef {
    ghost use Rattle.std.specs.Prelude.{◌≡◌, IfOk};

    /// The same node once more.
    pub fn duplicate(&self) -> Result<NodeRef, AllocError>
        ensures { IfOk result (λ copy. copy ≡ self.now) }
    {
        Ok(NodeRef {
            ip: self.ip.duplicate()?,
            host: self.host.duplicate()?,
            uuid: self.uuid.duplicate()?,
            xfer: self.xfer,
            info: self.info,
            ipc: self.ipc,
        })
    }
}

/// DataNodes in order, seen as their list.
#[derive(Debug, Drop)]
pub struct Targets {
    nodes: Vec<NodeRef>,
}

impl Model for Targets {
    ghost use Rattle.std.specs.Prelude.{List};
    ghost use Rattle.op_headers.specs.declared.nodes.NodeRef.{NodeRef};

    ghost Value = { List NodeRef };

    ghost view = { λ t. t.nodes.items };
}

impl Targets {
    /// No node.
    pub fn new(alloc: Global) -> Targets
        ensures { result ≡ [] }
    {
        Targets {
            nodes: Vec::new(alloc),
        }
    }

    /// The list of these nodes.
    pub fn from_vec(nodes: Vec<NodeRef>) -> Targets
        ensures { result ≡ nodes.items }
    {
        Targets { nodes }
    }

    /// The nodes.
    pub fn into_vec(self) -> Vec<NodeRef>
        ensures { result.items ≡ self }
    {
        let Targets { nodes } = self;
        nodes
    }

    /// The nodes.
    pub fn as_slice(&self) -> &[NodeRef]
        ensures { result.now ≡ self.now }
    {
        self.nodes.as_slice()
    }

    /// How many nodes there are.
    pub fn len(&self) -> usize
        ensures { result ≡ length self.now }
    {
        self.nodes.len()
    }

    /// Whether there is no node.
    pub fn is_empty(&self) -> bool
        ensures { result ≡ (length self.now == 0) }
    {
        self.nodes.is_empty()
    }

    /// The same nodes once more.
    pub fn duplicate(&self) -> Result<Targets, AllocError>
        ensures { IfOk result (λ copy. copy ≡ self.now) }
    {
        let mut copy = Targets::new(*self.nodes.allocator());
        for node in self {
            copy.push(node.duplicate()?)?;
        }
        Ok(copy)
    }

    /// Puts a node behind the others. Want of memory leaves them as they were.
    pub fn push(&mut self, node: NodeRef) -> Result<(), AllocError>
        ensures ok { OnOk result (self.new ≡ self.old ++ node ∷ []) }
        ensures err { OnErr result (self.new ≡ self.old) }
    {
        self.nodes.push(node)?;
        Ok(())
    }
}

impl PartialEq for Targets {
    ghost use Rattle.op_headers.specs.contracts.nodes.NodeRefPartialEq.TheImpl as node;
    ghost use Rattle.op_headers.specs.contracts.nodes.NodeRefPartialEq.TheImpl.Laws as laws;

    ghost eq = { pointwise node.eq-value.it };

    ghost laws = { lists_per laws.laws-law };

    fn eq(&self, other: &Targets) -> bool {
        self.as_slice() == other.as_slice()
    }
}

impl Eq for Targets {
    ghost use Rattle.op_headers.specs.contracts.nodes.NodeRefEq.TheImpl.Laws as laws;

    ghost laws = { lists_equiv laws.laws-law };
}

impl<'a> IntoIterator for &'a Targets {
    type Item = &'a NodeRef;

    type IntoIter = slice::Iter<'a, NodeRef>;

    ghost into_iter_gives = { λ t it. (iter_rest it ≡ t.now) × (length (iter_rest it) < 2 ^ 64)
        × EveryRun (iter_steps {A = NodeRef}) (λ p. ItemsMapTo p (λ x. x.now) (iter_rest p.from)) };

    fn into_iter(self) -> slice::Iter<'a, NodeRef> {
        self.as_slice().iter()
    }
}

/// What a `DatanodeIDProto` says.
#[derive(Drop)]
pub(crate) struct Identity {
    node: NodeRef,
}

impl Message for Identity {
    ghost use Rattle.op_headers.specs.Formats.{identity_format};

    ghost format = { identity_format };

    #[tactic(auto, unfolding(crate::specs::Formats::identity_format))]
    fn read(alloc: Global, bytes: &[u8]) -> Result<Decoded<Identity>, FieldsFault> {
        let listed = fields(alloc, bytes)?;
        let ip = text_under(alloc, bytes, 1, &listed)?;
        let host = text_under(alloc, bytes, 2, &listed)?;
        let uuid = text_under(alloc, bytes, 3, &listed)?;
        let xfer = small_under(&listed, 4, UINT32);
        let info = small_under(&listed, 5, UINT32);
        let ipc = small_under(&listed, 6, UINT32);
        Ok(decoded_identity(ip, host, uuid, xfer, info, ipc))
    }
}

/// The node that these fields tell.
fn decoded_identity(
    ip: Option<ByteList>,
    host: Option<ByteList>,
    uuid: Option<ByteList>,
    xfer: Option<u32>,
    info: Option<u32>,
    ipc: Option<u32>,
) -> Decoded<Identity>
    ensures { result ≡ with_value identity_from
        (both (decoded_field Required 1 ip) (both (decoded_field Required 2 host)
        (both (decoded_field Required 3 uuid) (both (decoded_field Required 4 xfer)
        (both (decoded_field Required 5 info) (both (decoded_field Required 6 ipc) (Ok tt))))))) }
{
    let node = NodeRef {
        ip: required(1, ip)?,
        host: required(2, host)?,
        uuid: required(3, uuid)?,
        xfer: required(4, xfer)?,
        info: required(5, info)?,
        ipc: required(6, ipc)?,
    };
    Ok(Identity { node })
}

impl Message for NodeRef {
    ghost use Rattle.op_headers.specs.Formats.{node_format};

    ghost format = { node_format };

    #[tactic(auto, unfolding(crate::specs::Formats::node_format))]
    fn read(alloc: Global, bytes: &[u8]) -> Result<Decoded<NodeRef>, FieldsFault> {
        let listed = fields(alloc, bytes)?;
        let identity = message_under(alloc, bytes, 1, &listed)?;
        Ok(decoded_node(identity))
    }
}

/// The node that this field tells.
fn decoded_node(identity: Option<Decoded<Identity>>) -> Decoded<NodeRef>
    ensures { result ≡ with_value node_from (both (decoded_message Required 1 identity) (Ok tt)) }
{
    let identity = required_message(1, identity)?;
    Ok(identity.node)
}

/// The nodes under a field number, in order.
pub(crate) fn nodes_under(
    alloc: Global,
    bytes: &[u8],
    field: u32,
    listed: &Fields,
) -> Result<Decoded<Targets>, FieldsFault>
    requires { fields_at bytes.now ≡ Ok listed.now }
    ensures { Gives FieldsFault.Memory result
        (with_cause FieldsFault.Wire (each_at node_format.read (texts_under field bytes.now listed.now))) }
{
    let mut decoded = Ok(Targets::new(alloc));
    for (number, value) in listed.entries() {
        let Some((from, to)) = part_under(field, *number, *value) else {
            continue;
        };
        let node = NodeRef::read(alloc, &bytes[from as usize..to as usize])?;
        decoded = with_node(decoded, node)?;
    }
    Ok(decoded)
}

/// The nodes with one more behind, or the first field that any of them misses.
fn with_node(
    decoded: Decoded<Targets>,
    node: Decoded<NodeRef>,
) -> Result<Decoded<Targets>, FieldsFault>
    ensures { Gives FieldsFault.Memory result (Ok (then_one decoded node)) }
{
    match (decoded, node) {
        (Ok(mut nodes), Ok(node)) => {
            nodes.push(node)?;
            Ok(Ok(nodes))
        }
        (Err(path), _) => Ok(Err(path)),
        (Ok(_), Err(path)) => Ok(Err(path)),
    }
}
