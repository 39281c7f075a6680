//! Whether replicas are as a script expects them.

ghost use Rattle.std.specs.Prelude.{◌≡◌, ◌==◌, position};
ghost use Rattle.play_report.specs.Expecting.{expected_in, told_at, found_in, is_same, is_got, compared};
ghost use Rattle.play_report.specs.Expecting.{difference_in, differing_in, Differs};

use crate::running::runs_in;
use hd_base::{BlockId, Files, LinkIn, LinkOut, NodeId, ReplicaState, Stamp};
use play_scripts::Nodes;
use replica_core::ReplicaInfo;
use script_lang::{Instruction, ScriptLine};

/// What an `expect` line says of a replica, or what a replica is.
#[derive(Clone, Copy, Debug, PartialEq, Eq)]
pub struct Expected {
    /// The state.
    pub state: ReplicaState,
    /// The generation stamp.
    pub stamp: Stamp,
    /// How many bytes are written.
    pub length: u64,
}

/// The first `expect` line that differs.
#[derive(Clone, Copy, Debug, PartialEq, Eq)]
pub struct Difference {
    /// The number of the line.
    pub line: u64,
    /// What the line says.
    pub want: Expected,
    /// What the replica is; none where it is absent, or its node doesn't run.
    pub got: Option<Expected>,
}

/// What a replica is that holds this.
fn expected_in(info: Option<ReplicaInfo>) -> Option<Expected>
    ensures { result ≡ expected_in info }
{
    let info = info?;
    Some(Expected {
        state: info.state(),
        stamp: info.stamp,
        length: info.written,
    })
}

/// Whether both are the same.
fn is_same(one: &Expected, other: &Expected) -> bool
    ensures { result ≡ is_same one.now other.now }
{
    one.state.number() == other.state.number()
        && one.stamp.0 == other.stamp.0
        && one.length == other.length
}

/// Whether this was got.
fn is_got(want: &Expected, got: &Option<Expected>) -> bool
    ensures { result ≡ is_got want.now got.now }
{
    match got {
        Some(got) => is_same(want, got),
        None => false,
    }
}

/// The place of a block.
fn place_of(blocks: &[BlockId], block: BlockId) -> Option<usize>
    ensures { result ≡ position (λ x. x.0 == block.0) blocks.now }
{
    blocks.iter().position(|other| other.0 == block.0)
}

/// What the replica at a place of a node is.
fn told_at<F: Files, I: LinkIn, O: LinkOut>(
    nodes: &Nodes<F, I, O>,
    node: NodeId,
    place: usize,
) -> Option<Expected>
    ensures { result ≡ told_at nodes.now node.0 place }
{
    let books = nodes.nodes.get(node.0 as usize)?;
    let book = books.books.get(place)?;
    expected_in(book.replica().info())
}

/// What the replica of a block at a node is, which is one of the first, so many, and runs.
fn found_in<F: Files, I: LinkIn, O: LinkOut>(
    count: u32,
    running: &[bool],
    nodes: &Nodes<F, I, O>,
    node: NodeId,
    block: BlockId,
) -> Option<Expected>
    ensures { result ≡ found_in count running.now nodes.now node.0 block.0 }
{
    if node.0 >= count || !runs_in(running, node) {
        return None;
    }
    let place = place_of(nodes.blocks.as_slice(), block)?;
    told_at(nodes, node, place)
}

/// The difference of what was wanted and what was got, if there is one.
fn compared(line: u64, want: Expected, got: Option<Expected>) -> Option<Difference>
    ensures { result ≡ compared line want got }
{
    if is_got(&want, &got) {
        return None;
    }
    Some(Difference { line, want, got })
}

/// The difference of a line, if it expects something else.
fn difference_in<F: Files, I: LinkIn, O: LinkOut>(
    count: u32,
    running: &[bool],
    nodes: &Nodes<F, I, O>,
    line: &ScriptLine,
) -> Option<Difference>
    ensures { result ≡ difference_in (found_in count running.now nodes.now) line.now.number line.now.instruction }
{
    match &line.instruction {
        Instruction::Expect {
            node,
            block,
            state,
            stamp,
            written,
        } => {
            let want = Expected {
                state: *state,
                stamp: *stamp,
                length: *written,
            };
            let got = found_in(count, running, nodes, *node, *block);
            compared(line.number, want, got)
        }
        _ => None,
    }
}

/// The first line that differs, as the nodes tell.
fn differing_in<F: Files, I: LinkIn, O: LinkOut>(
    count: u32,
    running: &[bool],
    nodes: &Nodes<F, I, O>,
    lines: &[ScriptLine],
) -> Option<Difference>
    ensures { result ≡ differing_in (found_in count running.now nodes.now) lines.now }
{
    for line in lines {
        let difference = difference_in(count, running, nodes, line);
        if difference.is_some() {
            return difference;
        }
    }
    None
}

/// The first `expect` line that the replicas of a play with so many nodes, of which these run, differ from. Of an absent
/// replica nothing is got, nor of one at a node that doesn't run, nor of a block that no line creates.
pub fn first_difference<F: Files, I: LinkIn, O: LinkOut>(
    count: u32,
    running: &[bool],
    nodes: &Nodes<F, I, O>,
    lines: &[ScriptLine],
) -> Option<Difference>
    ensures { Differs I.LinkIn O.LinkOut count running.now nodes.now lines.now result }
{
    differing_in(count, running, nodes, lines)
}
