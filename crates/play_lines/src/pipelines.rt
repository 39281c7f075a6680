//! The present pipeline of a block.

ghost use Rattle.std.specs.Prelude.{◌≡◌, length};
ghost use Rattle.play_lines.specs.Pipelines.{number_of, is_dialled_by, latest_in, mirror_at, conn_at, pipeline_at};

use hd_base::{BlockId, ConnId, Files, LinkIn, LinkOut};
use play_scripts::{Nodes, Upper};

/// The connection at a place of a block's present pipeline, if there is one: place 0 is the latest that the writer
/// dialled, and the next place that of the mirror of the member there.
pub(crate) fn pipeline_conn<F: Files, I: LinkIn, O: LinkOut>(
    nodes: &Nodes<F, I, O>,
    block: BlockId,
    place: u64,
) -> Option<ConnId>
    ensures { number_of result ≡ pipeline_at nodes.now.connections.items block.0 place }
{
    connection_behind(nodes, latest_dial(nodes, block), place)
}

/// The latest connection that the writer of a block dialled, whoever has shut since.
fn latest_dial<F: Files, I: LinkIn, O: LinkOut>(
    nodes: &Nodes<F, I, O>,
    block: BlockId,
) -> Option<ConnId>
    ensures { number_of result ≡ latest_in nodes.now.connections.items block.0 (length nodes.now.connections.items) }
{
    let mut latest = None;
    for index in 0..nodes.connections.len() {
        if is_dialled_by(nodes.connections[index].upper, block) {
            latest = Some(ConnId(index as u64));
        }
    }
    latest
}

/// Whether the writer of a block dialled.
fn is_dialled_by(upper: Upper, block: BlockId) -> bool
    ensures { result ≡ is_dialled_by block.0 upper }
{
    match upper {
        Upper::Writer { block: of } => of.0 == block.0,
        Upper::Member { .. } | Upper::Reader { .. } | Upper::Primary { .. } => false,
    }
}

/// The connection at a place behind the first, which has place 0, from member to mirror.
fn connection_behind<F: Files, I: LinkIn, O: LinkOut>(
    nodes: &Nodes<F, I, O>,
    first: Option<ConnId>,
    place: u64,
) -> Option<ConnId>
    ensures { number_of result ≡ conn_at nodes.now.connections.items place (number_of first) }
{
    let mut conn = first?;
    for _ in 0..place {
        conn = mirror_of(nodes, conn)?;
    }
    Some(conn)
}

/// The connection to a member's mirror.
fn mirror_of<F: Files, I: LinkIn, O: LinkOut>(
    nodes: &Nodes<F, I, O>,
    conn: ConnId,
) -> Option<ConnId>
    ensures { number_of result ≡ mirror_at nodes.now.connections.items conn.0 }
{
    let conn = conn.0 as usize;
    if conn >= nodes.connections.len() {
        return None;
    }
    nodes.connections[conn].mirror
}
