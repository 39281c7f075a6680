//! What was carried.

ghost use Rattle.std.specs.Prelude.{◌≡◌, ◌<◌, ◌++◌, ℕ, true, IfOk, OnOk, vec_len, vec_capacity};
ghost use Rattle.hd_base.specs.Lists.{joined};
ghost use Rattle.hd_base.specs.Channels.{carry};
ghost use Rattle.mem_ports.specs.Pieces.{pieces_of};
ghost use Rattle.mem_ports.specs.Traces.{carried_of, trace_below};

use hd_base::ConnId;
use std::alloc::{AllocError, Global};
use std::sync::Arc;

/// Pieces that were flushed together.
#[derive(Debug, Drop)]
pub struct TraceEntry {
    pub conn: ConnId,
    pub down: bool,
    pub pieces: Vec<Arc<Vec<u8>>>,
}

/// The same pieces once more. No byte is copied.
pub fn share_pieces(alloc: Global, pieces: &[Arc<Vec<u8>>]) -> Result<Vec<Arc<Vec<u8>>>, AllocError>
    ensures { IfOk result (λ v. pieces_of v.items ≡ pieces_of pieces.now) }
{
    let mut shared = Vec::with_capacity(alloc, pieces.len())?;
    for piece in pieces {
        shared.push(Arc::try_clone(piece)?)?;
    }
    Ok(shared)
}

/// Puts pieces behind what was carried.
pub fn carry_on(trace: &mut Vec<TraceEntry>, conn: ConnId, down: bool, pieces: Vec<Arc<Vec<u8>>>)
    requires { vec_len trace.old < vec_capacity trace.old }
    ensures below { (count : ℕ) → conn.0 < count →
        trace_below count trace.old.items ≡ true → trace_below count trace.new.items ≡ true }
    ensures carried { carried_of trace.new.items
        ≡ carry (carried_of trace.old.items) conn.0 down (joined (pieces_of pieces.items)) }
{
    if !pieces.is_empty() {
        trace.push_reserved(TraceEntry { conn, down, pieces });
    }
}

/// Whether each trace entry is of a connection with a number below this one.
pub fn all_below(trace: &[TraceEntry], count: u64) -> bool
    ensures { result ≡ trace_below count trace.now }
{
    trace.iter().all(|entry| entry.conn.0 < count)
}

/// The bytes that a connection's direction carried.
pub fn bytes_carried(
    alloc: Global,
    trace: &[TraceEntry],
    conn: ConnId,
    down: bool,
) -> Result<Vec<u8>, AllocError>
    ensures { IfOk result (λ bytes. bytes.items ≡ carried_of trace.now conn.0 down) }
{
    let mut bytes = Vec::new(alloc);
    for entry in trace {
        if entry.conn == conn && entry.down == down {
            push_pieces(&mut bytes, &entry.pieces)?;
        }
    }
    Ok(bytes)
}

/// Puts the bytes of each piece behind these.
fn push_pieces(bytes: &mut Vec<u8>, pieces: &[Arc<Vec<u8>>]) -> Result<(), AllocError>
    ensures { OnOk result (bytes.new.items ≡ bytes.old.items ++ joined (pieces_of pieces.now)) }
{
    for piece in pieces {
        bytes.extend_from_slice(piece)?;
    }
    Ok(())
}
