//! The chunks of a data file that match their sums.

ghost use Rattle.std.specs.Prelude.{◌≡◌, ◌*◌, ◌<◌, true, min, IfOk};
ghost use Rattle.replica_model.specs.Plans.{has_sums};
ghost use Rattle.replica_calls.specs.Performed.{KeepsAll};
ghost use Rattle.replica_files.specs.Finding.{FailsFor};
ghost use Rattle.restart_scan.specs.Kept.{IsKeptTo, ReachesOn, KeepsLen, AreThere, HaveRoom};

use chunk_sums::{first_bad, piece_count};
use hd_base::{FileError, Files, SumRule};
use replica_calls::FileNames;
use replica_model::{has_sums, sum_place};
use std::alloc::Global;

/// How many bytes a sum has.
const SUM_LEN: usize = 4;

/// How many bytes of a data file are read at once, at most.
const PIECE: usize = 65_536;

/// Up to where the chunks of a data file match, and whether those behind are still to be looked at.
#[derive(Clone, Copy)]
struct Reached {
    len: u64,
    goes_on: bool,
}

/// How many of `len` bytes so many chunks have.
fn len_of(rule: SumRule, len: u64, chunks: u64) -> u64
    ensures { result ≡ min (rule.chunk * chunks) len }
{
    u64::from(rule.chunk()).saturating_mul(chunks).min(len)
}

/// How many bytes of a body are kept, over the sums that are stored for its chunks.
fn kept_of(rule: SumRule, body: &[u8], stored: &[u8]) -> u64
    requires has { has_sums rule.kind ≡ true }
    ensures { IsKeptTo rule body.now stored.now result }
{
    let chunk = u64::from(rule.chunk());
    let chunks = piece_count(rule.kind(), body.len() as u64, chunk, chunk);
    let count = chunks.min((stored.len() / SUM_LEN) as u64);
    let considered = len_of(rule, body.len() as u64, count) as usize;
    let sums = &stored[..SUM_LEN * count as usize];
    match first_bad(rule.kind(), &body[..considered], sums, chunk, chunk) {
        Some(bad) => len_of(rule, body.len() as u64, bad),
        None => considered as u64,
    }
}

/// Reads the chunks behind the `kept` bytes, as many as the buffers have room for, and their sums.
fn reach_piece<F: Files>(
    drawer: &mut F,
    names: &FileNames,
    rule: SumRule,
    len: u64,
    kept: u64,
    buffer: &mut [u8],
    sums: &mut [u8],
) -> Result<Reached, FileError>
    requires has { has_sums rule.kind ≡ true }
    requires there { AreThere (F.files drawer.old) names.now }
    requires within { kept < len }
    requires room { HaveRoom rule buffer.old sums.old }
    ensures value { IfOk result (ReachesOn (F.files drawer.old) names.now rule len kept) }
    ensures kept { KeepsAll F.Files drawer.old drawer.new }
    ensures cause { FailsFor (F.faults drawer.old) (F.faults drawer.new) result }
{
    let room = (len - kept).min(buffer.len() as u64) as usize;
    let body = &mut buffer[..room];
    let count = drawer.read_at(&names.data, kept, body)?;
    let stored = drawer.read_at(&names.meta, sum_place(rule, kept), sums)?;
    let more = kept_of(rule, &body[..count], &sums[..stored]);
    Ok(Reached {
        len: kept + more,
        goes_on: more == room as u64,
    })
}

/// How many bytes of a data file of `len` bytes are kept, which is read piece by piece through the buffers.
fn reach_all<F: Files>(
    drawer: &mut F,
    names: &FileNames,
    rule: SumRule,
    len: u64,
    buffer: &mut [u8],
    sums: &mut [u8],
) -> Result<u64, FileError>
    requires has { has_sums rule.kind ≡ true }
    requires there { AreThere (F.files drawer.old) names.now }
    requires room { HaveRoom rule buffer.old sums.old }
    ensures value { IfOk result (KeepsLen (F.files drawer.old) names.now rule len) }
    ensures kept { KeepsAll F.Files drawer.old drawer.new }
    ensures cause { FailsFor (F.faults drawer.old) (F.faults drawer.new) result }
{
    let mut kept = 0;
    'pieces: while kept < len {
        let next = reach_piece(drawer, names, rule, len, kept, buffer, sums)?;
        if !next.goes_on {
            return Ok(next.len);
        }
        kept = next.len;
    }
    Ok(kept)
}

/// How many bytes of a data file of `len` bytes a scan keeps. Each file is read once, and memory doesn't grow with it.
pub(crate) fn kept_in<F: Files>(
    alloc: Global,
    drawer: &mut F,
    names: &FileNames,
    rule: SumRule,
    len: u64,
) -> Result<u64, FileError>
    requires there { AreThere (F.files drawer.old) names.now }
    ensures value { IfOk result (KeepsLen (F.files drawer.old) names.now rule len) }
    ensures kept { KeepsAll F.Files drawer.old drawer.new }
    ensures cause { FailsFor (F.faults drawer.old) (F.faults drawer.new) result }
{
    if !has_sums(rule.kind()) {
        return Ok(len);
    }
    let chunk = rule.chunk() as usize;
    let count = PIECE / chunk;
    let mut buffer = vec![in alloc; 0; chunk * count]?;
    let mut sums = vec![in alloc; 0; SUM_LEN * count]?;
    reach_all(drawer, names, rule, len, &mut buffer, &mut sums)
}
