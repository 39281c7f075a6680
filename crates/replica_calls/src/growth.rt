//! The sums of bytes that grow.

ghost use Rattle.std.specs.Prelude.{◌≡◌, ℕ, ◌<◌, ◌%◌, ◌++◌, true, List, length, IfOk, OnOk};
ghost use Rattle.chunk_sums.specs.Chunks.{sums as sums_under};
ghost use Rattle.replica_model.specs.Sums.{tail};
ghost use Rattle.replica_model.specs.Plans.{has_sums};
ghost use Rattle.replica_calls.specs.LastSums.{IsGrowing, IsLastSum, AreGrownSums};

use chunk_sums::{extend, piece_count, write_sums};
use hd_base::SumRule;
use replica_model::{first_len, has_sums};
use std::alloc::{AllocError, Global};

/// How many bytes a sum has.
const SUM_LEN: usize = 4;

/// The sums that bytes have once they have grown.
#[derive(Drop)]
pub struct GrownSums {
    /// The sums from the chunk on that was the last one, four bytes big-endian each.
    pub sums: Vec<u8>,
    /// The sum of the bytes of the last chunk, where it is short; of no bytes, where it is whole.
    pub last: u32,
}

/// The sums where `more` is written behind `written` bytes. `last_sum` is the sum of those in the last
/// chunk, where it is short; of no bytes, where it is whole.
pub fn grown_sums(
    alloc: Global,
    rule: SumRule,
    written: u64,
    last_sum: u32,
    more: &[u8],
) -> Result<GrownSums, AllocError>
    requires { 0 < length more.now }
    ensures { IfOk result (λ grown. (bytes : List ℕ) → IsGrowing rule written last_sum bytes
        → AreGrownSums rule bytes more.now grown) }
{
    if !has_sums(rule.kind()) {
        return Ok(GrownSums {
            sums: Vec::new(alloc),
            last: 0,
        });
    }
    let sums = summed(alloc, rule, written, last_sum, more)?;
    let end = written % u64::from(rule.chunk()) + more.len() as u64;
    let last = last_sum_in(rule, end, &sums);
    Ok(GrownSums { sums, last })
}

/// The sums from the last chunk on, where chunks have sums.
fn summed(
    alloc: Global,
    rule: SumRule,
    written: u64,
    last_sum: u32,
    more: &[u8],
) -> Result<Vec<u8>, AllocError>
    requires has { has_sums rule.kind ≡ true }
    requires some { 0 < length more.now }
    ensures { IfOk result (λ v. (bytes : List ℕ) → IsGrowing rule written last_sum bytes
        → v.items ≡ sums_under rule (tail rule bytes ++ more.now)) }
{
    let first = (first_len(rule, written) as usize).min(more.len());
    let (front, rest) = more.split_at(first);
    let mut sums = Vec::new(alloc);
    sums.extend_from_slice(&extend(rule.kind(), last_sum, front).to_be_bytes())?;
    push_sums(&mut sums, rule, rest)?;
    Ok(sums)
}

/// Adds the sums of the chunks of a body.
fn push_sums(into: &mut Vec<u8>, rule: SumRule, body: &[u8]) -> Result<(), AllocError>
    ensures { OnOk result (into.new.items ≡ into.old.items ++ sums_under rule body.now) }
{
    let chunk = u64::from(rule.chunk());
    let count = piece_count(rule.kind(), body.len() as u64, chunk, chunk) as usize;
    let before = into.len();
    into.resize(before + SUM_LEN * count, 0)?;
    write_sums(rule.kind(), body, chunk, chunk, &mut into[before..]);
    Ok(())
}

/// The sum of the bytes in the last chunk of `len` bytes, where it is short, and else that of no bytes.
/// `sums` are the sums of all of them.
fn last_sum_in(rule: SumRule, len: u64, sums: &[u8]) -> u32
    requires { has_sums rule.kind ≡ true }
    ensures { (bytes : List ℕ) → length bytes ≡ len → sums.now ≡ sums_under rule bytes → IsLastSum rule result bytes }
{
    let chunk = u64::from(rule.chunk());
    match sums.last_chunk::<SUM_LEN>() {
        Some(last) if len % chunk > 0 => u32::from_be_bytes(*last),
        _ => 0,
    }
}
