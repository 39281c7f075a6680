//! Varints: seven bits a byte, the least first, and the high bit on all bytes but the last.

ghost use Rattle.std.specs.Prelude.{◌≡◌, ℕ, ◌<◌, ◌↔◌, List, length, IfOk};
ghost use Rattle.hd_base.specs.Results.{read_of};
ghost use Rattle.proto_fields.specs.Varint.{BeginsWithVarint, IsCutVarint, IsLongVarint, varint_at, varint_within};

use thiserror::Error;

/// Why bytes begin with no varint.
#[derive(Clone, Copy, Debug, PartialEq, Eq, Error)]
pub enum VarintFault {
    /// The bytes end before the varint does.
    #[error("the bytes end inside a varint")]
    Short,
    /// The first ten bytes have their high bit, and none of them may end the varint.
    #[error("a varint has more than ten bytes")]
    Long,
}

/// The number of bytes that a varint has at most.
const MOST_BYTES: u64 = 10;

/// Reads the varint at the front of the bytes: its low 64 bits, and the bytes behind it.
pub fn read_varint(bytes: &[u8]) -> Result<(u64, &[u8]), VarintFault>
    // What is read is spelled there, and what is spelled there is read.
    ensures found { IfOk result (λ x. BeginsWithVarint bytes.now x.0 x.1.now) }
    ensures only { (n : ℕ) (rest : List ℕ) → BeginsWithVarint bytes.now n rest → read_of result ≡ Ok (n, rest) }

    // When each fault comes.
    ensures short { (result ≡ Err VarintFault.Short) ↔ IsCutVarint bytes.now }
    ensures long { (result ≡ Err VarintFault.Long) ↔ IsLongVarint bytes.now }

    // The same as a function of the bytes.
    ensures exact { read_of result ≡ varint_at bytes.now }
    ensures rest { IfOk result (λ x. length x.1.now < length bytes.now) }
{
    varint_of(MOST_BYTES, bytes)
}

/// Reads a varint that has at most `left` bytes.
#[tactic(auto, unfolding(crate::specs::Varint::varint_within))]
fn varint_of(left: u64, bytes: &[u8]) -> Result<(u64, &[u8]), VarintFault>
    ensures exact { read_of result ≡ varint_within left bytes.now }
    ensures rest { IfOk result (λ x. length x.1.now < length bytes.now) }
{
    if left == 0 {
        return Err(VarintFault::Long);
    }
    let Some((first, rest)) = bytes.split_first() else {
        return Err(VarintFault::Short);
    };
    let first = u64::from(*first);
    if first < 128 {
        return Ok((first, rest));
    }
    let (high, rest) = varint_of(left - 1, rest)?;
    Ok((high.wrapping_mul(128).wrapping_add(first - 128), rest))
}
