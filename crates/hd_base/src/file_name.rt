//! Names of files.

ghost use Rattle.std.specs.Prelude.{◌≡◌, ◌==◌, ℕ, ◌+◌, ◌++◌, [], ◌≤◌, ◌<◌, ◌↔◌, length, IsSome, IfSome, Option, Some, option_map, IsTrue};
ghost use Rattle.std.proofs.Common.{rules};
ghost use Rattle.std.specs.Cmp.{partial_order_from_own_ties};
ghost use Rattle.std.specs.Cmp.Lexicographic.{pointwise, slice_cmp};
ghost use Rattle.std.specs.Cmp.Rules.{comparing};
ghost use Rattle.std.specs.Ordering.{nat_cmp, as_partial_cmp};
ghost use Rattle.hd_base.specs.Lists.{IsAsciiText};
ghost use Rattle.hd_base.specs.Blocks.{block_of, is_data, ends_there, base_of, behind_slash, digits_at, number_at, whole_number};

use crate::numbers::BlockId;
use std::alloc::AllocError;
use std::cmp::Ordering;
use std::marker::Model;
use std::{fmt, str};

/// The most bytes that a file's name has.
pub const MAX_NAME_LENGTH: usize = 255;

/// The name of a file: at most 255 ASCII bytes, seen as their list. Takes no memory.
#[derive(Drop)]
pub struct FileName {
    bytes: [u8; MAX_NAME_LENGTH],
    count: usize,
}

impl Model for FileName {
    ghost use Rattle.std.specs.Prelude.{ℕ, ◌≤◌, List, take};
    ghost use Rattle.hd_base.specs.Lists.{IsAsciiText};

    ghost Value = { List ℕ };

    ghost view = { λ n. take n.count n.bytes };

    ghost invariant = { λ n. (n.count ≤ 255) × IsAsciiText (take n.count n.bytes) };
}

impl FileName {
    /// The name of these bytes, `None` exactly where there are over 255 or one is past ASCII.
    pub fn new(bytes: &[u8]) -> Option<FileName>
        ensures made { IsSome result ↔ ((length bytes.now ≤ MAX_NAME_LENGTH) × IsAsciiText bytes.now) }
        ensures value { IfSome result (λ name. name ≡ bytes.now) }
    {
        if bytes.len() > MAX_NAME_LENGTH || !bytes.iter().all(|b| *b < 128) {
            return None;
        }
        let mut kept = [0; MAX_NAME_LENGTH];
        kept[..bytes.len()].copy_from_slice(bytes);
        Some(FileName {
            bytes: kept,
            count: bytes.len(),
        })
    }

    /// The name's bytes.
    pub fn as_slice(&self) -> &[u8]
        ensures value { result.now ≡ self.now }
        ensures within_limit { length result.now ≤ MAX_NAME_LENGTH }
        ensures text { IsAsciiText result.now }
    {
        &self.bytes[..self.count]
    }

    /// How many bytes the name has, at most 255.
    pub fn len(&self) -> usize
        ensures value { result ≡ length self.now }
        ensures within_limit { result ≤ MAX_NAME_LENGTH }
    {
        self.count
    }

    /// Whether the name has no byte.
    pub fn is_empty(&self) -> bool
        ensures { IsTrue result ↔ (length self.now ≡ 0) }
    {
        self.count == 0
    }

    /// The name with no byte.
    pub fn empty() -> FileName
        ensures { result ≡ [] }
    {
        FileName {
            bytes: [0; MAX_NAME_LENGTH],
            count: 0,
        }
    }

    /// Puts more ASCII bytes behind the name, which has room for them.
    pub fn push(&mut self, part: &[u8])
        requires room { length self.old + length part.now ≤ MAX_NAME_LENGTH }
        requires text { IsAsciiText part.now }
        ensures { self.new ≡ self.old ++ part.now }
    {
        let end = self.count + part.len();
        self.bytes[self.count..end].copy_from_slice(part);
        self.count = end;
    }

    /// The same name once more.
    pub fn duplicate(&self) -> FileName
        ensures { result ≡ self.now }
    {
        FileName {
            bytes: self.bytes,
            count: self.count,
        }
    }

    /// The block that the file belongs to: the last part of its path is `blk_` and the block's
    /// number in least decimal, and then nothing or an underscore and more.
    #[tactic(auto, unfolding(crate::specs::Blocks::block_of))]
    pub fn block(&self) -> Option<BlockId>
        ensures { option_map (λ b. b.0) result ≡ block_of self.now }
    {
        let rest = base(self.as_slice()).strip_prefix(b"blk_")?;
        let (number, rest) = least_decimal(rest)?;
        match rest {
            [] | [b'_', ..] => Some(BlockId(number)),
            _ => None,
        }
    }

    /// Whether the file is a block's data file: the last part of its path is `blk_` and the block's
    /// number in least decimal, and nothing more.
    #[tactic(auto, unfolding(crate::specs::Blocks::is_data))]
    pub fn is_data(&self) -> bool
        ensures { IsTrue result ↔ IsTrue (is_data self.now) }
    {
        match base(self.as_slice()).strip_prefix(b"blk_") {
            Some(rest) => matches!(least_decimal(rest), Some((_, []))),
            None => false,
        }
    }
}

impl fmt::Debug for FileName {
    fn fmt<W: fmt::Write>(&self, f: &mut fmt::Formatter<W>) -> fmt::Result {
        match str::from_utf8(self.as_slice()) {
            Ok(text) => write!(f, "{text:?}"),
            Err(_) => write!(f, "{:?}", self.as_slice()),
        }
    }
}

impl Clone for FileName {
    ghost is_clone = { λ name copy. copy ≡ name };

    ghost is_infallible = { λ _. Unit {0} };

    fn clone(&self) -> Result<FileName, AllocError> {
        Ok(self.duplicate())
    }
}

impl PartialEq for FileName {
    ghost eq = { pointwise ◌==◌ };

    ghost laws = { Prim.search (comparing, rules) };

    fn eq(&self, other: &FileName) -> bool {
        self.as_slice() == other.as_slice()
    }
}

impl Eq for FileName {
    ghost laws = { Prim.search (comparing, rules) };
}

impl PartialOrd for FileName {
    ghost partial_cmp = { as_partial_cmp (slice_cmp nat_cmp) };

    ghost laws = { partial_order_from_own_ties
        (Prim.search (comparing, rules)) (Prim.search (comparing, rules)) };

    fn partial_cmp(&self, other: &FileName) -> Option<Ordering> {
        Some(self.cmp(other))
    }
}

/// Names are in the order of their bytes.
impl Ord for FileName {
    ghost cmp = { slice_cmp nat_cmp };

    ghost total = { Prim.search (comparing, rules) };

    ghost matches_partial_cmp = { Prim.search (comparing, rules) };

    ghost matches_eq = { Prim.search (comparing, rules) };

    fn cmp(&self, other: &FileName) -> Ordering {
        self.as_slice().cmp(other.as_slice())
    }
}

/// The last part of a path: what stands behind its last slash.
pub fn base(name: &[u8]) -> &[u8]
    ensures { result.now ≡ base_of name.now }
{
    let mut base = name;
    let mut rest = name;
    'parts: while let Some((first, behind)) = rest.split_first() {
        if *first == b'/' {
            base = behind;
        }
        rest = behind;
    }
    base
}

/// A number of 64 bits in least decimal at the front of a text, with what stands behind it; `None`
/// where no digit stands there or the number is over 64 bits. A 0 is the whole number.
pub fn least_decimal(text: &[u8]) -> Option<(u64, &[u8])>
    ensures { option_map (λ x. (x.0, x.1.now)) result ≡ number_at text.now }
{
    let (first, rest) = text.split_first()?;
    match *first {
        b'0' => Some((0, rest)),
        b'1'..=b'9' => digits(u64::from(*first - b'0'), rest),
        _ => None,
    }
}

/// Further digits of a number, with what stands behind them; `None` past 64 bits.
fn digits(value: u64, text: &[u8]) -> Option<(u64, &[u8])>
    ensures { option_map (λ x. (x.0, x.1.now)) result ≡ digits_at value text.now }
{
    match text {
        [first @ b'0'..=b'9', rest @ ..] => {
            let value = value
                .checked_mul(10)?
                .checked_add(u64::from(*first - b'0'))?;
            digits(value, rest)
        }
        _ => Some((value, text)),
    }
}
