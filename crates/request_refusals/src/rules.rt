//! The rule of sums that a message names by two numbers.

ghost use Rattle.std.specs.Prelude.{◌≡◌};
ghost use Rattle.request_refusals.specs.Rules.{kind_with, rule_of_kind, rule_with};

use hd_base::{SumKind, SumRule};

/// The rule of the kind with this number (HDFS `ChecksumTypeProto`) and of this chunk size, `None` where there is no such
/// kind, or no chunk has so many bytes.
#[tactic(auto, unfolding(crate::specs::Rules::rule_with))]
pub fn rule_with(kind: u32, chunk: u32) -> Option<SumRule>
    ensures { result ≡ rule_with kind chunk }
{
    rule_of_kind(kind_with(kind)?, chunk)
}

/// The kind of sums with this number.
fn kind_with(number: u32) -> Option<SumKind>
    ensures { result ≡ kind_with number }
{
    match number {
        0 => Some(SumKind::Null),
        1 => Some(SumKind::Crc32),
        2 => Some(SumKind::Crc32c),
        _ => None,
    }
}

/// The rule of this kind, where a chunk may have so many bytes.
fn rule_of_kind(kind: SumKind, chunk: u32) -> Option<SumRule>
    ensures { result ≡ rule_of_kind (Some kind) chunk }
{
    SumRule::new(kind, chunk)
}
