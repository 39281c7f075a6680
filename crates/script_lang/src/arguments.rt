//! The words of a line, as many as it must have, and what they say by themselves.

ghost use Rattle.std.specs.Prelude.{◌≡◌, ◌∷◌, []};
ghost use Rattle.hd_base.specs.Results.{with_value};
ghost use Rattle.script_lang.specs.Rules.{by_rules};
ghost use Rattle.script_lang.specs.Words.{words_of};
ghost use Rattle.script_lang.specs.Numbers.{is_number};
ghost use Rattle.script_lang.specs.Said.{next_of, none_of, one_of, two_of, three_of, four_of, block_of, block_said, node_said, rule_said};

use crate::faults::BadKind;
use crate::numbers::{node, number, number_within};
use crate::words::next_word;
use hd_base::{BlockId, MAX_CHUNK_SIZE, MIN_CHUNK_SIZE, NodeId, SumKind, SumRule};

/// The next word of a line, and what stands behind it.
#[tactic(auto, unfolding(crate::specs::Said::next_of))]
pub(crate) fn next(line: &[u8]) -> Result<(&[u8], &[u8]), BadKind>
    ensures { with_value (λ x. (x.0.now, words_of x.1.now)) result ≡ next_of (words_of line.now) }
{
    next_word(line).ok_or(BadKind::Arity)
}

/// That no word is left.
#[tactic(auto, unfolding(crate::specs::Said::none_of))]
pub(crate) fn none(line: &[u8]) -> Result<(), BadKind>
    ensures { result ≡ none_of (words_of line.now) }
{
    match next_word(line) {
        Some(_) => Err(BadKind::Arity),
        None => Ok(()),
    }
}

/// The one word of a line.
#[tactic(auto, unfolding(crate::specs::Said::next_of, crate::specs::Said::none_of, crate::specs::Said::one_of))]
pub(crate) fn one(line: &[u8]) -> Result<&[u8], BadKind>
    ensures { with_value (λ x. x.now) result ≡ one_of (words_of line.now) }
{
    let (word, rest) = next(line)?;
    none(rest)?;
    Ok(word)
}

/// The two words of a line.
#[tactic(auto, unfolding(crate::specs::Said::next_of, crate::specs::Said::one_of, crate::specs::Said::two_of))]
pub(crate) fn two(line: &[u8]) -> Result<(&[u8], &[u8]), BadKind>
    ensures { with_value (λ x. (x.0.now, x.1.now)) result ≡ two_of (words_of line.now) }
{
    let (first, rest) = next(line)?;
    Ok((first, one(rest)?))
}

/// The three words of a line.
#[tactic(auto, unfolding(crate::specs::Said::next_of, crate::specs::Said::two_of, crate::specs::Said::three_of))]
pub(crate) fn three(line: &[u8]) -> Result<(&[u8], &[u8], &[u8]), BadKind>
    ensures { with_value (λ x. (x.0.now, x.1.now, x.2.now)) result ≡ three_of (words_of line.now) }
{
    let (first, rest) = next(line)?;
    let (second, third) = two(rest)?;
    Ok((first, second, third))
}

/// The four words of a line.
#[tactic(auto, unfolding(crate::specs::Said::next_of, crate::specs::Said::three_of, crate::specs::Said::four_of))]
pub(crate) fn four(line: &[u8]) -> Result<(&[u8], &[u8], &[u8], &[u8]), BadKind>
    ensures { with_value (λ x. (x.0.now, x.1.now, x.2.now, x.3.now)) result ≡ four_of (words_of line.now) }
{
    let (first, rest) = next(line)?;
    let (second, third, fourth) = three(rest)?;
    Ok((first, second, third, fourth))
}

/// The block that a word names.
pub(crate) fn block(word: &[u8]) -> Result<BlockId, BadKind>
    ensures { result ≡ by_rules ((BadKind.Number, is_number word.now) ∷ []) (block_of word.now) }
{
    Ok(BlockId(number(word)?))
}

/// The rule of sums of this kind whose chunks have as many bytes as a word says.
pub(crate) fn sum_rule(kind: SumKind, word: &[u8]) -> Result<SumRule, BadKind>
    ensures { result ≡ rule_said kind word.now }
{
    let chunk = number_within(word, u64::from(MIN_CHUNK_SIZE), u64::from(MAX_CHUNK_SIZE))?;
    SumRule::new(kind, chunk as u32).ok_or(BadKind::Number)
}

/// The one block of a line.
#[tactic(auto, unfolding(crate::specs::Said::block_said))]
pub(crate) fn one_block(line: &[u8]) -> Result<BlockId, BadKind>
    ensures { result ≡ block_said (words_of line.now) }
{
    block(one(line)?)
}

/// The one node of a line.
#[tactic(auto, unfolding(crate::specs::Said::node_said))]
pub(crate) fn one_node(line: &[u8], nodes: u32) -> Result<NodeId, BadKind>
    ensures { result ≡ node_said nodes (words_of line.now) }
{
    node(number(one(line)?)?, nodes)
}
