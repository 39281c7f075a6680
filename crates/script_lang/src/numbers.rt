//! The numbers, bytes and members that words spell.

ghost use Rattle.std.specs.Prelude.{◌≡◌, ◌*◌, ◌+◌, ◌^◌, ◌<◌, ◌≤◌, ◌∷◌, [], SomeIff, true, nat_lt};
ghost use Rattle.script_lang.specs.Rules.{by_rules, Gives};
ghost use Rattle.script_lang.specs.Said.{members_said};
ghost use Rattle.script_lang.specs.Numbers.{value_of, is_number, is_number_within, is_hex, bytes_of, digits_on, is_item, is_member, are_items, are_members, members_of, node};

use crate::faults::{BadKind, Stop};
use crate::words::split_part;
use hd_base::{ByteList, MAX_MEMBERS, Members, NodeId};
use hex::FromHexError;
use std::alloc::Global;

/// The number that a word spells in decimal digits, of 64 bits, whatever zeros lead.
pub(crate) fn number(word: &[u8]) -> Result<u64, BadKind>
    ensures { result ≡ by_rules ((BadKind.Number, is_number word.now) ∷ []) (value_of word.now) }
{
    if word.is_empty() {
        return Err(BadKind::Number);
    }
    digits(word)
}

/// The number of these digits, which may be none.
fn digits(text: &[u8]) -> Result<u64, BadKind>
    ensures { result ≡ digits_on 0 text.now }
{
    let mut value = 0;
    let mut rest = text;
    'digits: while let Some((first, behind)) = rest.split_first() {
        value = match *first {
            b'0'..=b'9' => appended(value, *first - b'0').ok_or(BadKind::Number)?,
            _ => return Err(BadKind::Number),
        };
        rest = behind;
    }
    Ok(value)
}

/// A number with one more digit behind it, `None` past 64 bits.
fn appended(value: u64, digit: u8) -> Option<u64>
    ensures { SomeIff result (value * 10 + digit < 2 ^ 64) (value * 10 + digit) }
{
    value.checked_mul(10)?.checked_add(u64::from(digit))
}

/// The number that a word spells, which must be within this range.
pub(crate) fn number_within(word: &[u8], least: u64, most: u64) -> Result<u64, BadKind>
    ensures { result ≡ by_rules ((BadKind.Number, is_number_within least most word.now) ∷ []) (value_of word.now) }
{
    let value = number(word)?;
    if (least..=most).contains(&value) {
        Ok(value)
    } else {
        Err(BadKind::Number)
    }
}

/// The node of a number, which must be below the number of nodes.
pub(crate) fn node(number: u64, nodes: u32) -> Result<NodeId, BadKind>
    ensures { result ≡ by_rules ((BadKind.Node, nat_lt number nodes) ∷ []) (node number) }
{
    if number < u64::from(nodes) {
        Ok(NodeId(number as u32))
    } else {
        Err(BadKind::Node)
    }
}

/// The bytes that a word spells in pairs of hexadecimal digits, at least one.
pub(crate) fn bytes(alloc: Global, word: &[u8]) -> Result<ByteList, Stop>
    ensures { Gives result (by_rules ((BadKind.Hex, is_hex word.now) ∷ []) (bytes_of word.now)) }
{
    if word.is_empty() {
        return Err(Stop::Bad(BadKind::Hex));
    }
    match hex::decode(alloc, word) {
        Ok(bytes) => Ok(ByteList::from_vec(bytes)),
        Err(FromHexError::OutOfMemory) => Err(Stop::Memory),
        Err(_) => Err(Stop::Bad(BadKind::Hex)),
    }
}

/// The members that a word names, between commas: at most 16 distinct nodes below the number of
/// nodes. That an item is no number is found first, wherever it stands.
pub(crate) fn members(word: &[u8], nodes: u32) -> Result<Members, BadKind>
    ensures { result ≡ members_said nodes word.now }
{
    check_items(word)?;
    named_members(word, nodes)
}

/// The members that the items of a word name.
fn named_members(word: &[u8], nodes: u32) -> Result<Members, BadKind>
    requires { are_items word.now ≡ true }
    ensures { result ≡ by_rules ((BadKind.Member, are_members nodes word.now) ∷ []) (members_of word.now) }
{
    let mut named = [NodeId(0); MAX_MEMBERS];
    let mut count = 0;
    let mut rest = Some(word);
    'items: while let Some(text) = rest {
        let (item, behind) = split_part(text, b',');
        let member = member(item, nodes)?;
        if count == MAX_MEMBERS {
            return Err(BadKind::Member);
        }
        named[count] = member;
        count += 1;
        rest = behind;
    }
    Members::new(&named[..count]).ok_or(BadKind::Member)
}

/// The node that an item names.
fn member(item: &[u8], nodes: u32) -> Result<NodeId, BadKind>
    requires { is_item item.now ≡ true }
    ensures { result ≡ by_rules ((BadKind.Member, is_member nodes item.now) ∷ []) (node (value_of item.now)) }
{
    if item.is_empty() {
        return Err(BadKind::Member);
    }
    node(number(item)?, nodes).map_err(|_| BadKind::Member)
}

/// That each item of a word is a number, but for those that are nothing.
fn check_items(word: &[u8]) -> Result<(), BadKind>
    ensures { result ≡ by_rules ((BadKind.Number, are_items word.now) ∷ []) tt }
{
    let mut rest = Some(word);
    'items: while let Some(text) = rest {
        let (item, behind) = split_part(text, b',');
        check_item(item)?;
        rest = behind;
    }
    Ok(())
}

/// That an item is a number, or nothing.
fn check_item(item: &[u8]) -> Result<(), BadKind>
    ensures { result ≡ by_rules ((BadKind.Number, is_item item.now) ∷ []) tt }
{
    if !item.is_empty() {
        number(item)?;
    }
    Ok(())
}
