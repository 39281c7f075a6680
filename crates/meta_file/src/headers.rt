//! The header of a metadata file.

ghost use Rattle.std.specs.Prelude.{◌≡◌, take, IfOk, Ok, Some};
ghost use Rattle.hd_base.specs.SumRules.{Rule, IsChunkSize, kind_number};
ghost use Rattle.meta_file.specs.Headers.{header_of};

use byteorder::{BigEndian, ByteOrder};
use hd_base::{SumKind, SumRule};
use thiserror::Error;

/// The version of the metadata format.
const VERSION: u16 = 1;

/// How many bytes the header has.
const HEADER_LEN: usize = 7;

/// Why a metadata file isn't read.
#[derive(Clone, Copy, Debug, PartialEq, Eq, Error)]
pub enum MetaFault {
    /// It doesn't begin with the header of a rule.
    #[error("the metadata file doesn't begin with a header")]
    Header,
}

/// The header of the sums under a rule (HDFS `BlockMetadataHeader`): the version 1 as two bytes, the
/// kind of the sums as one byte, and how many bytes a chunk has as four bytes, all big-endian.
pub fn header(rule: SumRule) -> [u8; 7]
    ensures { result ≡ header_of rule }
{
    let mut bytes = [0; HEADER_LEN];
    BigEndian::write_u16(&mut bytes[..2], VERSION);
    bytes[2] = kind_byte(rule.kind());
    BigEndian::write_u32(&mut bytes[3..], rule.chunk());
    bytes
}

/// The number of a kind of sums as one byte.
fn kind_byte(kind: SumKind) -> u8
    ensures { result ≡ kind_number kind }
{
    kind.number() as u8
}

/// Reads the header. `Header` comes exactly where the first seven bytes are no rule's header.
pub fn read_header(bytes: &[u8]) -> Result<SumRule, MetaFault>
    ensures found { IfOk result (λ rule. take 7 bytes.now ≡ header_of rule) }
    ensures only { (rule : Rule) → IsChunkSize rule.chunk → take 7 bytes.now ≡ header_of rule → result ≡ Ok rule }
{
    let Some(front) = bytes.first_chunk::<HEADER_LEN>() else {
        return Err(MetaFault::Header);
    };
    let Some(rule) = candidate(front) else {
        return Err(MetaFault::Header);
    };
    if header(rule) != *front {
        return Err(MetaFault::Header);
    }
    Ok(rule)
}

/// The rule that a header spells, if it is any rule's.
fn candidate(front: &[u8; 7]) -> Option<SumRule>
    ensures { (rule : Rule) → IsChunkSize rule.chunk → front.now ≡ header_of rule → result ≡ Some rule }
{
    let kind = SumKind::from_number(u32::from(front[2]))?;
    SumRule::new(kind, BigEndian::read_u32(&front[3..]))
}
