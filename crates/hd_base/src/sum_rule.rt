//! The rule of a block's sums: their kind, and how many bytes each is of.

ghost use Rattle.std.specs.Prelude.{◌≡◌, ◌<◌, ◌↔◌, IsSome, IsNone, IfSome, IsTrue};
ghost use Rattle.hd_base.specs.SumRules.{kind_number, IsChunkSize, default_rule};

use std::marker::Model;

/// The kind of a block's sums, in the order of its numbers 0 to 2 in messages and metadata files
/// (HDFS `ChecksumTypeProto`).
#[derive(Clone, Copy, Debug, PartialEq, Eq)]
pub enum SumKind {
    /// No sums.
    Null,
    /// CRC32, the polynomial of Ethernet and zip.
    Crc32,
    /// CRC32C, the polynomial of iSCSI.
    Crc32c,
}

impl SumKind {
    /// The kind's number in messages and metadata files.
    pub fn number(&self) -> u32
        ensures { result ≡ kind_number self.now }
    {
        match self {
            SumKind::Null => 0,
            SumKind::Crc32 => 1,
            SumKind::Crc32c => 2,
        }
    }

    /// The kind with this number, `None` past 2.
    pub fn from_number(number: u32) -> Option<SumKind>
        ensures found { IfSome result (λ kind. kind_number kind ≡ number) }
        ensures none { IsNone result ↔ (2 < number) }
    {
        match number {
            0 => Some(SumKind::Null),
            1 => Some(SumKind::Crc32),
            2 => Some(SumKind::Crc32c),
            _ => None,
        }
    }
}

/// How many bytes a sum is of where a script doesn't say.
pub const DEFAULT_CHUNK_SIZE: u32 = 512;

/// The fewest bytes that a chunk may have.
pub const MIN_CHUNK_SIZE: u32 = 16;

/// The most bytes that a chunk may have.
pub const MAX_CHUNK_SIZE: u32 = 65_536;

/// The rule of a block's sums: their kind, and how many bytes a chunk has, 16 to 65,536. It is seen
/// as these two.
#[derive(Clone, Copy, Debug, PartialEq, Eq)]
pub struct SumRule {
    kind: SumKind,
    chunk: u32,
}

impl Model for SumRule {
    ghost use Rattle.hd_base.specs.SumRules.{Rule, IsChunkSize};

    ghost Value = { Rule };

    ghost view = { λ r. record { kind = r.kind; chunk = r.chunk } };

    ghost invariant = { λ r. IsChunkSize r.chunk };

    ghost inverse = { λ r. record { kind = r.kind; chunk = r.chunk } };
}

impl SumRule {
    /// The rule of this kind and chunk size, `None` exactly where no chunk may have so many bytes.
    pub fn new(kind: SumKind, chunk: u32) -> Option<SumRule>
        ensures made { IsSome result ↔ IsChunkSize chunk }
        ensures value { IfSome result (λ rule. rule ≡ record { kind = kind; chunk = chunk }) }
    {
        if (MIN_CHUNK_SIZE..=MAX_CHUNK_SIZE).contains(&chunk) {
            Some(SumRule { kind, chunk })
        } else {
            None
        }
    }

    /// The kind of the sums.
    pub fn kind(&self) -> SumKind
        ensures { result ≡ self.now.kind }
    {
        self.kind
    }

    /// How many bytes a chunk has, but perhaps the last one.
    pub fn chunk(&self) -> u32
        ensures value { result ≡ self.now.chunk }
        ensures in_range { IsChunkSize result }
    {
        self.chunk
    }
}

impl Default for SumRule {
    ghost is_default = { λ rule. rule ≡ default_rule };

    /// CRC32C over 512 bytes.
    fn default() -> SumRule {
        SumRule {
            kind: SumKind::Crc32c,
            chunk: DEFAULT_CHUNK_SIZE,
        }
    }
}
