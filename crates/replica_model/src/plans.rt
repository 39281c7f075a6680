//! Where the files of a replica lie, and places in its metadata file.

ghost use Rattle.std.specs.Prelude.{◌≡◌, ◌≤◌, ◌↔◌, IsTrue};
ghost use Rattle.replica_model.specs.Sums.{sum_place, meta_len};
ghost use Rattle.replica_model.specs.Plans.{folder_of, has_sums};

use chunk_sums::piece_count;
use hd_base::{ReplicaState, SumKind, SumRule};
use meta_file::Folder;

/// How many bytes the header of a metadata file has.
const HEADER_LEN: u64 = 7;

/// How many bytes a sum has.
const SUM_LEN: u64 = 4;

/// The folder of a replica in this state, apart from a recovery.
pub fn folder_of(original: ReplicaState) -> Folder
    ensures { result ≡ folder_of original }
{
    match original {
        ReplicaState::Finalized => Folder::Finalized,
        ReplicaState::Temporary => Folder::Tmp,
        ReplicaState::Rbw | ReplicaState::Rwr | ReplicaState::Rur => Folder::Rbw,
    }
}

/// Whether chunks have sums of this kind.
pub fn has_sums(kind: SumKind) -> bool
    ensures { result ≡ has_sums kind }
{
    match kind {
        SumKind::Null => false,
        SumKind::Crc32 | SumKind::Crc32c => true,
    }
}

/// Where in the metadata file the sum of the chunk stands in which this byte lies.
pub fn sum_place(rule: SumRule, offset: u64) -> u64
    ensures { result ≡ sum_place rule offset }
{
    HEADER_LEN + SUM_LEN * (offset / u64::from(rule.chunk()))
}

/// The length of the metadata file of so many bytes.
pub fn meta_len(rule: SumRule, len: u64) -> u64
    ensures { result ≡ meta_len rule len }
{
    let chunk = u64::from(rule.chunk());
    HEADER_LEN + SUM_LEN * piece_count(rule.kind(), len, chunk, chunk)
}
