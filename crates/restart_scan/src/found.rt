//! What a restart found.

use hd_base::{BlockId, FileName, ReplicaState, Stamp, SumRule};
use meta_file::Folder;

/// A replica that a restart found.
#[derive(Clone, Copy, Debug, PartialEq, Eq)]
pub struct Seen {
    pub block: BlockId,
    /// Where its files lie.
    pub folder: Folder,
    /// FINALIZED or RWR.
    pub state: ReplicaState,
    pub stamp: Stamp,
    /// The rule of its sums.
    pub sums: SumRule,
    /// How many bytes it has.
    pub length: u64,
}

/// What was found among one block's files.
#[derive(Clone, Copy)]
pub(crate) struct Scanned {
    /// The replica, if the files have a pair.
    pub(crate) seen: Option<Seen>,
    /// Whether its files lay in the folder of layout -56.
    pub(crate) is_moved: bool,
}

/// What a restart found on a shelf.
#[derive(Debug, Drop)]
pub struct Found {
    /// The replicas, by ascending block.
    pub replicas: Vec<Seen>,
    /// The names of the files that belong to no replica, in ascending order.
    pub strays: Vec<FileName>,
    /// The blocks whose files lay in the folder of layout -56, in ascending order.
    pub moved: Vec<BlockId>,
}
