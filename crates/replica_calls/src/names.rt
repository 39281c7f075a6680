//! The names of a replica's two files.

ghost use Rattle.std.specs.Prelude.{◌≡◌};
ghost use Rattle.replica_calls.specs.CallLists.{names_of, names_in};

use hd_base::{BlockId, FileName, Stamp};
use meta_file::{Folder, data_name, meta_name};
use replica_core::ReplicaInfo;
use replica_model::folder_of;

/// The names of a replica's two files.
#[derive(Drop)]
pub struct FileNames {
    /// The data file's.
    pub data: FileName,
    /// The metadata file's.
    pub meta: FileName,
}

impl FileNames {
    /// The names of a block's files in this folder, under this stamp.
    #[tactic(auto, unfolding(block_files::specs::Placements::data_name, block_files::specs::Placements::meta_name))]
    pub fn new(block: BlockId, folder: Folder, stamp: Stamp) -> FileNames
        ensures { result ≡ names_in block.0 folder stamp.0 }
    {
        FileNames {
            data: data_name(block, folder),
            meta: meta_name(block, stamp, folder),
        }
    }

    /// The names of the files of a replica that holds this.
    pub fn of(block: BlockId, info: &ReplicaInfo) -> FileNames
        ensures { result ≡ names_of block.0 info.now }
    {
        FileNames::new(block, folder_of(info.original), info.stamp)
    }
}
