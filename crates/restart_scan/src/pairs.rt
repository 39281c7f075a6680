//! The two files of a replica, by their names.

ghost use Rattle.std.specs.Prelude.{◌≡◌, ◌<◌, ◌^◌, IfSome};
ghost use Rattle.restart_scan.specs.Pairs.{is_temporary, body_in, sums_in, pair_names};
ghost use Rattle.restart_scan.specs.Pairs.{ReadsBody, ReadsSums, ReadsBoth, ReadsPair};

use hd_base::{BlockId, FileName, Stamp};
use meta_file::{Folder, Named, data_name, meta_name, read_name};
use replica_calls::FileNames;

/// How the names of files in tmp begin.
const TEMPORARY_FRONT: &[u8] = b"current/BP-1-127.0.0.1-1/tmp/";

/// Where the two files of a pair lie, each in a folder, and the stamp in the metadata file's name.
#[derive(Clone, Copy)]
pub(crate) struct PairPlaces {
    pub(crate) folder: Folder,
    pub(crate) meta_folder: Folder,
    pub(crate) stamp: Stamp,
}

impl PairPlaces {
    /// The names of the pair's files.
    #[tactic(auto, unfolding(block_files::specs::Placements::data_name, block_files::specs::Placements::meta_name))]
    pub(crate) fn names(&self, block: BlockId) -> FileNames
        ensures { result ≡ pair_names block.0 self.now }
    {
        FileNames {
            data: data_name(block, self.folder),
            meta: meta_name(block, self.stamp, self.meta_folder),
        }
    }
}

/// Whether a file lies in tmp.
#[tactic(auto, unfolding(crate::specs::Pairs::is_temporary))]
pub(crate) fn is_temporary(name: &FileName) -> bool
    ensures { result ≡ is_temporary name.now }
{
    name.as_slice().starts_with(TEMPORARY_FRONT)
}

/// The folder, where a name says a data file of this block.
fn body_in(block: BlockId, named: &Named) -> Option<Folder>
    ensures { result ≡ body_in block named.now }
{
    match named {
        Named::Body {
            block: read,
            folder,
        } if *read == block => Some(*folder),
        _ => None,
    }
}

/// The folder in which this is a block's data file.
fn body_at(block: BlockId, name: &FileName) -> Option<Folder>
    ensures { ReadsBody block name.now result }
{
    let Ok(named) = read_name(name) else {
        return None;
    };
    body_in(block, &named)
}

/// The folder and the stamp, where a name says a metadata file of this block.
fn sums_in(block: BlockId, named: Named) -> Option<(Folder, Stamp)>
    ensures value { result ≡ sums_in block named }
    ensures fits { IfSome result (λ x. x.1.0 < 2 ^ 64) }
{
    match named {
        Named::Sums {
            block: read,
            stamp,
            folder,
        } if read == block => Some((folder, stamp)),
        _ => None,
    }
}

/// The folder in which this is a block's metadata file, and its stamp.
fn sums_at(block: BlockId, name: &FileName) -> Option<(Folder, Stamp)>
    ensures { ReadsSums block name.now result }
{
    let Ok(named) = read_name(name) else {
        return None;
    };
    sums_in(block, named)
}

/// Where a block's files lie, if the first of these names is its data file's and the second its metadata file's.
fn places_of(block: BlockId, first: &FileName, second: &FileName) -> Option<PairPlaces>
    ensures { ReadsBoth block first.now second.now result }
{
    let Some(folder) = body_at(block, first) else {
        return None;
    };
    let Some((meta_folder, stamp)) = sums_at(block, second) else {
        return None;
    };
    Some(PairPlaces {
        folder,
        meta_folder,
        stamp,
    })
}

/// Where a block's files lie, if these are the names of one data file and one metadata file alone.
pub(crate) fn pair_among(block: BlockId, names: &[FileName]) -> Option<PairPlaces>
    ensures { ReadsPair block names.now result }
{
    let [first, second] = names else {
        return None;
    };
    match places_of(block, first, second) {
        Some(places) => Some(places),
        None => places_of(block, second, first),
    }
}
