//! A block's files are settled: files in tmp are removed, and a pair is moved and cut to what is kept.

ghost use Rattle.std.specs.Prelude.{◌≡◌, ◌++◌, IfSome, OnOk};
ghost use Rattle.file_calls.specs.Plans.{FindFiles};
ghost use Rattle.replica_calls.specs.CallLists.{remove_list};
ghost use Rattle.file_calls.specs.FileCalls.{plan};
ghost use Rattle.restart_scan.specs.Blocks.{both_in, both_final, layout_places, is_moved, is_final};
ghost use Rattle.restart_scan.specs.Settling.{MakesAll};
ghost use Rattle.restart_scan.specs.Reading.{is_read_whole, read_state, settle_list, names_of, read_scanned};

use crate::calls::{push_cuts, push_moves, push_removals};
use crate::faults::ScanFault;
use crate::found::{Scanned, Seen};
use crate::pairs::PairPlaces;
use crate::reading::ReadPair;
use file_calls::{FileCall, perform};
use hd_base::{BlockId, FileName, Files, ReplicaState};
use meta_file::Folder;
use replica_calls::FileNames;
use replica_model::{folder_of, meta_len};
use std::alloc::{AllocError, Global};

/// The names of a pair's files: where they lie at first, in layout -57, and at last.
#[derive(Drop)]
pub(crate) struct PairNames {
    first: FileNames,
    layout: FileNames,
    last: FileNames,
}

impl PairPlaces {
    /// Where both files lie in this folder.
    fn both_in(&self, folder: Folder) -> PairPlaces
        ensures { result ≡ both_in folder self.now }
    {
        PairPlaces {
            folder,
            meta_folder: folder,
            stamp: self.stamp,
        }
    }

    /// Whether both files lie in the folder of finalized replicas, in either layout.
    fn both_final(&self) -> bool
        ensures { result ≡ both_final self.now }
    {
        is_final(self.folder) && is_final(self.meta_folder)
    }

    /// Where the files lie once those of finalized replicas lie where layout -57 puts them.
    fn in_layout(&self) -> PairPlaces
        ensures { result ≡ layout_places self.now }
    {
        if self.both_final() {
            self.both_in(Folder::Finalized)
        } else {
            *self
        }
    }

    /// Whether both files lie in the folder of finalized replicas, and one elsewhere than layout -57 puts it.
    fn is_moved(&self) -> bool
        ensures { result ≡ is_moved self.now }
    {
        self.both_final()
            && !(self.folder == Folder::Finalized && self.meta_folder == Folder::Finalized)
    }
}

/// Whether the folder is that of finalized replicas, in either layout.
fn is_final(folder: Folder) -> bool
    ensures { result ≡ is_final folder }
{
    match folder {
        Folder::Finalized | Folder::Finalized56 => true,
        Folder::Rbw | Folder::Tmp => false,
    }
}

impl ReadPair {
    /// FINALIZED where both files lie in finalized, and all is whole; else RWR.
    fn state(&self) -> ReplicaState
        ensures { result ≡ read_state self.now }
    {
        if self.places.both_final() && self.is_whole() {
            ReplicaState::Finalized
        } else {
            ReplicaState::Rwr
        }
    }

    /// Whether all bytes are kept, and the metadata file has just their sums.
    fn is_whole(&self) -> bool
        ensures { result ≡ is_read_whole self.now }
    {
        self.kept == self.data_len && self.meta_len == meta_len(self.rule, self.data_len)
    }

    /// What is found of the pair.
    pub(crate) fn found(&self, block: BlockId) -> Scanned
        ensures { result ≡ read_scanned block self.now }
    {
        let state = self.state();
        let seen = Seen {
            block,
            folder: folder_of(state),
            state,
            stamp: self.places.stamp,
            sums: self.rule,
            length: self.kept,
        };
        Scanned {
            seen: Some(seen),
            is_moved: self.places.is_moved(),
        }
    }

    /// The names of the files.
    fn names(&self, block: BlockId) -> PairNames
        ensures { result ≡ names_of block.0 self.now }
    {
        let last = self.places.both_in(folder_of(self.state()));
        PairNames {
            first: self.places.names(block),
            layout: self.places.in_layout().names(block),
            last: last.names(block),
        }
    }
}

/// Adds the calls that settle a pair.
fn push_settling<'n, 'b>(
    calls: &mut Vec<FileCall<'n, 'b>>,
    names: &'n PairNames,
    pair: &ReadPair,
) -> Result<(), AllocError>
    ensures { OnOk result (plan calls.new.items ≡ plan calls.old.items ++ settle_list names.now pair.now) }
{
    let layout = pair.places.in_layout();
    let last = pair.places.both_in(folder_of(pair.state()));
    push_moves(calls, &names.first, &names.layout, &pair.places, &layout)?;
    push_moves(calls, &names.layout, &names.last, &layout, &last)?;
    push_cuts(calls, &names.last, pair)
}

/// Makes the calls that remove files in tmp.
pub(crate) fn remove_temporary<F: Files>(
    alloc: Global,
    drawer: &mut F,
    temporary: &[FileName],
) -> Result<(), ScanFault>
    requires { IfSome (F.files drawer.old) (λ m. FindFiles m (remove_list temporary.now)) }
    ensures { MakesAll F.Files drawer.old drawer.new (remove_list temporary.now) result }
{
    let mut calls = Vec::new(alloc);
    push_removals(&mut calls, temporary)?;
    perform(drawer, &calls)?;
    Ok(())
}

/// Makes the calls that remove files in tmp, and then those that settle a pair.
pub(crate) fn settle_pair<F: Files>(
    alloc: Global,
    drawer: &mut F,
    block: BlockId,
    temporary: &[FileName],
    pair: &ReadPair,
) -> Result<(), ScanFault>
    requires { IfSome (F.files drawer.old) (λ m.
        FindFiles m (remove_list temporary.now ++ settle_list (names_of block.0 pair.now) pair.now)) }
    ensures { MakesAll F.Files drawer.old drawer.new
        (remove_list temporary.now ++ settle_list (names_of block.0 pair.now) pair.now) result }
{
    let names = pair.names(block);
    let mut calls = Vec::new(alloc);
    push_removals(&mut calls, temporary)?;
    push_settling(&mut calls, &names, pair)?;
    perform(drawer, &calls)?;
    Ok(())
}
