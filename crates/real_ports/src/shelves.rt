//! A node's files in a folder.

ghost use Rattle.std.specs.Prelude.{◌≡◌, ◌==◌, ◌||◌, false, None, IfOk, OnOk, OnErr};
ghost use Rattle.std.specs.List.{list_any};
ghost use Rattle.hd_base.specs.FileMaps.{marked};
ghost use Rattle.hd_base.specs.FileCauses.{MemoryCause};
ghost use Rattle.real_ports.specs.Lent.{lent_of};

use crate::drawers::FolderDrawer;
use crate::walks::files_below;
use hd_base::{BlockId, FileError, FileName, Shelf};
use std::alloc::{AllocError, Global};
use std::fs::{File, Files as System};
use std::io::{self, ErrorKind};

/// A node's files in a folder of the system, which need not be there: it is made with the first file. It shows nothing of
/// what the files hold.
#[derive(Drop)]
pub struct FolderShelf<R> {
    rt: R,
    folder: String,
    lent: Vec<BlockId>,
    faults: u64,
}

impl<R: System<File = File> + AllocGlobal + Clone + Drop + Send> FolderShelf<R> {
    /// The files in this folder; an empty path is the present folder.
    pub fn new(alloc: Global, rt: R, folder: &str) -> Result<FolderShelf<R>, AllocError>
        ensures lent { IfOk result (λ s. (block : _) → ⟦<FolderShelf<R> as Shelf>⟧.lent s block ≡ false) }
        ensures sound { IfOk result (λ s. ⟦<FolderShelf<R> as Shelf>⟧.faults s ≡ 0) }
    {
        let folder = if folder.is_empty() { "." } else { folder };
        Ok(FolderShelf {
            rt,
            folder: String::from_str(alloc, folder)?,
            lent: Vec::new(alloc),
            faults: 0,
        })
    }
}

impl<R: System<File = File> + AllocGlobal + Clone + Drop> FolderShelf<R> {
    /// Whether a block is lent.
    fn is_lent(&self, block: BlockId) -> bool
        ensures { result ≡ lent_of self.now.lent.items block.0 }
    {
        self.lent.iter().any(|lent| lent.0 == block.0)
    }

    /// The names of the files that aren't lent.
    fn free_names(&self, alloc: Global) -> io::Result<Vec<FileName>> {
        let mut names = files_below(alloc, &self.rt, self.folder.as_str())?;
        names.retain(|name| match name.block() {
            Some(block) => !self.is_lent(block),
            None => true,
        });
        Ok(names)
    }
}

impl<R: System<File = File> + AllocGlobal + Clone + Drop + Send> Shelf for FolderShelf<R> {
    type Drawer = FolderDrawer<R>;

    ghost files = { λ _. None };

    ghost lent = { λ s. lent_of s.lent.items };

    ghost faults = { λ s. s.faults };

    ghost schedule = { λ _. None };

    fn list(&mut self, alloc: Global) -> Result<Vec<FileName>, FileError> {
        match self.free_names(alloc) {
            Ok(names) => Ok(names),
            Err(error) if error.kind() == ErrorKind::OutOfMemory => Err(FileError::Memory),
            Err(_) => {
                self.faults = self.faults.saturating_add(1);
                Err(FileError::Failed)
            }
        }
    }

    fn lend(&mut self, alloc: Global, block: BlockId) -> Result<FolderDrawer<R>, FileError> {
        let drawer = FolderDrawer::new(alloc, self.rt.clone()?, block, self.folder.as_str())?;
        if self.lent.reserve(1).is_err() {
            return Err(FileError::Memory);
        }
        self.lent.push_reserved(block);
        Ok(drawer)
    }

    fn give_back(&mut self, block: BlockId, drawer: FolderDrawer<R>) {
        remove(&mut self.lent, block);
        self.faults = self.faults.saturating_add(drawer.faults);
    }
}

/// Removes a block from the list of those that are lent.
fn remove(lent: &mut Vec<BlockId>, block: BlockId)
    ensures { lent_of lent.new.items ≡ marked (lent_of lent.old.items) block.0 false }
{
    lent.retain(|other| other.0 != block.0);
}
