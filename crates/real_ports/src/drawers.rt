//! The files of one block in a node's folder.

ghost use Rattle.std.specs.Prelude.{◌≡◌, ◌^◌, ◌≤◌, length, None, Ok, IfOk};
ghost use Rattle.hd_base.specs.FileCauses.{FileCause, MemoryCause};

use crate::paths::{FilePath, parent};
use crate::walks::files_below;
use hd_base::{BlockId, FileError, FileName, Files};
use std::alloc::{AllocError, Global};
use std::fs::{self, File, Files as System, OpenOptions};
use std::io::{self, ErrorKind};
use std::os::unix::fs::FileExt;

/// A file that is kept open.
#[derive(Drop)]
struct OpenFile {
    name: FileName,
    file: File,
}

/// The files of one block in a folder of the system. It shows nothing of what they hold. A data file and a metadata file
/// are kept open between calls; no byte is kept back. Files take no memory of the program's as they grow. A file that
/// is made, renamed or removed reaches the disk under its name before the call answers, its bytes with `sync`.
#[derive(Drop)]
pub struct FolderDrawer<R> {
    rt: R,
    block: BlockId,
    folder: String,
    path: FilePath,
    target: FilePath,
    data: Option<OpenFile>,
    meta: Option<OpenFile>,
    pub(crate) faults: u64,
}

impl<R: System<File = File> + AllocGlobal + Clone + Drop> FolderDrawer<R> {
    /// The files of this block in this folder.
    pub(crate) fn new(
        alloc: Global,
        rt: R,
        block: BlockId,
        folder: &str,
    ) -> Result<FolderDrawer<R>, AllocError>
        ensures { IfOk result (λ drawer. drawer.faults ≡ 0) }
    {
        Ok(FolderDrawer {
            rt,
            block,
            folder: String::from_str(alloc, folder)?,
            path: FilePath::new(alloc, folder)?,
            target: FilePath::new(alloc, folder)?,
            data: None,
            meta: None,
            faults: 0,
        })
    }

    /// Which answer a call gives that takes memory of the program's: want of memory is no fault.
    fn listed<T: Drop>(&mut self, done: io::Result<T>) -> Result<T, FileError>
        ensures { MemoryCause self.old.faults self.new.faults result }
    {
        match done {
            Ok(value) => Ok(value),
            Err(error) if error.kind() == ErrorKind::OutOfMemory => Err(FileError::Memory),
            Err(_) => {
                self.faults = self.faults.saturating_add(1);
                Err(FileError::Failed)
            }
        }
    }

    /// Which answer a call gives that looks for a file.
    fn found<T: Drop>(&mut self, name: &FileName, done: io::Result<T>) -> Result<T, FileError>
        ensures cause { FileCause None name.now self.old.faults self.new.faults result }
        ensures value { IfOk result (λ value. done ≡ Ok value) }
    {
        match done {
            Ok(value) => Ok(value),
            Err(error) => {
                self.faults = self.faults.saturating_add(1);
                Err(if error.kind() == ErrorKind::NotFound {
                    FileError::Absent
                } else {
                    FileError::Failed
                })
            }
        }
    }

    /// The file of this name: the one that is kept open, or else one that is opened now.
    fn opened(&mut self, name: &FileName) -> io::Result<File>
        ensures { self.new.faults ≡ self.old.faults }
    {
        let kept = if name.is_data() {
            self.data.take()
        } else {
            self.meta.take()
        };
        if let Some(OpenFile { name: held, file }) = kept {
            if held.as_slice() == name.as_slice() {
                return Ok(file);
            }
        }
        self.path.set(name)?;
        OpenOptions::new()
            .read(true)
            .write(true)
            .open(&self.rt, self.path.text())
    }

    /// Keeps a file open.
    fn keep(&mut self, name: &FileName, file: File)
        ensures { self.new.faults ≡ self.old.faults }
    {
        let kept = Some(OpenFile {
            name: name.duplicate(),
            file,
        });
        if name.is_data() {
            self.data = kept;
        } else {
            self.meta = kept;
        }
    }

    /// Closes the files that are kept open.
    fn close(&mut self)
        ensures { self.new.faults ≡ self.old.faults }
    {
        self.data = None;
        self.meta = None;
    }

    /// Makes an empty file, and its folder where that isn't there.
    fn make_file(&mut self, name: &FileName) -> io::Result<()>
        ensures { self.new.faults ≡ self.old.faults }
    {
        self.close();
        self.path.set(name)?;
        let path = self.path.text();
        fs::create_dir_all(&self.rt, parent(path))?;
        let file = OpenOptions::new()
            .read(true)
            .write(true)
            .create(true)
            .truncate(true)
            .open(&self.rt, path)?;
        sync_folder(&self.rt, path)?;
        self.keep(name, file);
        Ok(())
    }

    /// Writes bytes at their place.
    fn write_bytes(&mut self, name: &FileName, place: u64, piece: &[u8]) -> io::Result<()>
        ensures { self.new.faults ≡ self.old.faults }
    {
        let file = self.opened(name)?;
        let done = file.write_all_at(piece, place);
        self.keep(name, file);
        done
    }

    /// Reads bytes at a place.
    fn read_bytes(&mut self, name: &FileName, place: u64, into: &mut [u8]) -> io::Result<usize>
        ensures faults { self.new.faults ≡ self.old.faults }
        ensures within { IfOk result (λ n. n ≤ length into.new) }
    {
        let file = self.opened(name)?;
        let done = read_front(&file, place, into);
        self.keep(name, file);
        done
    }

    /// Cuts a file.
    fn cut_file(&mut self, name: &FileName, len: u64) -> io::Result<()>
        ensures { self.new.faults ≡ self.old.faults }
    {
        let file = self.opened(name)?;
        let done = file.set_len(len);
        self.keep(name, file);
        done
    }

    /// Brings a file's bytes to the disk.
    fn sync_file(&mut self, name: &FileName) -> io::Result<()>
        ensures { self.new.faults ≡ self.old.faults }
    {
        let file = self.opened(name)?;
        let done = file.sync_all();
        self.keep(name, file);
        done
    }

    /// Gives a file another name, and makes the folder of that where it isn't there.
    fn rename_file(&mut self, from: &FileName, to: &FileName) -> io::Result<()>
        ensures { self.new.faults ≡ self.old.faults }
    {
        self.close();
        self.path.set(from)?;
        self.target.set(to)?;
        let (path, target) = (self.path.text(), self.target.text());
        fs::create_dir_all(&self.rt, parent(target))?;
        fs::rename(&self.rt, path, target)?;
        sync_folder(&self.rt, target)?;
        if parent(path) != parent(target) {
            sync_folder(&self.rt, path)?;
        }
        Ok(())
    }

    /// Removes a file.
    fn remove_file(&mut self, name: &FileName) -> io::Result<()>
        ensures { self.new.faults ≡ self.old.faults }
    {
        self.close();
        self.path.set(name)?;
        fs::remove_file(&self.rt, self.path.text())?;
        sync_folder(&self.rt, self.path.text())
    }

    /// How many bytes a file has.
    fn file_length(&mut self, name: &FileName) -> io::Result<u64>
        ensures { self.new.faults ≡ self.old.faults }
    {
        self.path.set(name)?;
        Ok(fs::metadata(&self.rt, self.path.text())?.len())
    }

    /// The names of the block's files.
    fn block_names(&self, alloc: Global) -> io::Result<Vec<FileName>> {
        let mut names = files_below(alloc, &self.rt, self.folder.as_str())?;
        names.retain(|name| name.block() == Some(self.block));
        Ok(names)
    }
}

/// Reads from a place to the end of the file or of the buffer, and answers how many bytes.
fn read_front(file: &File, place: u64, into: &mut [u8]) -> io::Result<usize>
    ensures { IfOk result (λ n. n ≤ length into.new) }
{
    let mut count = 0;
    'reads: for _ in 0..u64::MAX {
        if count >= into.len() {
            break;
        }
        match file.read_at(&mut into[count..], place.saturating_add(count as u64)) {
            Ok(0) => break,
            Ok(more) => count += more,
            Err(error) if error.kind() == ErrorKind::Interrupted => {}
            Err(error) => return Err(error),
        }
    }
    Ok(count)
}

/// Brings to the disk which files stand in the folder of a path.
fn sync_folder<R: System<File = File>>(rt: &R, path: &str) -> io::Result<()> {
    fs::open(rt, parent(path))?.sync_all()
}

impl<R: System<File = File> + AllocGlobal + Clone + Drop> Files for FolderDrawer<R> {
    ghost files = { λ _. None };

    ghost log = { λ _. None };

    ghost room = { λ _ _. 2 ^ 65 };

    ghost faults = { λ d. d.faults };

    ghost schedule = { λ _. None };

    ghost covers_files = { λ _. tt };

    ghost log_makes_files = { λ _. tt };

    fn names(&mut self, alloc: Global) -> Result<Vec<FileName>, FileError> {
        let names = self.block_names(alloc);
        self.listed(names)
    }

    fn length(&mut self, name: &FileName) -> Result<u64, FileError> {
        let done = self.file_length(name);
        self.found(name, done)
    }

    fn read_at(
        &mut self,
        name: &FileName,
        place: u64,
        into: &mut [u8],
    ) -> Result<usize, FileError> {
        let done = self.read_bytes(name, place, into);
        self.found(name, done)
    }

    fn room(&mut self, _alloc: Global, _name: &FileName, _len: u64) -> Result<(), FileError> {
        Ok(())
    }

    fn make(&mut self, name: &FileName) -> Result<(), FileError> {
        match self.make_file(name) {
            Ok(()) => Ok(()),
            Err(_) => {
                self.faults = self.faults.saturating_add(1);
                Err(FileError::Failed)
            }
        }
    }

    fn write_at(&mut self, name: &FileName, place: u64, piece: &[u8]) -> Result<(), FileError> {
        let done = self.write_bytes(name, place, piece);
        self.found(name, done)
    }

    fn cut(&mut self, name: &FileName, len: u64) -> Result<(), FileError> {
        let done = self.cut_file(name, len);
        self.found(name, done)
    }

    fn sync(&mut self, name: &FileName) -> Result<(), FileError> {
        let done = self.sync_file(name);
        self.found(name, done)
    }

    fn rename(&mut self, from: &FileName, to: &FileName) -> Result<(), FileError> {
        let done = self.rename_file(from, to);
        self.found(from, done)
    }

    fn remove(&mut self, name: &FileName) -> Result<(), FileError> {
        let done = self.remove_file(name);
        self.found(name, done)
    }
}
