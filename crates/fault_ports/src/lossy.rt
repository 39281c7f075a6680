//! Files that may lose what wasn't synced.

ghost use Rattle.std.specs.Prelude.{◌≡◌, ◌+◌, ◌^◌, ◌≤◌, [], ◌∷◌, Some, None, option_map};
ghost use Rattle.std.specs.Prelude.{IfOk, IfErr, OnOk, OnErr, vec_len, vec_capacity};
ghost use Rattle.std.specs.Str.{bytes_eq};
ghost use Rattle.std.specs.Map.{update};
ghost use Rattle.hd_base.specs.Calls.{MakesCalls, MakesPartOf};
ghost use Rattle.hd_base.specs.Faults.{FaultsIncreased, HasCause};
ghost use Rattle.hd_base.specs.FileMaps.{no_files};
ghost use Rattle.file_calls.specs.Disks.{disk_of, disk_after_call, files_on};
ghost use Rattle.file_calls.specs.Losses.{LosesPower, BeginsLog};
ghost use Rattle.fault_ports.specs.StoredFiles.{disk_file_of, disk_by, files_by, disk_by-fits};
ghost use Rattle.fault_ports.specs.MadeCalls.{call_of, calls_of, made_by};

use crate::copies::copy_front;
use crate::entries::{DiskEntry, StartEntry, find_file, made, put_first};
use crate::listings::listed;
use crate::losing::{lost, settled};
use crate::made_calls::MadeCall;
use crate::stored_files::StoredFile;
use hd_base::{FileError, FileName, Files};
use std::alloc::{AllocError, Global};

/// For how many calls `new` takes the places.
const FIRST_PLACES: usize = 16;

/// Files in memory that show their log: the files at its start, which are wholly on the disk, and
/// each call that was made since. A call that finds no memory to keep this fails, and is counted.
#[derive(Debug, Drop)]
pub struct LossyFiles {
    start: Vec<StartEntry>,
    disk: Vec<DiskEntry>,
    calls: Vec<MadeCall>,
    faults: u64,
    alloc: Global,
    ghost kept: { disk_by disk.items ≡ disk_of (files_by start.items) (calls_of calls.items) },
}

impl LossyFiles {
    /// No files, and no call.
    pub fn new(alloc: Global) -> Result<LossyFiles, AllocError>
        ensures files { IfOk result (λ f. ⟦<LossyFiles as Files>⟧.files f ≡ Some no_files) }
        ensures sound { IfOk result (λ f. ⟦<LossyFiles as Files>⟧.faults f ≡ 0) }
    {
        Ok(LossyFiles {
            start: Vec::new(alloc),
            disk: Vec::with_capacity(alloc, FIRST_PLACES)?,
            calls: Vec::with_capacity(alloc, FIRST_PLACES)?,
            faults: 0,
            alloc,
        })
    }

    /// Loses the power: the files become one outcome, drawn by the word, of what a loss may leave
    /// of them. They are then wholly on the disk, and the log begins anew. Want of memory changes
    /// nothing.
    pub fn lose(&mut self, word: u32) -> Result<(), AllocError>
        ensures lost { OnOk result (LosesPower
            (⟦<LossyFiles as Files>⟧.log self.old) (⟦<LossyFiles as Files>⟧.files self.new)) }
        ensures log { OnOk result (BeginsLog
            (⟦<LossyFiles as Files>⟧.files self.new) (⟦<LossyFiles as Files>⟧.log self.new)) }
        ensures err { OnErr result (self.new ≡ self.old) }
        ensures faults { ⟦<LossyFiles as Files>⟧.faults self.new ≡ ⟦<LossyFiles as Files>⟧.faults self.old }
    {
        let alloc = self.alloc;
        let start = lost(alloc, &self.disk, word)?;
        let disk = settled(alloc, &start)?;
        self.start = start;
        self.disk = disk;
        self.calls.clear();
        Ok(())
    }

    /// What was made with memory; want of it is a fault.
    fn or_fault<T: Drop>(&mut self, made: Result<T, AllocError>) -> Result<T, FileError>
        ensures same { self.new ≡ record self.old { faults = self.new.faults } }
        ensures value { IfOk result (λ x. made ≡ Ok x) }
        ensures failed { IfErr result (λ e. e ≡ FileError.Failed) }
        ensures cause { HasCause self.old.faults self.new.faults result }
    {
        match made {
            Ok(value) => Ok(value),
            Err(_) => {
                self.faults = self.faults.saturating_add(1);
                Err(FileError::Failed)
            }
        }
    }

    /// Takes the places for one call, which changes two names at the most.
    fn reserve(&mut self) -> Result<(), FileError>
        ensures same { self.new.disk.items ≡ self.old.disk.items }
        ensures start { self.new.start ≡ self.old.start }
        ensures calls { self.new.calls.items ≡ self.old.calls.items }
        ensures places { OnOk result (vec_len self.new.disk + 2 ≤ vec_capacity self.new.disk) }
        ensures place { OnOk result (vec_len self.new.calls + 1 ≤ vec_capacity self.new.calls) }
        ensures failed { IfErr result (λ e. e ≡ FileError.Failed) }
        ensures cause { HasCause self.old.faults self.new.faults result }
    {
        let places = self.disk.reserve(2);
        self.or_fault(places)?;
        let place = self.calls.reserve(1);
        self.or_fault(place)
    }

    /// Keeps a call and the file that a name now has, or that it has none.
    fn add(
        &mut self,
        name: &FileName,
        file: Option<StoredFile>,
        call: MadeCall,
    ) -> Result<(), FileError>
        requires { update bytes_eq (disk_by self.old.disk.items) name.now (option_map disk_file_of file)
            ≡ disk_after_call (call_of call) (disk_by self.old.disk.items) }
        ensures done { OnOk result (MakesCalls
            (⟦<LossyFiles as Files>⟧.files self.old) (⟦<LossyFiles as Files>⟧.files self.new)
            (⟦<LossyFiles as Files>⟧.log self.old) (⟦<LossyFiles as Files>⟧.log self.new) (call_of call ∷ [])) }
        ensures in_part { OnErr result (MakesPartOf
            (⟦<LossyFiles as Files>⟧.files self.old) (⟦<LossyFiles as Files>⟧.files self.new)
            (⟦<LossyFiles as Files>⟧.log self.old) (⟦<LossyFiles as Files>⟧.log self.new) (call_of call)) }
        ensures failed { IfErr result (λ e. e ≡ FileError.Failed) }
        ensures cause { HasCause self.old.faults self.new.faults result }
    {
        self.reserve()?;
        put_first(&mut self.disk, name, file);
        self.calls.push_reserved(call);
        Ok(())
    }
}

impl Files for LossyFiles {
    ghost files = { λ f. Some (files_on (disk_by f.disk.items)) };

    ghost log = { λ f. Some (record { start = files_by f.start.items; calls = calls_of f.calls.items }) };

    ghost room = { λ _ _. 2 ^ 64 };

    ghost faults = { λ f. f.faults };

    ghost schedule = { λ _. None };

    fn names(&mut self, alloc: Global) -> Result<Vec<FileName>, FileError> {
        listed(alloc, &self.disk).map_err(|_| FileError::Memory)
    }

    fn length(&mut self, name: &FileName) -> Result<u64, FileError> {
        let file = find_file(&self.disk, name).ok_or(FileError::Absent)?;
        Ok(file.bytes.len() as u64)
    }

    fn read_at(
        &mut self,
        name: &FileName,
        place: u64,
        into: &mut [u8],
    ) -> Result<usize, FileError> {
        let file = find_file(&self.disk, name).ok_or(FileError::Absent)?;
        let start = file.bytes.len().min(place as usize);
        Ok(copy_front(file.bytes.split_at(start).1, into))
    }

    fn room(&mut self, _alloc: Global, _name: &FileName, _len: u64) -> Result<(), FileError> {
        self.disk.reserve(2)?;
        self.calls.reserve(1)?;
        Ok(())
    }

    fn make(&mut self, name: &FileName) -> Result<(), FileError> {
        let made = made(self.alloc, &self.disk, name);
        let file = self.or_fault(made)?;
        self.add(name, Some(file), MadeCall::Make(name.duplicate()))
    }

    fn write_at(&mut self, name: &FileName, place: u64, piece: &[u8]) -> Result<(), FileError> {
        let alloc = self.alloc;
        let file = find_file(&self.disk, name).ok_or(FileError::Absent)?;
        let written = file.written(alloc, place as usize, piece);
        let file = self.or_fault(written)?;
        let bytes = self.or_fault(Vec::from_slice(alloc, piece))?;
        self.add(
            name,
            Some(file),
            MadeCall::Write(name.duplicate(), place, bytes),
        )
    }

    fn cut(&mut self, name: &FileName, len: u64) -> Result<(), FileError> {
        let alloc = self.alloc;
        let file = find_file(&self.disk, name).ok_or(FileError::Absent)?;
        let cut = file.cut(alloc, len as usize);
        let file = self.or_fault(cut)?;
        self.add(name, Some(file), MadeCall::Cut(name.duplicate(), len))
    }

    fn sync(&mut self, name: &FileName) -> Result<(), FileError> {
        let alloc = self.alloc;
        let file = find_file(&self.disk, name).ok_or(FileError::Absent)?;
        let synced = StoredFile::synced(alloc, &file.bytes);
        let file = self.or_fault(synced)?;
        self.add(name, Some(file), MadeCall::Sync(name.duplicate()))
    }

    fn rename(&mut self, from: &FileName, to: &FileName) -> Result<(), FileError> {
        let alloc = self.alloc;
        let file = find_file(&self.disk, from).ok_or(FileError::Absent)?;
        let moved = file.duplicate(alloc);
        let file = self.or_fault(moved)?;
        self.reserve()?;
        put_first(&mut self.disk, from, None);
        put_first(&mut self.disk, to, Some(file));
        self.calls
            .push_reserved(MadeCall::Rename(from.duplicate(), to.duplicate()));
        Ok(())
    }

    fn remove(&mut self, name: &FileName) -> Result<(), FileError> {
        find_file(&self.disk, name).ok_or(FileError::Absent)?;
        self.add(name, None, MadeCall::Remove(name.duplicate()))
    }

    ghost covers_files = { λ f name. disk_by-fits f.disk.items name };

    ghost log_makes_files = { λ f.
        made_by (disk_by f.disk.items) (files_by f.start.items) (calls_of f.calls.items) f.kept };
}
