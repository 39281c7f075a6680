//! The files of one block, lent by a shelf in memory.

ghost use Rattle.std.specs.Prelude.{◌≡◌, Some, None, IsSome, IfOk, OnOk};
ghost use Rattle.hd_base.specs.FileMaps.{AreNamesOf};
ghost use Rattle.hd_base.specs.FileCauses.{FileCause, FaultCause};
ghost use Rattle.mem_ports.specs.Entries.{look, space, look-fits};
ghost use Rattle.mem_ports.specs.Schedules.{coming, CountsCall};

use crate::copies::copy_front;
use crate::listings::{in_order, push_names};
use crate::schedules::FaultSchedule;
use crate::tables::FileTable;
use hd_base::{FileError, FileName, Files};
use std::alloc::{AllocError, Global};

/// The files of one block in memory, which fail at the calls of their schedule.
#[derive(Debug, Drop)]
pub struct MemDrawer {
    pub(crate) table: FileTable,
    pub(crate) schedule: FaultSchedule,
}

impl MemDrawer {
    /// Counts a call that looks for no file.
    fn count(&mut self) -> Result<(), FileError>
        ensures table { self.new.table ≡ self.old.table }
        ensures cause { FaultCause self.old.schedule.faults self.new.schedule.faults result }
        ensures schedule { CountsCall self.old.schedule self.new.schedule result }
    {
        if self.schedule.next() {
            return Err(FileError::Failed);
        }
        Ok(())
    }

    /// Counts a call that looks for a file.
    fn reach(&mut self, name: &FileName) -> Result<(), FileError>
        ensures table { self.new.table ≡ self.old.table }
        ensures there { OnOk result (IsSome (look self.old.table.entries.items name.now)) }
        ensures cause { FileCause
            (Some (look self.old.table.entries.items)) name.now
            self.old.schedule.faults self.new.schedule.faults result }
        ensures schedule { CountsCall self.old.schedule self.new.schedule result }
    {
        let due = self.schedule.next();
        if self.table.bytes_of(name).is_none() {
            return Err(FileError::Absent);
        }
        if due {
            return Err(FileError::Failed);
        }
        Ok(())
    }

    /// The names of all files, in ascending order.
    fn listed(&self, alloc: Global) -> Result<Vec<FileName>, AllocError>
        ensures names { IfOk result (λ v. AreNamesOf (look self.now.table.entries.items) v.items) }
    {
        let mut names = Vec::new(alloc);
        push_names(&mut names, &self.table.entries)?;
        in_order(names)
    }
}

impl Files for MemDrawer {
    ghost files = { λ d. Some (look d.table.entries.items) };

    ghost log = { λ _. None };

    ghost room = { λ d. space d.table.entries.items };

    ghost faults = { λ d. d.schedule.faults };

    ghost schedule = { λ d. coming d.schedule };

    fn names(&mut self, alloc: Global) -> Result<Vec<FileName>, FileError> {
        self.count()?;
        self.listed(alloc).map_err(|_| FileError::Memory)
    }

    fn length(&mut self, name: &FileName) -> Result<u64, FileError> {
        let due = self.schedule.next();
        let bytes = self.table.bytes_of(name).ok_or(FileError::Absent)?;
        if due {
            return Err(FileError::Failed);
        }
        Ok(bytes.len() as u64)
    }

    fn read_at(
        &mut self,
        name: &FileName,
        place: u64,
        into: &mut [u8],
    ) -> Result<usize, FileError> {
        let due = self.schedule.next();
        let bytes = self.table.bytes_of(name).ok_or(FileError::Absent)?;
        if due {
            return Err(FileError::Failed);
        }
        let start = bytes.len().min(place as usize);
        Ok(copy_front(bytes.split_at(start).1, into))
    }

    fn room(&mut self, alloc: Global, name: &FileName, len: u64) -> Result<(), FileError> {
        self.count()?;
        self.table
            .room(alloc, name, len as usize)
            .map_err(|_| FileError::Memory)
    }

    fn make(&mut self, name: &FileName) -> Result<(), FileError> {
        self.count()?;
        self.table.make(name);
        Ok(())
    }

    fn write_at(&mut self, name: &FileName, place: u64, piece: &[u8]) -> Result<(), FileError> {
        self.reach(name)?;
        self.table.write_at(name, place as usize, piece);
        Ok(())
    }

    fn cut(&mut self, name: &FileName, len: u64) -> Result<(), FileError> {
        self.reach(name)?;
        self.table.cut(name, len as usize);
        Ok(())
    }

    fn sync(&mut self, name: &FileName) -> Result<(), FileError> {
        self.reach(name)
    }

    fn rename(&mut self, from: &FileName, to: &FileName) -> Result<(), FileError> {
        self.reach(from)?;
        self.table.rename(from, to);
        Ok(())
    }

    fn remove(&mut self, name: &FileName) -> Result<(), FileError> {
        self.reach(name)?;
        self.table.remove(name);
        Ok(())
    }

    ghost covers_files = { λ d. look-fits d.table.entries.items };

    ghost log_makes_files = { λ _. tt };
}
