//! A table of files.

ghost use Rattle.std.specs.Prelude.{◌≡◌, ◌+◌, ◌<◌, true, [], length, take, Some, option_map, option_copied, IsSome, IfSome, OnOk, vec_len};
ghost use Rattle.std.specs.List.{position_from};
ghost use Rattle.std.specs.Str.{bytes_eq};
ghost use Rattle.hd_base.specs.FileMaps.{put, without, changed, moved, overwritten, IsPlaceIn, KeepsRoom, CarriesRoom};
ghost use Rattle.mem_ports.specs.Entries.{look, space, names_apart, of_block};

use crate::copies::overwrite;
use crate::entries::{Entry, bytes_of, find, rename_entries};
use hd_base::{BlockId, FileName};
use std::alloc::{AllocError, Global};

/// Entries of files, none of whose names stands twice.
#[derive(Debug, Drop)]
pub struct FileTable {
    pub entries: Vec<Entry>,
    ghost apart: { names_apart entries.items ≡ true },
}

impl FileTable {
    /// No entries.
    pub fn new(alloc: Global) -> FileTable
        ensures { result.entries.items ≡ [] }
    {
        FileTable {
            entries: Vec::new(alloc),
        }
    }

    /// The bytes of a file.
    pub fn bytes_of(&self, name: &FileName) -> Option<&Vec<u8>>
        ensures { option_map (λ v. v.items) (option_copied result) ≡ look self.now.entries.items name.now }
    {
        bytes_of(&self.entries, name)
    }

    /// The place of a name's entry.
    fn find(&self, name: &FileName) -> Option<usize>
        ensures place { result ≡ position_from (λ e. bytes_eq e.name name.now) 0 self.now.entries.items }
        ensures within { IfSome result (λ i. i < vec_len self.now.entries) }
    {
        find(&self.entries, name)
    }

    /// Secures that the file may grow to this length, or be made and grow to it, without memory.
    pub fn room(&mut self, alloc: Global, name: &FileName, len: usize) -> Result<(), AllocError>
        ensures covers { OnOk result (len < space self.new.entries.items name.now) }
        ensures files { look self.new.entries.items ≡ look self.old.entries.items }
        ensures room { KeepsRoom (space self.old.entries.items) (space self.new.entries.items) }
    {
        match self.find(name) {
            Some(place) => {
                let bytes = &mut self.entries[place].bytes;
                bytes.reserve(len.saturating_sub(bytes.len()))
            }
            None => {
                self.entries.reserve(1)?;
                let bytes = Vec::with_capacity(alloc, len)?;
                self.entries.push_reserved(Entry {
                    name: name.duplicate(),
                    bytes,
                    there: false,
                });
                Ok(())
            }
        }
    }

    /// Makes an empty file, whether or not the name was there.
    pub fn make(&mut self, name: &FileName)
        requires { 0 < space self.old.entries.items name.now }
        ensures files { look self.new.entries.items ≡ put (look self.old.entries.items) name.now [] }
        ensures room { KeepsRoom (space self.old.entries.items) (space self.new.entries.items) }
    {
        if let Some(place) = self.find(name) {
            let entry = &mut self.entries[place];
            entry.bytes.clear();
            entry.there = true;
        }
    }

    /// Writes a piece into a file that is there.
    pub fn write_at(&mut self, name: &FileName, place: usize, piece: &[u8])
        requires room { place + length piece.now < space self.old.entries.items name.now }
        requires place { IsPlaceIn (Some (look self.old.entries.items)) name.now place }
        requires there { IsSome (look self.old.entries.items name.now) }
        ensures files { look self.new.entries.items
            ≡ changed (look self.old.entries.items) name.now (λ b. overwritten b place piece.now) }
        ensures room { KeepsRoom (space self.old.entries.items) (space self.new.entries.items) }
    {
        if let Some(found) = self.find(name) {
            let entry = &mut self.entries[found];
            overwrite(&mut entry.bytes, place, piece);
        }
    }

    /// Cuts a file that is there.
    pub fn cut(&mut self, name: &FileName, len: usize)
        requires { IsSome (look self.old.entries.items name.now) }
        ensures files { look self.new.entries.items ≡ changed (look self.old.entries.items) name.now (take len) }
        ensures room { KeepsRoom (space self.old.entries.items) (space self.new.entries.items) }
    {
        if let Some(found) = self.find(name) {
            let entry = &mut self.entries[found];
            entry.bytes.truncate(len);
        }
    }

    /// Removes a file. Its name keeps its memory.
    pub fn remove(&mut self, name: &FileName)
        ensures files { look self.new.entries.items ≡ without (look self.old.entries.items) name.now }
        ensures room { KeepsRoom (space self.old.entries.items) (space self.new.entries.items) }
    {
        if let Some(found) = self.find(name) {
            let entry = &mut self.entries[found];
            entry.there = false;
        }
    }

    /// Gives up all entries but those of this block.
    pub fn keep_block(&mut self, block: BlockId)
        ensures { self.new.entries.items ≡ of_block block.0 self.old.entries.items }
    {
        self.entries.retain(|entry| entry.is_of(block));
    }

    /// Gives a file another name, in the place of a file that has it.
    pub fn rename(&mut self, from: &FileName, to: &FileName)
        ensures files { look self.new.entries.items ≡ moved (look self.old.entries.items) from.now to.now }
        ensures room { CarriesRoom (space self.old.entries.items) (space self.new.entries.items) from.now to.now }
    {
        if from == to {
            return;
        }
        rename_entries(&mut self.entries, from, to);
    }
}
