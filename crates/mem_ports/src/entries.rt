//! Files by their names, as a list of entries.

ghost use Rattle.std.specs.Prelude.{◌≡◌, ◌<◌, length, IfSome, Option, Some, None, map, option_map, option_copied};
ghost use Rattle.std.specs.List.{position_from};
ghost use Rattle.std.specs.Str.{bytes_eq};
ghost use Rattle.hd_base.specs.Blocks.{is_of_block};
ghost use Rattle.mem_ports.specs.Entries.{look, renamed};

use hd_base::{BlockId, FileName};

/// A name with its file, and with the memory that its file may use. A name without a file may have
/// memory too.
#[derive(Debug, Drop)]
pub struct Entry {
    pub name: FileName,
    pub bytes: Vec<u8>,
    /// Whether there is a file of that name. The bytes say nothing where there is none.
    pub there: bool,
}

impl Entry {
    /// Whether the name is of this block.
    pub fn is_of(&self, block: BlockId) -> bool
        ensures { result ≡ is_of_block block.0 self.now.name }
    {
        self.name.block() == Some(block)
    }
}

/// The place of a name's entry.
pub fn find(entries: &[Entry], name: &FileName) -> Option<usize>
    ensures place { result ≡ position_from (λ e. bytes_eq e.name name.now) 0 entries.now }
    ensures within { IfSome result (λ i. i < length entries.now) }
{
    for (i, entry) in entries.iter().enumerate() {
        if entry.name == *name {
            return Some(i);
        }
    }
    None
}

/// The bytes of a file.
pub fn bytes_of<'a>(entries: &'a [Entry], name: &FileName) -> Option<&'a Vec<u8>>
    ensures { option_map (λ v. v.items) (option_copied result) ≡ look entries.now name.now }
{
    for entry in entries {
        if entry.name == *name {
            return if entry.there {
                Some(&entry.bytes)
            } else {
                None
            };
        }
    }
    None
}

/// Gives the first name's entry the second, and takes the second from whichever had it.
pub fn rename_entries(entries: &mut Vec<Entry>, from: &FileName, to: &FileName)
    ensures { entries.new.items ≡ map (renamed from.now to.now) entries.old.items }
{
    for entry in entries.iter_mut() {
        rename_entry(entry, from, to);
    }
}

fn rename_entry(entry: &mut Entry, from: &FileName, to: &FileName)
    ensures { entry.new ≡ renamed from.now to.now entry.old }
{
    if entry.name == *from {
        entry.name = to.duplicate();
    } else if entry.name == *to {
        entry.name = from.duplicate();
        entry.there = false;
    }
}
