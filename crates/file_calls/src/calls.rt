//! Calls on files as values.

use hd_base::FileName;

/// A call on files that isn't a mere read, over names and bytes that stand elsewhere.
#[derive(Clone, Copy, Debug)]
pub enum FileCall<'n, 'b> {
    /// Makes an empty file.
    Make(&'n FileName),
    /// Writes bytes at a place.
    Write(&'n FileName, u64, &'b [u8]),
    /// Cuts a file to a length.
    Cut(&'n FileName, u64),
    /// Brings a file's bytes to the disk.
    Sync(&'n FileName),
    /// Gives a file another name.
    Rename(&'n FileName, &'n FileName),
    /// Removes a file.
    Remove(&'n FileName),
}
