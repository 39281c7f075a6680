//! The calls that were made on files, kept.

use hd_base::FileName;

/// A call on files that isn't a mere read, with its own names and bytes.
#[derive(Debug, Drop)]
pub enum MadeCall {
    Make(FileName),
    Write(FileName, u64, Vec<u8>),
    Cut(FileName, u64),
    Sync(FileName),
    Rename(FileName, FileName),
    Remove(FileName),
}
