//! What a loss of power makes of files, as a word draws it.

ghost use Rattle.std.specs.Prelude.{◌≡◌, ◌≤◌, IfOk, option_map};
ghost use Rattle.file_calls.specs.Disks.{synced_disk};
ghost use Rattle.file_calls.specs.Losses.{MayBeLeft, MayStand};
ghost use Rattle.fault_ports.specs.Certain.{certain_at};
ghost use Rattle.fault_ports.specs.StoredFiles.{disk_file_of, disk_by, files_by};
ghost use Rattle.fault_ports.specs.Outcomes.{Pairs, IsSyncedAs};

use crate::entries::{DiskEntry, StartEntry};
use crate::stored_files::StoredFile;
use std::alloc::{AllocError, Global};

/// What is left of each entry.
pub fn lost(alloc: Global, disk: &[DiskEntry], word: u32) -> Result<Vec<StartEntry>, AllocError>
    ensures { IfOk result (λ v. Pairs MayStand disk.now v.items) }
{
    let mut left = Vec::new(alloc);
    let mut word = word;
    for entry in disk {
        left.push(lost_entry(alloc, entry, word)?)?;
        word = next_word(word);
    }
    Ok(left)
}

/// What is left of one entry.
fn lost_entry(alloc: Global, entry: &DiskEntry, word: u32) -> Result<StartEntry, AllocError>
    ensures name { IfOk result (λ e. entry.now.name ≡ e.name) }
    ensures file { IfOk result (λ e. MayStand
        (option_map disk_file_of entry.now.file) (option_map (λ v. v.items) e.bytes)) }
{
    let bytes = match &entry.file {
        Some(file) => Some(left_of(alloc, file, word)?),
        None => None,
    };
    Ok(StartEntry {
        name: entry.name.duplicate(),
        bytes,
    })
}

/// The word for the next file.
fn next_word(word: u32) -> u32 {
    word.wrapping_mul(1_664_525).wrapping_add(1_013_904_223)
}

/// What is left of a file: a length between the least and the greatest, and each byte that is
/// certain; others are drawn.
fn left_of(alloc: Global, file: &StoredFile, word: u32) -> Result<Vec<u8>, AllocError>
    ensures { IfOk result (λ v. MayBeLeft (disk_file_of file.now) v.items) }
{
    let span = file.greatest - file.least;
    let len = file.least + word as usize % span.saturating_add(1);
    let mut left = Vec::new(alloc);
    for i in 0..len {
        left.push(certain_byte(&file.certain, i).unwrap_or(drawn_byte(word, i)))?;
    }
    Ok(left)
}

/// The byte that is certain at a place.
fn certain_byte(certain: &[Option<u8>], i: usize) -> Option<u8>
    ensures { result ≡ certain_at certain.now i }
{
    if i < certain.len() { certain[i] } else { None }
}

/// A byte drawn for a place.
fn drawn_byte(word: u32, i: usize) -> u8 {
    ((word as usize % 251 + i % 251) % 251) as u8
}

/// The files that were left, all on the disk.
pub fn settled(alloc: Global, start: &[StartEntry]) -> Result<Vec<DiskEntry>, AllocError>
    ensures { IfOk result (λ v. disk_by v.items ≡ synced_disk (files_by start.now)) }
{
    let mut disk = Vec::new(alloc);
    for entry in start {
        disk.push(settled_entry(alloc, entry)?)?;
    }
    Ok(disk)
}

/// A file that was left, on the disk.
fn settled_entry(alloc: Global, entry: &StartEntry) -> Result<DiskEntry, AllocError>
    ensures name { IfOk result (λ e. e.name ≡ entry.now.name) }
    ensures file { IfOk result (λ e. IsSyncedAs
        (option_map disk_file_of e.file) (option_map (λ v. v.items) entry.now.bytes)) }
{
    let file = match &entry.bytes {
        Some(bytes) => Some(StoredFile::synced(alloc, bytes)?),
        None => None,
    };
    Ok(DiskEntry {
        name: entry.name.duplicate(),
        file,
    })
}
