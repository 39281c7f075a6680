//! A file with what a loss of power may leave of it.

ghost use Rattle.std.specs.Prelude.{◌≡◌, ◌≤◌, length, IfOk};
ghost use Rattle.hd_base.specs.FileMaps.{overwritten};

use crate::certain::{all_certain, without_range};
use std::alloc::{AllocError, Global};

/// A file: its bytes, the byte that is certain at each place, and the least and the greatest length
/// since its last sync.
#[derive(Debug, Drop)]
pub struct StoredFile {
    pub bytes: Vec<u8>,
    pub certain: Vec<Option<u8>>,
    pub least: usize,
    pub greatest: usize,
    ghost ordered: { least ≤ greatest },
}

impl StoredFile {
    ghost use Rattle.std.specs.Prelude.{◌≡◌, ◌+◌, ◌^◌, ◌<◌, IfOk, length, vec_len};
    ghost use Rattle.file_calls.specs.Disks.{synced_file, written_file, cut_file};
    ghost use Rattle.fault_ports.specs.StoredFiles.{disk_file_of};

    /// A file of these bytes, all on the disk.
    pub fn synced(alloc: Global, bytes: &[u8]) -> Result<StoredFile, AllocError>
        ensures { IfOk result (λ f. disk_file_of f ≡ synced_file bytes.now) }
    {
        Ok(StoredFile {
            bytes: Vec::from_slice(alloc, bytes)?,
            certain: all_certain(alloc, bytes)?,
            least: bytes.len(),
            greatest: bytes.len(),
        })
    }

    /// The file after a write.
    pub fn written(
        &self,
        alloc: Global,
        place: usize,
        piece: &[u8],
    ) -> Result<StoredFile, AllocError>
        requires { place ≤ vec_len self.now.bytes }
        ensures { IfOk result (λ f. disk_file_of f ≡ written_file place piece.now (disk_file_of self.now)) }
    {
        let bytes = overwritten(alloc, &self.bytes, place, piece)?;
        let certain = without_range(alloc, &self.certain, place, place + piece.len())?;
        let len = bytes.len();
        Ok(StoredFile {
            bytes,
            certain,
            least: self.least.min(len),
            greatest: self.greatest.max(len),
        })
    }

    /// The file after a cut.
    pub fn cut(&self, alloc: Global, len: usize) -> Result<StoredFile, AllocError>
        requires { len ≤ vec_len self.now.bytes }
        ensures { IfOk result (λ f. disk_file_of f ≡ cut_file len (disk_file_of self.now)) }
    {
        Ok(StoredFile {
            bytes: Vec::from_slice(alloc, &self.bytes[..len])?,
            certain: Vec::from_slice(alloc, &self.certain)?,
            least: self.least.min(len),
            greatest: self.greatest.max(len),
        })
    }

    /// The same file once more.
    pub fn duplicate(&self, alloc: Global) -> Result<StoredFile, AllocError>
        ensures { IfOk result (λ f. disk_file_of f ≡ disk_file_of self.now) }
    {
        Ok(StoredFile {
            bytes: Vec::from_slice(alloc, &self.bytes)?,
            certain: Vec::from_slice(alloc, &self.certain)?,
            least: self.least,
            greatest: self.greatest,
        })
    }
}

/// Bytes with others written over them at a place within them, or at their end.
fn overwritten(
    alloc: Global,
    bytes: &[u8],
    place: usize,
    piece: &[u8],
) -> Result<Vec<u8>, AllocError>
    requires { place ≤ length bytes.now }
    ensures { IfOk result (λ v. v.items ≡ overwritten bytes.now place piece.now) }
{
    let mut written = Vec::from_slice(alloc, &bytes[..place])?;
    written.extend_from_slice(piece)?;
    let end = bytes.len().min(place + piece.len());
    written.extend_from_slice(&bytes[end..])?;
    Ok(written)
}
