//! Paths of files in a folder.

ghost use Rattle.std.specs.Prelude.{◌≡◌};

use hd_base::{FileName, MAX_NAME_LENGTH};
use std::alloc::{AllocError, Global};
use std::str;

/// The path of a file in a folder, in a buffer that has room for every name: the folder's own path, then the file's.
#[derive(Drop)]
pub(crate) struct FilePath {
    bytes: Vec<u8>,
    /// How many bytes the folder's path has, with the slash behind it.
    folder: usize,
}

impl FilePath {
    /// A path in this folder, of no file yet.
    pub(crate) fn new(alloc: Global, folder: &str) -> Result<FilePath, AllocError> {
        let mut bytes = Vec::new(alloc);
        bytes.extend_from_slice(folder.as_bytes())?;
        bytes.push(b'/')?;
        let folder = bytes.len();
        bytes.reserve(MAX_NAME_LENGTH)?;
        Ok(FilePath { bytes, folder })
    }

    /// Makes it the path of this file. The buffer has room for it.
    pub(crate) fn set(&mut self, name: &FileName) -> Result<(), AllocError> {
        self.bytes.truncate(self.folder);
        self.bytes.extend_from_slice(name.as_slice())
    }

    /// The path as text. The folder's path is text and so is every name, so that it always is.
    pub(crate) fn text(&self) -> &str {
        str::from_utf8(&self.bytes).unwrap_or("")
    }
}

/// The folder of a path.
pub(crate) fn parent(path: &str) -> &str {
    match path.rsplit_once('/') {
        Some((folder, _)) => folder,
        None => ".",
    }
}
