//! The files below a folder.

use hd_base::FileName;
use std::alloc::{AllocError, Global};
use std::fs::{self, Files};
use std::io::{self, ErrorKind};

/// The names of all files below a folder, in ascending order, each by its path from there. A folder that isn't there has
/// none. What is neither a file nor a folder is left out, and so is a file whose path is none of a `FileName`.
pub(crate) fn files_below<R: Files + AllocGlobal + Clone + Drop>(
    alloc: Global,
    rt: &R,
    folder: &str,
) -> io::Result<Vec<FileName>> {
    let mut names = Vec::new(alloc);
    let mut folders = Vec::new(alloc);
    folders.push(String::new(alloc))?;
    for _ in 0..u64::MAX {
        let Some(below) = folders.pop() else {
            break;
        };
        look_into(alloc, rt, folder, below.as_str(), &mut folders, &mut names)?;
    }
    names.sort()?;
    Ok(names)
}

/// Puts the files and the folders that stand in one folder below the top one behind those that were found before.
fn look_into<R: Files + AllocGlobal + Clone + Drop>(
    alloc: Global,
    rt: &R,
    top: &str,
    below: &str,
    folders: &mut Vec<String>,
    names: &mut Vec<FileName>,
) -> io::Result<()> {
    let path = joined(alloc, top, below)?;
    let entries = match fs::read_dir(rt, path.as_str()) {
        Ok(entries) => entries,
        Err(error) if error.kind() == ErrorKind::NotFound => return Ok(()),
        Err(error) => return Err(error),
    };
    for entry in entries {
        let entry = entry?;
        let path = joined(alloc, below, entry.file_name())?;
        let kind = entry.file_type()?;
        if kind.is_dir() {
            folders.push(path)?;
        } else if kind.is_file() {
            push_name(names, path.as_str())?;
        }
    }
    Ok(())
}

/// Puts the name of a file behind the others.
fn push_name(names: &mut Vec<FileName>, path: &str) -> Result<(), AllocError> {
    if let Some(name) = FileName::new(path.as_bytes()) {
        names.push(name)?;
    }
    Ok(())
}

/// A path with a slash and a name behind it; the name alone, where the path is empty.
fn joined(alloc: Global, path: &str, name: &str) -> Result<String, AllocError> {
    let mut text = String::from_str(alloc, path)?;
    if !path.is_empty() && !name.is_empty() {
        text.push('/')?;
    }
    text.push_str(name)?;
    Ok(text)
}
