//! The names of replica files.

ghost use Rattle.std.specs.Prelude.{◌≡◌, ◌+◌, ◌++◌, ◌/◌, ◌%◌, ◌^◌, ◌≤◌, true, Some, IfOk, Ok, length, codes, decimal};
ghost use Rattle.std.specs.Prelude.{option_map, option_and_then};
ghost use Rattle.hd_base.specs.Blocks.{base_of, number_at, is_of_block};
ghost use Rattle.hd_base.specs.Lists.{IsAsciiText};
ghost use Rattle.meta_file.specs.Names.{front_of, subfolders, path_of, data_base, meta_base, printed, IsNamed};
ghost use Rattle.meta_file.specs.Names.{in_present_layout, as_read, in_older_layout};
ghost use Rattle.meta_file.specs.Names.{folder_of, stamp_of, named_by, named_in, candidate_of};

use hd_base::{BlockId, FileName, Stamp, base, least_decimal};
use itoa::Buffer;
use thiserror::Error;

/// The folders of replica files.
#[derive(Clone, Copy, Debug, PartialEq, Eq)]
pub enum Folder {
    /// Replicas being written, and those that wait for recovery.
    Rbw,
    /// Finalized replicas, in the subfolders of folder layout -57.
    Finalized,
    /// Finalized replicas, in the subfolders of folder layout -56.
    Finalized56,
    /// Temporary replicas.
    Tmp,
}

/// What a replica file's name says.
#[derive(Clone, Copy, Debug, PartialEq, Eq)]
pub enum Named {
    /// A data file.
    Body {
        block: BlockId,
        folder: Folder,
    },
    /// A metadata file.
    Sums {
        block: BlockId,
        stamp: Stamp,
        folder: Folder,
    },
}

/// Why a name isn't a replica file's.
#[derive(Clone, Copy, Debug, PartialEq, Eq, Error)]
pub enum NameFault {
    /// No block, stamp and folder print to it.
    #[error("not the name of a replica file")]
    Name,
}

/// The name of a block's data file in a folder.
pub fn data_name(block: BlockId, folder: Folder) -> FileName
    ensures name { result ≡ path_of folder block.0 ++ data_base block.0 }
    ensures block { is_of_block block.0 result ≡ true }
{
    let mut name = path(block, folder);
    push_block(&mut name, block);
    name
}

/// The name of a block's metadata file under a stamp in a folder.
pub fn meta_name(block: BlockId, stamp: Stamp, folder: Folder) -> FileName
    ensures name { result ≡ path_of folder block.0 ++ meta_base block.0 stamp.0 }
    ensures block { is_of_block block.0 result ≡ true }
{
    let mut name = path(block, folder);
    push_sums(&mut name, block, stamp);
    name
}

/// Reads a name. Where the folders of both layouts print to it, the answer is `Finalized`. `Name`
/// comes exactly where no block, stamp and folder print to it.
pub fn read_name(name: &FileName) -> Result<Named, NameFault>
    ensures found { IfOk result (λ named. printed named ≡ name.now) }
    ensures only { (named : Named) → IsNamed named → printed named ≡ name.now → result ≡ Ok (as_read named) }
{
    let Some(named) = candidate(name.as_slice()) else {
        return Err(NameFault::Name);
    };
    if print(&named) == *name {
        return Ok(named);
    }
    let older = older(named);
    if print(&older) == *name {
        return Ok(older);
    }
    Err(NameFault::Name)
}

/// The same in the folder of layout -56, where it is in that of layout -57.
fn older(named: Named) -> Named
    ensures { result ≡ in_older_layout named }
{
    let folder = Folder::Finalized56;
    match named {
        Named::Body {
            block,
            folder: Folder::Finalized,
        } => Named::Body { block, folder },
        Named::Sums {
            block,
            stamp,
            folder: Folder::Finalized,
        } => Named::Sums {
            block,
            stamp,
            folder,
        },
        _ => named,
    }
}

/// The name that a block, a folder and perhaps a stamp print to.
fn print(named: &Named) -> FileName
    ensures { result ≡ printed named.now }
{
    match named {
        Named::Body { block, folder } => data_name(*block, *folder),
        Named::Sums {
            block,
            stamp,
            folder,
        } => meta_name(*block, *stamp, *folder),
    }
}

/// The path of a block's files in a folder, with its last slash.
fn path(block: BlockId, folder: Folder) -> FileName
    ensures path { result ≡ path_of folder block.0 }
    ensures room { length result ≤ 100 }
{
    let mut name = FileName::empty();
    name.push(front(folder));
    match folder {
        Folder::Finalized => push_subfolders(&mut name, block, SUBFOLDERS),
        Folder::Finalized56 => push_subfolders(&mut name, block, SUBFOLDERS_56),
        Folder::Rbw | Folder::Tmp => {}
    }
    name
}

/// How many subfolders a folder has in layout -57.
const SUBFOLDERS: u64 = 32;

/// How many subfolders a folder has in layout -56.
const SUBFOLDERS_56: u64 = 256;

/// Puts the subfolders of a finalized replica behind the front of its path: the bits of the block's
/// number from the sixteenth on and those from the eighth on, by the count of subfolders.
fn push_subfolders(name: &mut FileName, block: BlockId, count: u64)
    requires short { length name.old ≤ 50 }
    requires some { 1 ≤ count }
    ensures text { name.new ≡ name.old ++ subfolders count block.0 }
    ensures room { length name.new ≤ 98 }
{
    push_number(name, (block.0 >> 16) % count);
    name.push(b"/subdir");
    push_number(name, (block.0 >> 8) % count);
    name.push(b"/");
}

/// How the names of a folder begin.
fn front(folder: Folder) -> &'static [u8]
    ensures front { result.now ≡ front_of folder }
    ensures text { IsAsciiText result.now }
    ensures few { length result.now ≤ 50 }
{
    match folder {
        Folder::Rbw => b"current/BP-1-127.0.0.1-1/current/rbw/",
        Folder::Finalized | Folder::Finalized56 => {
            b"current/BP-1-127.0.0.1-1/current/finalized/subdir"
        }
        Folder::Tmp => b"current/BP-1-127.0.0.1-1/tmp/",
    }
}

/// Puts a data file's name within its folder behind a path.
fn push_block(name: &mut FileName, block: BlockId)
    requires { length name.old ≤ 100 }
    ensures text { name.new ≡ name.old ++ data_base block.0 }
    ensures room { length name.new ≤ 124 }
{
    name.push(b"blk_");
    push_number(name, block.0);
}

/// Puts a metadata file's name within its folder behind a path.
fn push_sums(name: &mut FileName, block: BlockId, stamp: Stamp)
    requires { length name.old ≤ 100 }
    ensures { name.new ≡ name.old ++ meta_base block.0 stamp.0 }
{
    push_block(name, block);
    name.push(b"_");
    push_number(name, stamp.0);
    name.push(b".meta");
}

/// Puts a number in least decimal behind a name.
fn push_number(name: &mut FileName, number: u64)
    requires { length name.old ≤ 200 }
    ensures text { name.new ≡ name.old ++ decimal number }
    ensures room { length name.new ≤ length name.old + 20 }
{
    name.push(Buffer::new().format(number).as_bytes());
}

/// What a name says in the folders of layout -57, if any replica file's name is like it.
fn candidate(name: &[u8]) -> Option<Named>
    ensures { (named : Named) → IsNamed named → printed named ≡ name.now → result ≡ Some (in_present_layout named) }
{
    named_by_parts(name)
}

/// What a name's folder and its last part say.
#[tactic(auto, unfolding(crate::specs::Names::candidate_of))]
fn named_by_parts(name: &[u8]) -> Option<Named>
    ensures { result ≡ candidate_of name.now }
{
    let folder = folder_at(name)?;
    named_at(folder, base(name))
}

/// The folder that a name begins with, of those of layout -57.
#[tactic(auto, unfolding(crate::specs::Names::folder_of))]
fn folder_at(name: &[u8]) -> Option<Folder>
    ensures { result ≡ folder_of name.now }
{
    if name.starts_with(front(Folder::Rbw)) {
        Some(Folder::Rbw)
    } else if name.starts_with(front(Folder::Finalized)) {
        Some(Folder::Finalized)
    } else if name.starts_with(front(Folder::Tmp)) {
        Some(Folder::Tmp)
    } else {
        None
    }
}

/// What the last part of a path says, in a folder.
#[tactic(auto, unfolding(crate::specs::Names::named_in))]
fn named_at(folder: Folder, base: &[u8]) -> Option<Named>
    ensures { result ≡ named_in folder base.now }
{
    let (block, rest) = least_decimal(base.strip_prefix(b"blk_")?)?;
    named_by_rest(folder, block, rest)
}

/// What a block's number and the rest of a name say, in a folder.
fn named_by_rest(folder: Folder, block: u64, rest: &[u8]) -> Option<Named>
    ensures { result ≡ named_by folder block rest.now }
{
    let block = BlockId(block);
    match rest {
        [] => Some(Named::Body { block, folder }),
        [b'_', rest @ ..] => sums_at(folder, block, rest),
        _ => None,
    }
}

/// A metadata file of a block, where the rest of its name follows the underscore.
fn sums_at(folder: Folder, block: BlockId, rest: &[u8]) -> Option<Named>
    ensures { result ≡ option_map
        (λ stamp. Named.Sums block (record { 0 = stamp }) folder) (stamp_of (number_at rest.now)) }
{
    stamp_at(rest).map(|stamp| Named::Sums {
        block,
        stamp: Stamp(stamp),
        folder,
    })
}

/// A metadata file's stamp, where the end of its name follows.
fn stamp_at(text: &[u8]) -> Option<u64>
    ensures { result ≡ stamp_of (number_at text.now) }
{
    let (stamp, rest) = least_decimal(text)?;
    if rest == b".meta".as_slice() {
        Some(stamp)
    } else {
        None
    }
}
