//! One block's files are scanned.

ghost use Rattle.std.specs.Prelude.{◌≡◌, IfOk, IfSome, filter};
ghost use Rattle.hd_base.specs.FileMaps.{AreNamesOf, OnlyOf};
ghost use Rattle.restart_scan.specs.Pairs.{is_temporary, not_temporary, temporary_part};
ghost use Rattle.restart_scan.specs.Reading.{ReadsBlock};
ghost use Rattle.restart_scan.specs.Settling.{ScansDrawer};

use crate::faults::ScanFault;
use crate::found::Scanned;
use crate::pairs::is_temporary;
use crate::reading::{ReadPair, read_pair};
use crate::settling::{remove_temporary, settle_pair};
use hd_base::{BlockId, FileName, Files};
use std::alloc::{AllocError, Global};

/// The names of a block's files: of those in tmp, and of the others.
#[derive(Drop)]
struct SplitNames {
    temporary: Vec<FileName>,
    others: Vec<FileName>,
}

/// The names of files in tmp apart from the others.
fn split(names: Vec<FileName>) -> Result<SplitNames, AllocError>
    ensures temporary { IfOk result (λ x. x.temporary.items ≡ filter is_temporary names.items) }
    ensures others { IfOk result (λ x. x.others.items ≡ not_temporary names.items) }
{
    let mut temporary = names.clone()?;
    temporary.retain(|name| is_temporary(name));
    let mut others = names;
    others.retain(|name| !is_temporary(name));
    Ok(SplitNames { temporary, others })
}

/// Removes a block's files in tmp, and settles its pair, if it has one.
fn settle<F: Files>(
    alloc: Global,
    drawer: &mut F,
    block: BlockId,
    temporary: &[FileName],
    found: Option<ReadPair>,
) -> Result<Scanned, ScanFault>
    requires only { OnlyOf block.0 (F.files drawer.old) }
    requires names { IfSome (F.files drawer.old) (λ m. AreNamesOf (temporary_part m) temporary.now) }
    requires read { IfSome (F.files drawer.old) (λ m. ReadsBlock block m found) }
    ensures { ScansDrawer F.Files block drawer.old drawer.new result }
{
    let Some(pair) = found else {
        remove_temporary(alloc, drawer, temporary)?;
        return Ok(Scanned {
            seen: None,
            is_moved: false,
        });
    };
    settle_pair(alloc, drawer, block, temporary, &pair)?;
    Ok(pair.found(block))
}

/// Scans a block's files: those in tmp are removed, and a pair is moved and cut to what is kept of it.
pub(crate) fn scan_drawer<F: Files>(
    alloc: Global,
    drawer: &mut F,
    block: BlockId,
) -> Result<Scanned, ScanFault>
    requires { OnlyOf block.0 (F.files drawer.old) }
    ensures { ScansDrawer F.Files block drawer.old drawer.new result }
{
    let names = split(drawer.names(alloc)?)?;
    let found = read_pair(alloc, drawer, block, &names.others)?;
    settle(alloc, drawer, block, &names.temporary, found)
}
