//! A shelf is scanned.

ghost use Rattle.std.specs.Prelude.{IfOk, OnErr};
ghost use Rattle.restart_scan.specs.Faults.{ScansFor};
ghost use Rattle.restart_scan.specs.Shelves.{WhereTold, StaysUntold, LendsNoMore, ScansShelf, StopsShelf};

use crate::faults::ScanFault;
use crate::found::Found;
use crate::shelves::{Listed, blocks_of, scan_blocks};
use crate::strays::strays_among;
use hd_base::Shelf;
use std::alloc::Global;

/// Finds what a shelf holds after a restart. All files of blocks in tmp are removed. A block that has just one data
/// file and one metadata file besides, and this with a good header, is a pair; all other files are strays, and are left.
///
/// A pair whose files both lie in finalized is moved to where folder layout -57 puts it. Where its sums are just those
/// of its bytes, it is FINALIZED. Every other pair is RWR under its stamp, and is moved to rbw and cut to the chunks
/// before the first whose sum is wrong or isn't stored, and to their sums.
///
/// After a fault a part of these calls was made. No block is lent that wasn't.
pub fn scan<S: Shelf>(alloc: Global, shelf: &mut S) -> Result<Found, ScanFault>
    ensures done { IfOk result (λ found.
        WhereTold (S.files shelf.old) (S.files shelf.new) (λ m n. ScansShelf m n found)) }
    ensures stopped { OnErr result (WhereTold (S.files shelf.old) (S.files shelf.new) StopsShelf) }
    ensures untold { StaysUntold (S.files shelf.old) (S.files shelf.new) }
    ensures lent { LendsNoMore (S.lent shelf.old) (S.lent shelf.new) }
    ensures cause { ScansFor (S.faults shelf.old) (S.faults shelf.new) result }
{
    let names = shelf.list(alloc)?;
    let blocks = blocks_of(alloc, &names)?;
    let Listed { replicas, moved } = scan_blocks(alloc, shelf, &blocks)?;
    let strays = strays_among(alloc, names, &replicas)?;
    Ok(Found {
        replicas,
        strays,
        moved,
    })
}
