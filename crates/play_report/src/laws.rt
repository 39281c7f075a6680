//! What a report leaves of the nodes, and what its sums are.

ghost use Rattle.play_report.specs.Laws.{StillShow, StillFit, ReportsAreTrue};

use hd_base::{Files, LinkIn, LinkOut};

/// Nodes that show a world still show it after a report, and their books are still of the blocks at their places.
pub fn reports_keep_nodes<F: Files, I: LinkIn, O: LinkOut>()
    ensures show { StillShow F I O F.Files I.LinkIn O.LinkOut }
    ensures fit { StillFit F I O F.Files }
{}

/// A report of nodes whose files are observable has the CRC32C of the bytes of each replica at a node that runs.
pub fn reports_are_true<F: Files, I: LinkIn, O: LinkOut>()
    ensures { ReportsAreTrue F I O F.Files I.LinkIn O.LinkOut }
{}
