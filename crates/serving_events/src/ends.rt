//! A node that serves a read takes what stands next from the reader: its status, or the end.

ghost use Rattle.hd_base.specs.Ends.{IsKnown};
ghost use Rattle.member_events.specs.Roads.{RoadsPass};
ghost use Rattle.serving_events.specs.Ends.{EndShows};

use crate::faults::ServeFault;
use crate::steps::{ServedRead, closed, exchanged};
use hd_base::{LinkIn, LinkOut, Roads};
use std::alloc::Global;

/// The end of a read that is served takes what stands next, whatever that is, and is shut and brought back.
pub fn serve_down<I: LinkIn, O: LinkOut, R: Roads<Inward = I, Outward = O>>(
    alloc: Global,
    roads: &mut R,
    read: ServedRead<I, O>,
) -> Result<(), ServeFault>
    requires { IsKnown (R.plain roads.old) read.end.id.0 }
    ensures shows { EndShows R.Roads I.LinkIn O.LinkOut read roads.old roads.new result }
    ensures pass { RoadsPass R.Roads roads.old roads.new }
{
    let conn = read.end.id;
    let end = exchanged(alloc, roads, read.end, Some(conn))?;
    closed(alloc, roads, end)
}
