//! Giving up an end.

ghost use Rattle.hd_base.specs.Ends.{IsKnown};
ghost use Rattle.link_pieces.specs.Roads.{GivesUp};

use hd_base::{Conn, LinkOut, Roads};
use std::alloc::Global;

/// Gives up an end: shuts it, and brings it back to the roads that gave it. Where that finds no memory, the end is lost.
pub fn give_up<R: Roads>(alloc: Global, roads: &mut R, end: Conn<R::Inward, R::Outward>)
    requires { IsKnown (R.plain roads.old) end.id.0 }
    ensures { GivesUp R.Roads R.Inward.LinkIn R.Outward.LinkOut end roads.old roads.new }
{
    let mut end = end;
    end.outward.shut();
    let _ = roads.bring(alloc, end);
}
