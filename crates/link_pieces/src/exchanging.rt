//! Exchanging an end.

ghost use Rattle.std.specs.Prelude.{◌≡◌};
ghost use Rattle.hd_base.specs.Ends.{IsKnown};
ghost use Rattle.link_pieces.specs.Roads.{names, ExchangesEnd};

use hd_base::{Conn, ConnId, RoadError, Roads};
use std::alloc::Global;

/// Exchanges an end with the roads that gave it; it takes where it is named.
pub fn exchange_end<R: Roads>(
    alloc: Global,
    roads: &mut R,
    end: &mut Conn<R::Inward, R::Outward>,
    take: Option<ConnId>,
) -> Result<(), RoadError>
    requires { IsKnown (R.plain roads.old) end.old.id.0 }
    ensures { ExchangesEnd R.Roads R.Inward.LinkIn R.Outward.LinkOut (names take end.old.id)
        end.old end.new roads.old roads.new result }
{
    let takes = names(take, end.id);
    roads.exchange(alloc, end, takes)
}

/// Whether this names the connection.
fn names(take: Option<ConnId>, conn: ConnId) -> bool
    ensures { result ≡ names take conn }
{
    match take {
        Some(named) => named.0 == conn.0,
        None => false,
    }
}
