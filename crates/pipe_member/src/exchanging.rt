//! A member's two ends and the roads.

ghost use Rattle.std.specs.Prelude.{◌≡◌, IfSome, Ok};
ghost use Rattle.hd_base.specs.Ends.{IsKnown};
ghost use Rattle.pipe_member.specs.Exchanges.{
  AreKnown,
  ExchangesMirror,
  ExchangesBoth,
  BringsMirror,
  BringsBoth,
};

use crate::member::Member;
use hd_base::{Conn, ConnId, LinkIn, LinkOut, RoadError, Roads};
use link_pieces::exchange_end;
use std::alloc::Global;

impl<I: LinkIn, O: LinkOut> Member<I, O> {
    /// Exchanges both ends with the roads that gave them, with `take` for the one of this connection.
    pub fn exchange<R: Roads<Inward = I, Outward = O>>(
        &mut self,
        alloc: Global,
        roads: &mut R,
        take: Option<ConnId>,
    ) -> Result<(), RoadError>
        requires { AreKnown (R.plain roads.old) self.old }
        ensures { ExchangesBoth R.Roads I.LinkIn O.LinkOut take self.old self.new roads.old roads.new result }
    {
        exchange_end(alloc, roads, &mut self.upstream, take)?;
        exchange_mirror(alloc, roads, &mut self.mirror, take)
    }

    /// Brings both ends back to the roads that gave them.
    pub fn retire<R: Roads<Inward = I, Outward = O>>(
        self,
        alloc: Global,
        roads: &mut R,
    ) -> Result<(), RoadError>
        requires { AreKnown (R.plain roads.old) self }
        ensures { BringsBoth R.Roads I.LinkIn O.LinkOut self roads.old roads.new result }
    {
        roads.bring(alloc, self.upstream)?;
        bring_mirror(alloc, roads, self.mirror)
    }
}

/// Exchanges the end to the mirror, if there is one.
fn exchange_mirror<R: Roads>(
    alloc: Global,
    roads: &mut R,
    mirror: &mut Option<Conn<R::Inward, R::Outward>>,
    take: Option<ConnId>,
) -> Result<(), RoadError>
    requires { IfSome mirror.old (λ end. IsKnown (R.plain roads.old) end.id.0) }
    ensures { ExchangesMirror R.Roads R.Inward.LinkIn R.Outward.LinkOut take
        mirror.old mirror.new roads.old roads.new (Ok tt) result }
{
    let Some(end) = mirror else {
        return Ok(());
    };
    exchange_end(alloc, roads, end, take)
}

/// Brings the end to the mirror back, if there is one.
fn bring_mirror<R: Roads>(
    alloc: Global,
    roads: &mut R,
    mirror: Option<Conn<R::Inward, R::Outward>>,
) -> Result<(), RoadError>
    requires { IfSome mirror (λ end. IsKnown (R.plain roads.old) end.id.0) }
    ensures { BringsMirror R.Roads R.Inward.LinkIn R.Outward.LinkOut mirror roads.old roads.new (Ok tt) result }
{
    let Some(end) = mirror else {
        return Ok(());
    };
    roads.bring(alloc, end)
}
