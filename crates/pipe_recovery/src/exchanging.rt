//! The connection of a setup and the roads.

ghost use Rattle.hd_base.specs.Ends.{IsKnown};
ghost use Rattle.pipe_recovery.specs.Dialling.{LinkIsKnown};
ghost use Rattle.pipe_recovery.specs.Exchanging.{Exchanges, ExchangesLink, BringsLink};

use crate::links::Link;
use crate::rebuilding::Rebuild;
use hd_base::{ConnId, LinkIn, LinkOut, RoadError, Roads};
use link_pieces::exchange_end;
use std::alloc::Global;

impl<I: LinkIn, O: LinkOut> Rebuild<I, O> {
    /// Exchanges the writer's connection, if there is one, with the roads that gave it, with `take` where it is named.
    pub fn exchange<R: Roads<Inward = I, Outward = O>>(
        &mut self,
        alloc: Global,
        roads: &mut R,
        take: Option<ConnId>,
    ) -> Result<(), RoadError>
        requires { LinkIsKnown (R.plain roads.old) self.old.link }
        ensures { ExchangesLink R.Roads I.LinkIn O.LinkOut take self.old.link self.new.link roads.old roads.new result }
    {
        match &mut self.link {
            Some(link) => exchange_link(alloc, roads, link, take),
            None => Ok(()),
        }
    }

    /// Brings the writer's connection, if there is one, back to the roads that gave it.
    pub fn retire<R: Roads<Inward = I, Outward = O>>(
        self,
        alloc: Global,
        roads: &mut R,
    ) -> Result<(), RoadError>
        requires { LinkIsKnown (R.plain roads.old) self.link }
        ensures { BringsLink R.Roads I.LinkIn O.LinkOut self.link roads.old roads.new result }
    {
        match self.link {
            Some(link) => roads.bring(alloc, link.end),
            None => Ok(()),
        }
    }
}

/// Exchanges the end of a link. Whoever asks the roads to give what stands next knows that a look doesn't wait.
fn exchange_link<R: Roads>(
    alloc: Global,
    roads: &mut R,
    link: &mut Link<R::Inward, R::Outward>,
    take: Option<ConnId>,
) -> Result<(), RoadError>
    requires { IsKnown (R.plain roads.old) link.old.end.id.0 }
    ensures { Exchanges R.Roads R.Inward.LinkIn R.Outward.LinkOut take link.old link.new roads.old roads.new result }
{
    if take.is_some() {
        link.asked = true;
    }
    exchange_end(alloc, roads, &mut link.end, take)
}
