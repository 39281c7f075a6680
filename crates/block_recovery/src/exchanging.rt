//! The connections of a primary and the roads.

ghost use Rattle.std.specs.Prelude.{◌≡◌, length, All, IfErr, OnErr, OnOk};
ghost use Rattle.hd_base.specs.declared.ends.RoadError.TheVariants as RoadError;
ghost use Rattle.block_recovery.specs.declared.links.Seat.TheVariants as Seat;
ghost use Rattle.link_pieces.specs.Roads.{names};
ghost use Rattle.block_recovery.specs.Dialling.{LinkIsKnown, KeepsKnown};
ghost use Rattle.block_recovery.specs.Exchanging.{
  Exchanges,
  ExchangesLink,
  ExchangesAll,
  BringsLink,
  BringsAll,
  AllAreBack,
  OthersAreBack,
};

use crate::actions::bring_back;
use crate::links::{Link, Seat};
use crate::primary::Primary;
use hd_base::{ConnId, LinkIn, LinkOut, RoadError, Roads};
use link_pieces::exchange_end;
use std::alloc::Global;
use std::mem;

impl<I: LinkIn, O: LinkOut> Primary<I, O> {
    /// Exchanges the connections, in the members' order, with the roads that gave them, with `take` the one that is
    /// named.
    pub fn exchange<R: Roads<Inward = I, Outward = O>>(
        &mut self,
        alloc: Global,
        roads: &mut R,
        take: Option<ConnId>,
    ) -> Result<(), RoadError>
        requires { All (LinkIsKnown (R.plain roads.old)) self.old.links.items }
        ensures exchanges { ExchangesAll R.Roads I.LinkIn O.LinkOut take self.old.links.items self.new.links.items
            roads.old roads.new result }
        ensures same { (self.new.block ≡ self.old.block) × (self.new.members ≡ self.old.members)
            × (self.new.core ≡ self.old.core) }
        ensures count { length self.new.links.items ≡ length self.old.links.items }
        ensures known { All (LinkIsKnown (R.plain roads.new)) self.new.links.items }
    {
        exchange_all(alloc, self.links.as_mut_slice(), roads, take)
    }

    /// Brings the connections back to the roads that gave them, and holds none then. For which of them there was no
    /// memory, `has_lost` says.
    pub fn bring_back<R: Roads<Inward = I, Outward = O>>(&mut self, alloc: Global, roads: &mut R)
        requires { All (LinkIsKnown (R.plain roads.old)) self.old.links.items }
        ensures brings { BringsAll R.Roads I.LinkIn O.LinkOut self.old.links.items self.new.links.items
            roads.old roads.new }
        ensures same { (self.new.block ≡ self.old.block) × (self.new.members ≡ self.old.members)
            × (self.new.core ≡ self.old.core) }
        ensures count { length self.new.links.items ≡ length self.old.links.items }
        ensures known { All (LinkIsKnown (R.plain roads.new)) self.new.links.items }
    {
        bring_all(alloc, self.links.as_mut_slice(), roads);
    }

    /// Brings the connections back to the roads that gave them, and gives the primary up. Its only error is `Memory`,
    /// exactly where an end is lost: the roads had no memory to take it back, here or before. The others are back then.
    pub fn retire<R: Roads<Inward = I, Outward = O>>(
        self,
        alloc: Global,
        roads: &mut R,
    ) -> Result<(), RoadError>
        requires { All (LinkIsKnown (R.plain roads.old)) self.links.items }
        ensures brings { OnOk result (AllAreBack R.Roads I.LinkIn O.LinkOut self.links.items roads.old roads.new) }
        ensures loses { OnErr result (OthersAreBack R.Roads I.LinkIn O.LinkOut self.links.items roads.old roads.new) }
        ensures cause { IfErr result (λ error. error ≡ RoadError.Memory) }
    {
        let mut primary = self;
        primary.bring_back(alloc, roads);
        if primary.has_lost_any() {
            return Err(RoadError::Memory);
        }
        Ok(())
    }
}

/// Exchanges the connections in order.
fn exchange_all<R: Roads>(
    alloc: Global,
    links: &mut [Seat<R::Inward, R::Outward>],
    roads: &mut R,
    take: Option<ConnId>,
) -> Result<(), RoadError>
    requires { All (LinkIsKnown (R.plain roads.old)) links.old }
    ensures exchanges { ExchangesAll R.Roads R.Inward.LinkIn R.Outward.LinkOut take links.old links.new
        roads.old roads.new result }
    ensures count { length links.new ≡ length links.old }
    ensures known { All (LinkIsKnown (R.plain roads.new)) links.new }
{
    for place in 0..links.len() {
        if let Err(error) = exchange_link(alloc, &mut links[place], roads, take) {
            return Err(error);
        }
    }
    Ok(())
}

/// Exchanges a connection, if there is one.
fn exchange_link<R: Roads>(
    alloc: Global,
    link: &mut Seat<R::Inward, R::Outward>,
    roads: &mut R,
    take: Option<ConnId>,
) -> Result<(), RoadError>
    requires { LinkIsKnown (R.plain roads.old) link.old }
    ensures exchanges { ExchangesLink R.Roads R.Inward.LinkIn R.Outward.LinkOut take link.old link.new
        roads.old roads.new result }
    ensures known { LinkIsKnown (R.plain roads.new) link.new }
    ensures kept { KeepsKnown (R.plain roads.old) (R.plain roads.new) }
{
    match link {
        Seat::Open(link) => exchange_on(alloc, link, roads, take),
        Seat::Empty | Seat::Lost => Ok(()),
    }
}

/// Exchanges a connection. Whoever asks the roads to give what stands next knows that a look doesn't wait.
fn exchange_on<R: Roads>(
    alloc: Global,
    link: &mut Link<R::Inward, R::Outward>,
    roads: &mut R,
    take: Option<ConnId>,
) -> Result<(), RoadError>
    requires { LinkIsKnown (R.plain roads.old) (Seat.Open link.old) }
    ensures exchanges { Exchanges R.Roads R.Inward.LinkIn R.Outward.LinkOut take link.old link.new
        roads.old roads.new result }
    ensures known { LinkIsKnown (R.plain roads.new) (Seat.Open link.new) }
    ensures kept { KeepsKnown (R.plain roads.old) (R.plain roads.new) }
{
    if is_named(take, link.end.id) {
        link.asked = true;
    }
    exchange_end(alloc, roads, &mut link.end, take)
}

/// Whether this names the connection.
fn is_named(take: Option<ConnId>, conn: ConnId) -> bool
    ensures { result ≡ names take conn }
{
    match take {
        Some(named) => named.0 == conn.0,
        None => false,
    }
}

/// Brings the connections back in order.
fn bring_all<R: Roads>(alloc: Global, links: &mut [Seat<R::Inward, R::Outward>], roads: &mut R)
    requires { All (LinkIsKnown (R.plain roads.old)) links.old }
    ensures brings { BringsAll R.Roads R.Inward.LinkIn R.Outward.LinkOut links.old links.new roads.old roads.new }
    ensures count { length links.new ≡ length links.old }
    ensures known { All (LinkIsKnown (R.plain roads.new)) links.new }
{
    for place in 0..links.len() {
        bring_link(alloc, &mut links[place], roads);
    }
}

/// Brings a connection back, if there is one.
fn bring_link<R: Roads>(alloc: Global, link: &mut Seat<R::Inward, R::Outward>, roads: &mut R)
    requires { LinkIsKnown (R.plain roads.old) link.old }
    ensures brings { BringsLink R.Roads R.Inward.LinkIn R.Outward.LinkOut link.old link.new roads.old roads.new }
    ensures known { LinkIsKnown (R.plain roads.new) link.new }
    ensures kept { KeepsKnown (R.plain roads.old) (R.plain roads.new) }
{
    *link = match mem::replace(link, Seat::Empty) {
        Seat::Open(link) => bring_back(alloc, roads, link.end),
        Seat::Lost => Seat::Lost,
        Seat::Empty => Seat::Empty,
    };
}
