//! The connections that a primary has, and whether one of their links has failed.

ghost use Rattle.std.specs.List.{list_any};
ghost use Rattle.std.specs.Prelude.{◌≡◌, IfOk, map};
ghost use Rattle.block_recovery.specs.Dialling.{conn_of};
ghost use Rattle.block_recovery.specs.Failing.{link_failed};

use crate::links::Seat;
use crate::primary::Primary;
use hd_base::{ConnId, LinkIn, LinkOut};
use std::alloc::{AllocError, Global};

impl<I: LinkIn, O: LinkOut> Primary<I, O> {
    /// The connection to each member that there is, in the members' order.
    pub fn conns(&self, alloc: Global) -> Result<Vec<Option<ConnId>>, AllocError>
        ensures { IfOk result (λ conns. conns.items ≡ map conn_of self.now.links.items) }
    {
        self.links.iter().map(|seat| conn_of(seat)).collect(alloc)
    }

    /// Whether the link to some member failed when something was sent.
    pub fn has_failed_any(&self) -> bool
        ensures { result ≡ list_any link_failed self.now.links.items }
    {
        self.links.iter().any(|seat| link_failed(seat))
    }
}

/// The connection, if there is one.
fn conn_of<I: Drop, O: Drop>(seat: &Seat<I, O>) -> Option<ConnId>
    ensures { result ≡ conn_of seat.now }
{
    match seat {
        Seat::Open(link) => Some(link.end.id),
        Seat::Empty | Seat::Lost => None,
    }
}

/// Whether the link of a connection, if there is one, failed when something was sent.
fn link_failed<I: Drop, O: Drop>(seat: &Seat<I, O>) -> bool
    ensures { result ≡ link_failed seat.now }
{
    match seat {
        Seat::Open(link) => link.failed,
        Seat::Empty | Seat::Lost => false,
    }
}
