//! The connection to a member.

ghost use Rattle.std.specs.Prelude.{◌≡◌, Some};
ghost use Rattle.block_recovery.specs.Dialling.{is_open, is_lost};
ghost use Rattle.block_recovery.specs.Links.{LooksAt, Receives, SendsOn};

use crate::hearing::{Looked, TakenAnswer, ends_with, looked_of};
use hd_base::{Conn, LinkIn, LinkOut};
use link_messages::Incoming;
use link_pieces::{send_piece, take_room};
use recovery_core::Heard;
use std::alloc::{AllocError, Global};

/// The upper end of the connection to a member, and what came on it.
#[derive(Drop)]
pub struct Link<I, O> {
    pub(crate) end: Conn<I, O>,
    pub(crate) incoming: Incoming,
    /// Whether the roads were asked to give what stands next: a look doesn't wait there.
    pub(crate) asked: bool,
    /// Whether the link failed when something was sent: the connection has ended.
    pub(crate) failed: bool,
    /// Whether its end was taken, or what can't be read: nothing more is heard.
    pub(crate) over: bool,
}

/// What a primary has of the connection to a member.
#[derive(Drop)]
pub enum Seat<I, O> {
    /// Nothing: the member wasn't dialled or didn't answer, or the end is back.
    Empty,
    /// Its upper end.
    Open(Link<I, O>),
    /// Nothing: there was no memory to bring the end back, and it is lost.
    Lost,
}

impl<I: Drop, O: Drop> Seat<I, O> {
    /// Whether there is a connection.
    pub(crate) fn is_open(&self) -> bool
        ensures { result ≡ is_open self.now }
    {
        match self {
            Seat::Open(_) => true,
            Seat::Empty | Seat::Lost => false,
        }
    }

    /// Whether its end is lost.
    pub(crate) fn is_lost(&self) -> bool
        ensures { result ≡ is_lost (Some self.now) }
    {
        match self {
            Seat::Lost => true,
            Seat::Empty | Seat::Open(_) => false,
        }
    }
}

impl<I: LinkIn, O: Drop> Link<I, O> {
    /// Looks at what stands next, and takes it.
    pub(crate) fn look(&mut self) -> Looked
        ensures looks { LooksAt I.LinkIn self.old self.new result }
        ensures same { self.new.end.id ≡ self.old.end.id }
    {
        if self.over {
            return Looked::Nothing;
        }
        if self.failed {
            self.over = true;
            return Looked::Heard(Heard::End);
        }
        self.receive()
    }

    /// Receives what stands next.
    fn receive(&mut self) -> Looked
        ensures receives { Receives I.LinkIn self.old self.new result }
        ensures same { self.new.end.id ≡ self.old.end.id }
    {
        let came = self.incoming.next::<TakenAnswer, I>(&mut self.end.inward);
        self.over = ends_with(&came);
        looked_of(came)
    }
}

impl<I: Drop, O: LinkOut> Link<I, O> {
    /// Sends this text. Where the link fails the connection has ended.
    pub(crate) fn send(&mut self, alloc: Global, text: &[u8]) -> Result<(), AllocError>
        ensures sends { SendsOn O.LinkOut text.now self.old self.new result }
        ensures same { self.new.end.id ≡ self.old.end.id }
    {
        take_room(alloc, &mut self.end.outward, text.len())?;
        if send_piece(&mut self.end.outward, text).is_err() {
            self.failed = true;
        }
        Ok(())
    }
}
