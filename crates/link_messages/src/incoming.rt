//! Messages from a link.

ghost use Rattle.std.specs.Prelude.{◌≡◌, [], IfOk, OnOk, OnErr};
ghost use Rattle.link_messages.specs.Incomings.{nothing_received, pushed, next_of, NextEnds, AsksEnds, ReceiveEnds};

use crate::streamed::Streamed;
use frame_feed::{Feed, FeedFault};
use hd_base::{Got, LinkIn};
use std::alloc::{AllocError, Global};
use std::marker::Model;

/// How many bytes one receipt asks for at most.
const PIECE: usize = 16_384;

/// What comes next on a connection.
#[derive(Debug, Drop)]
pub enum Next<M> {
    /// This message.
    Message(M),
    /// What is no message of the kind, and so nothing more can be read.
    Unreadable,
    /// The end of the connection, which may cut a message off.
    End,
    /// Nothing yet.
    NotYet,
    /// The link failed, and its count of faults rose.
    Failed,
    /// Memory ran out. What was received is kept, and comes next time.
    Memory,
}

/// What was received.
#[derive(Clone, Copy, Debug, PartialEq, Eq)]
pub(crate) enum Received {
    Bytes,
    End,
    NotYet,
    Failed,
    Memory,
}

/// What was received of a connection and not yet taken as messages.
#[derive(Drop)]
pub struct Incoming {
    feed: Feed,
    /// Room for a receipt.
    piece: Vec<u8>,
    /// How many of its bytes were received and have not reached the feed.
    count: usize,
}

impl Model for Incoming {
    ghost use Rattle.std.specs.Prelude.{◌<◌, ◌≤◌, length, take};
    ghost use Rattle.link_messages.specs.Incomings.{IncomingState};

    ghost Value = { IncomingState };

    ghost view = { λ c. record {
      rest = c.feed.rest;
      unpushed = take c.count c.piece.items;
      refused = c.feed.refused;
    } };

    ghost invariant = { λ c. (0 < length c.piece.items) × (c.count ≤ length c.piece.items) };
}

impl Incoming {
    /// Nothing received so far.
    pub fn new(alloc: Global) -> Result<Incoming, AllocError>
        ensures { IfOk result (λ incoming. incoming ≡ nothing_received) }
    {
        Ok(Incoming {
            feed: Feed::new(alloc)?,
            piece: vec![in alloc; 0; PIECE]?,
            count: 0,
        })
    }

    /// The next message of this kind: from what was received, and from the link as long as it has bytes and the message
    /// isn't whole.
    pub fn next<M: Streamed, I: LinkIn>(&mut self, inward: &mut I) -> Next<M>
        ensures { NextEnds M.kind I.LinkIn self.old self.new inward.old inward.new result }
    {
        let Ok(()) = self.flush() else {
            return Next::Memory;
        };
        'pieces: loop {
            if let Some(next) = self.ask() {
                return next;
            }
            match self.receive(inward) {
                Received::Bytes => {}
                Received::End => return Next::End,
                Received::NotYet => return Next::NotYet,
                Received::Failed => return Next::Failed,
                Received::Memory => return Next::Memory,
            }
        }
    }

    /// The fault for which nothing more can be read, if there is one so far: after `Unreadable` there is.
    pub fn fault(&self) -> Option<FeedFault>
        ensures { result ≡ self.now.refused }
    {
        self.feed.refused()
    }

    /// The message at the front of what reached the feed, `None` where it isn't whole.
    fn ask<M: Streamed>(&mut self) -> Option<Next<M>>
        ensures { AsksEnds M.kind self.old self.new result }
    {
        next_of(M::take(&mut self.feed))
    }

    /// Receives what the link has, and brings it to the feed.
    fn receive<I: LinkIn>(&mut self, inward: &mut I) -> Received
        requires { self.old.unpushed ≡ [] }
        ensures { ReceiveEnds I.LinkIn self.old self.new inward.old inward.new result }
    {
        self.count = match inward.recv(&mut self.piece) {
            Ok(Got::Bytes(count)) => count,
            Ok(Got::End) => return Received::End,
            Ok(Got::NotYet) => return Received::NotYet,
            Err(_) => return Received::Failed,
        };
        match self.flush() {
            Ok(()) => Received::Bytes,
            Err(_) => Received::Memory,
        }
    }

    /// Brings to the feed what was received and has not reached it.
    fn flush(&mut self) -> Result<(), AllocError>
        ensures ok { OnOk result (self.new ≡ pushed self.old) }
        ensures err { OnErr result (self.new ≡ self.old) }
    {
        self.feed.push(&self.piece[..self.count])?;
        self.count = 0;
        Ok(())
    }
}

/// What came next, by what the feed gave; `None` where the message isn't whole.
fn next_of<M: Drop>(taken: Result<Option<M>, FeedFault>) -> Option<Next<M>>
    ensures { result ≡ next_of taken }
{
    match taken {
        Ok(Some(message)) => Some(Next::Message(message)),
        Ok(None) => None,
        Err(FeedFault::Memory) => Some(Next::Memory),
        Err(_) => Some(Next::Unreadable),
    }
}
