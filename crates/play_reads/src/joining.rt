//! Reads begin without clients, and clients join.

ghost use Rattle.play_reads.specs.Joining.{AreNone, NoneShow, Joins};

use crate::reads::Reads;
use hd_base::{LinkIn, LinkOut};
use play_nodes::ReadAsk;
use play_primaries::ReadClient;
use std::alloc::{AllocError, Global};

impl<I: LinkIn, O: LinkOut> Reads<I, O> {
    /// The reads of a play in which nobody has asked to read.
    pub fn new(alloc: Global) -> Reads<I, O>
        ensures none { AreNone result }
        ensures shows { NoneShow I.LinkIn O.LinkOut result }
    {
        Reads {
            clients: Vec::new(alloc),
            servers: Vec::new(alloc),
        }
    }

    /// A client that asks this, and hasn't asked its node yet, joins behind the others. Its reader's number is above
    /// theirs.
    pub fn ask(&mut self, ask: ReadAsk) -> Result<(), AllocError>
        ensures { Joins I.LinkIn O.LinkOut ask self.old self.new result }
    {
        match self.clients.push(ReadClient::new(ask)) {
            Ok(()) => Ok(()),
            Err(_) => Err(AllocError),
        }
    }
}
