//! Recoveries begin without clients, and clients join.

ghost use Rattle.play_recoveries.specs.Joining.{AreNone, NoneShow, Joins};

use crate::recoveries::Recoveries;
use hd_base::{LinkIn, LinkOut};
use play_model::Recovery;
use play_primaries::PrimaryClient;
use std::alloc::{AllocError, Global};

impl<I: LinkIn, O: LinkOut> Recoveries<I, O> {
    /// The recoveries of a play in which nobody has asked to recover.
    pub fn new(alloc: Global) -> Recoveries<I, O>
        ensures none { AreNone result }
        ensures shows { NoneShow I.LinkIn O.LinkOut result }
    {
        Recoveries {
            clients: Vec::new(alloc),
            servers: Vec::new(alloc),
        }
    }

    /// A client that is to recover this, and hasn't begun, joins behind the others. Its primary's number is above
    /// theirs.
    pub fn join(&mut self, recovery: Recovery) -> Result<(), AllocError>
        ensures { Joins I.LinkIn O.LinkOut recovery self.old self.new result }
    {
        match self.clients.push(PrimaryClient::new(recovery)) {
            Ok(()) => Ok(()),
            Err(_) => Err(AllocError),
        }
    }
}
