//! The own step of a reading client.

ghost use Rattle.std.specs.Prelude.{◌≡◌, true, IfOk, IfErr};
ghost use Rattle.reader_events.specs.MemberEvents.Roads.{RoadsPass};
ghost use Rattle.reader_events.specs.WorldTexts.Texts.{CanBeAsked};
ghost use Rattle.reader_events.specs.Asking.{AskShows, AskedIsOpen, AskedIsKnown};
ghost use Rattle.play_model.specs.Asks.{request_of};
ghost use Rattle.play_readers.specs.Clients.{is_new, ReadIsReady};
ghost use Rattle.play_readers.specs.Owning.{OwnShows, OwnIsIdle, LowerIsKnown};
ghost use Rattle.play_readers.specs.Passing.{HasEnded, ReadClientPasses};

use crate::asks::request;
use crate::clients::{ReadClient, ReadState};
use hd_base::{Conn, LinkIn, LinkOut, Roads};
use play_model::ReadAsk;
use reader_events::{Asked, ReadFault, ReaderFault, ask};
use std::alloc::Global;

impl<I: LinkIn, O: LinkOut> ReadClient<I, O> {
    /// The own step of the reader: it dials its node, on the next connection, and sends its request. The lower end of
    /// the connection is handed out; there is none where nobody listens at the node's port. Nothing is done where it
    /// has asked already. A client whose step fails reads no more.
    pub fn own<R: Roads<Inward = I, Outward = O>>(
        &mut self,
        alloc: Global,
        roads: &mut R,
    ) -> Result<Option<Conn<I, O>>, ReaderFault>
        requires { ReadIsReady (R.plain roads.old) self.old.state }
        ensures shows { OwnShows R.Roads I.LinkIn O.LinkOut self.old self.new roads.old roads.new result }
        ensures fits { is_new self.old.state ≡ true → CanBeAsked (request_of self.old.ask) }
        ensures idle { OwnIsIdle self.old self.new roads.old roads.new result }
        ensures failed { IfErr result (λ _. HasEnded self.old self.new) }
        ensures passes { ReadClientPasses R.Roads roads.old roads.new self.new }
        ensures known { IfOk result (LowerIsKnown (R.plain roads.new)) }
    {
        let wanted = self.ask;
        if !self.has_step() {
            return Ok(None);
        }
        self.state = ReadState::HasRead(Err(ReadFault::Ended));
        match asked(alloc, roads, wanted)? {
            Asked::Reading { reading, lower } => {
                self.state = ReadState::Reads(reading);
                Ok(Some(lower))
            }
            Asked::Unanswered => Ok(None),
        }
    }
}

/// How the node was asked that a line names.
fn asked<I: LinkIn, O: LinkOut, R: Roads<Inward = I, Outward = O>>(
    alloc: Global,
    roads: &mut R,
    wanted: ReadAsk,
) -> Result<Asked<I, O>, ReaderFault>
    ensures shows { AskShows R.Roads I.LinkIn O.LinkOut (request_of wanted) wanted.node roads.old roads.new result }
    ensures fits { CanBeAsked (request_of wanted) }
    ensures open { IfOk result AskedIsOpen }
    ensures known { IfOk result (AskedIsKnown (R.plain roads.new)) }
    ensures pass { RoadsPass R.Roads roads.old roads.new }
{
    match request(alloc, wanted) {
        Ok(op) => ask(alloc, roads, op, wanted.node),
        Err(_) => Err(ReaderFault::Memory),
    }
}
