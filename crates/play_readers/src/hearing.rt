//! What a reading client hears on its connection.

ghost use Rattle.std.specs.Prelude.{IfOk, IfErr};
ghost use Rattle.reader_events.specs.MemberEvents.Roads.{RoadsPass};
ghost use Rattle.play_readers.specs.Clients.{ReadIsReady};
ghost use Rattle.play_readers.specs.Hearing.{StateHears, HearShows, HearIsIdle};
ghost use Rattle.play_readers.specs.Passing.{HasEnded, ReadClientPasses};

use crate::clients::{ReadClient, ReadState};
use hd_base::{LinkIn, LinkOut, Roads};
use reader_events::{Heard, ReadFault, ReaderFault, hear};
use std::alloc::Global;
use std::mem;

impl<I: LinkIn, O: LinkOut> ReadClient<I, O> {
    /// The reader takes what stands next on its connection: the answer to its request, a packet, or the end. Nothing is
    /// done where it has none. A client that fails to hear reads no more.
    pub fn hear<R: Roads<Inward = I, Outward = O>>(
        &mut self,
        alloc: Global,
        roads: &mut R,
    ) -> Result<(), ReaderFault>
        requires { ReadIsReady (R.plain roads.old) self.old.state }
        ensures shows { HearShows R.Roads I.LinkIn O.LinkOut self.old self.new roads.old roads.new result }
        ensures idle { HearIsIdle self.old self.new roads.old roads.new result }
        ensures failed { IfErr result (λ _. HasEnded self.old self.new) }
        ensures passes { ReadClientPasses R.Roads roads.old roads.new self.new }
    {
        let state = mem::replace(&mut self.state, ReadState::HasRead(Err(ReadFault::Ended)));
        self.state = heard(alloc, roads, state)?;
        Ok(())
    }
}

/// How far a client is that has heard what stands next, if it reads.
fn heard<I: LinkIn, O: LinkOut, R: Roads<Inward = I, Outward = O>>(
    alloc: Global,
    roads: &mut R,
    state: ReadState<I, O>,
) -> Result<ReadState<I, O>, ReaderFault>
    requires { ReadIsReady (R.plain roads.old) state }
    ensures hears { StateHears R.Roads I.LinkIn O.LinkOut state roads.old roads.new result }
    ensures pass { RoadsPass R.Roads roads.old roads.new }
    ensures ready { IfOk result (ReadIsReady (R.plain roads.new)) }
{
    match state {
        ReadState::Reads(reading) => match hear(alloc, roads, reading)? {
            Heard::Reading(reading) => Ok(ReadState::Reads(reading)),
            Heard::Read(read) => Ok(ReadState::HasRead(read)),
        },
        ReadState::Asks => Ok(ReadState::Asks),
        ReadState::HasRead(read) => Ok(ReadState::HasRead(read)),
    }
}
