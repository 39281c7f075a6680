//! What a primary hears on the connection to a member.

ghost use Rattle.std.specs.Prelude.{◌≡◌};
ghost use Rattle.play_primaries.specs.Clients.{PrimaryIsReady};
ghost use Rattle.play_primaries.specs.Hearing.{HearShows, HearIsIdle};
ghost use Rattle.play_primaries.specs.Passing.{PrimaryPasses};

use crate::clients::{PrimaryClient, PrimaryState};
use hd_base::{LinkIn, LinkOut, Roads};
use primary_events::{PrimaryFault, hear, primaries_can_hear};
use std::alloc::Global;

impl<I: LinkIn, O: LinkOut> PrimaryClient<I, O> {
    /// The primary takes what stands next on its connection to the member at this place: the answer, or the end.
    /// Nothing is done where it doesn't lead.
    pub fn hear<R: Roads<Inward = I, Outward = O>>(
        &mut self,
        alloc: Global,
        roads: &mut R,
        place: usize,
    ) -> Result<(), PrimaryFault>
        requires { PrimaryIsReady (R.plain roads.old) self.old.state }
        ensures shows { HearShows R.Roads I.LinkIn O.LinkOut place self.old self.new roads.old roads.new result }
        ensures idle { HearIsIdle self.old self.new roads.old roads.new result }
        ensures recovery { self.new.recovery ≡ self.old.recovery }
        ensures passes { PrimaryPasses R.Roads roads.old roads.new self.new.state }
    {
        primaries_can_hear();
        match &mut self.state {
            PrimaryState::Leads(primary) => hear(alloc, roads, primary, place),
            PrimaryState::New | PrimaryState::HasLed(_) | PrimaryState::Stopped => Ok(()),
        }
    }
}
