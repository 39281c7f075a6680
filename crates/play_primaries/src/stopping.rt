//! The node of a primary has stopped.

ghost use Rattle.std.specs.Prelude.{◌≡◌, false, All, OnOk};
ghost use Rattle.primary_events.specs.BlockRecovery.Dialling.{LinkIsKnown};
ghost use Rattle.primary_events.specs.BlockRecovery.Exchanging.{AllAreBack};
ghost use Rattle.primary_events.specs.MemberEvents.Roads.{RoadsPass};
ghost use Rattle.play_primaries.specs.Clients.{PrimaryIsReady};
ghost use Rattle.play_primaries.specs.Passing.{PrimaryPasses};
ghost use Rattle.play_primaries.specs.Stopping.{StopShows};

use crate::clients::{PrimaryClient, PrimaryState};
use hd_base::{LinkIn, LinkOut, Roads};
use play_readers::{ends_elsewhere_stay, idle_flushes_are_nets, nets_stay_sane};
use primary_events::Primary;
use road_traffic::brings_show;
use std::alloc::{AllocError, Global};
use std::mem;

impl<I: LinkIn, O: LinkOut> PrimaryClient<I, O> {
    /// Once its node has stopped, a primary that hasn't begun never does, and the ends of one that leads are brought
    /// back: it has no further events.
    pub fn stop<R: Roads<Inward = I, Outward = O>>(
        &mut self,
        alloc: Global,
        roads: &mut R,
    ) -> Result<(), AllocError>
        requires { PrimaryIsReady (R.plain roads.old) self.old.state }
        ensures shows { OnOk result (StopShows R.Roads I.LinkIn O.LinkOut self.old self.new roads.old roads.new) }
        ensures recovery { self.new.recovery ≡ record self.old.recovery { may_begin = false } }
        ensures passes { PrimaryPasses R.Roads roads.old roads.new self.new.state }
    {
        brings_show::<R>();
        idle_flushes_are_nets();
        nets_stay_sane();
        ends_elsewhere_stay::<R>();
        self.recovery.may_begin = false;
        match mem::replace(&mut self.state, PrimaryState::Stopped) {
            PrimaryState::Leads(primary) => brought(alloc, roads, primary),
            PrimaryState::New => {
                self.state = PrimaryState::New;
                Ok(())
            }
            PrimaryState::HasLed(led) => {
                self.state = PrimaryState::HasLed(led);
                Ok(())
            }
            PrimaryState::Stopped => Ok(()),
        }
    }
}

/// The ends of a primary are brought back.
fn brought<I: LinkIn, O: LinkOut, R: Roads<Inward = I, Outward = O>>(
    alloc: Global,
    roads: &mut R,
    primary: Primary<I, O>,
) -> Result<(), AllocError>
    requires { All (LinkIsKnown (R.plain roads.old)) primary.links.items }
    ensures brings { OnOk result (AllAreBack R.Roads I.LinkIn O.LinkOut primary.links.items
        roads.old roads.new) }
    ensures pass { RoadsPass R.Roads roads.old roads.new }
{
    match primary.retire(alloc, roads) {
        Ok(()) => Ok(()),
        Err(_) => Err(AllocError),
    }
}
