//! The own step of a primary.

ghost use Rattle.std.specs.Prelude.{◌≡◌, true, All, IfOk};
ghost use Rattle.primary_events.specs.BlockRecovery.Steps.{IsNew};
ghost use Rattle.primary_events.specs.Beginning.{LowerIsKnown};
ghost use Rattle.primary_events.specs.World.Clients.{are_members};
ghost use Rattle.play_primaries.specs.declared.clients.PrimaryState.TheVariants as PrimaryState;
ghost use Rattle.play_primaries.specs.Clients.{IsReady, PrimaryIsReady};
ghost use Rattle.play_primaries.specs.Owning.{OwnShows, OwnIsIdle};
ghost use Rattle.play_primaries.specs.Passing.{PrimaryPasses};

use crate::clients::{PrimaryClient, PrimaryState};
use hd_base::{Conn, LinkIn, LinkOut, Members, Roads};
use name_core::Desk;
use play_readers::Recovery;
use primary_events::{
    Primary, PrimaryBegun, PrimaryFault, PrimaryStep, begin, lead, primaries_can_lead,
};
use std::alloc::Global;
use std::mem;

/// What the own step of a primary leaves: how far the primary is, and the lower ends that are handed out, if it was
/// done.
#[derive(Drop)]
struct StepLeft<I, O> {
    state: PrimaryState<I, O>,
    lowers: Result<Vec<Option<Conn<I, O>>>, PrimaryFault>,
}

impl<I: LinkIn, O: LinkOut> PrimaryClient<I, O> {
    /// The own step of the primary. To begin it asks the office, dials its members and sends them the INIT; the lower
    /// ends of the connections are handed out, in the members' order, and none of a member that didn't answer. Where
    /// the office refuses, the recovery has ended. A primary that leads sends the UPDATE, or ends the recovery. Nothing
    /// is done where the primary has no step.
    pub fn own<D: Desk, R: Roads<Inward = I, Outward = O>>(
        &mut self,
        alloc: Global,
        office: &mut D,
        roads: &mut R,
    ) -> Result<Vec<Option<Conn<I, O>>>, PrimaryFault>
        requires { PrimaryIsReady (R.plain roads.old) self.old.state }
        ensures shows { OwnShows D.Desk R.Roads I.LinkIn O.LinkOut self.old self.new office.old office.new
            roads.old roads.new result }
        ensures idle { OwnIsIdle self.old self.new office.old office.new roads.old roads.new result }
        ensures recovery { self.new.recovery ≡ self.old.recovery }
        ensures passes { PrimaryPasses R.Roads roads.old roads.new self.new.state }
        ensures known { IfOk result (λ lowers. All (LowerIsKnown (R.plain roads.new)) lowers.items) }
    {
        if !self.has_step() {
            return Ok(Vec::new(alloc));
        }
        let state = mem::replace(&mut self.state, PrimaryState::Stopped);
        let StepLeft { state, lowers } = owned(alloc, office, roads, &self.recovery, state);
        self.state = state;
        lowers
    }
}

/// The step of a primary that is as far as this.
fn owned<I: LinkIn, O: LinkOut, D: Desk, R: Roads<Inward = I, Outward = O>>(
    alloc: Global,
    office: &mut D,
    roads: &mut R,
    recovery: &Recovery,
    state: PrimaryState<I, O>,
) -> StepLeft<I, O>
    requires { PrimaryIsReady (R.plain roads.old) state }
    ensures shows { OwnShows D.Desk R.Roads I.LinkIn O.LinkOut
        (record { recovery = recovery.now; state = state })
        (record { recovery = recovery.now; state = result.state })
        office.old office.new roads.old roads.new result.lowers }
    ensures passes { PrimaryPasses R.Roads roads.old roads.new result.state }
    ensures known { IfOk result.lowers (λ lowers. All (LowerIsKnown (R.plain roads.new)) lowers.items) }
{
    match state {
        PrimaryState::New => begun(alloc, office, roads, recovery),
        PrimaryState::Leads(primary) => led(alloc, office, roads, recovery, primary),
        PrimaryState::HasLed(led) => StepLeft {
            state: PrimaryState::HasLed(led),
            lowers: Ok(Vec::new(alloc)),
        },
        PrimaryState::Stopped => StepLeft {
            state: PrimaryState::Stopped,
            lowers: Ok(Vec::new(alloc)),
        },
    }
}

/// A new primary begins.
fn begun<I: LinkIn, O: LinkOut, D: Desk, R: Roads<Inward = I, Outward = O>>(
    alloc: Global,
    office: &mut D,
    roads: &mut R,
    recovery: &Recovery,
) -> StepLeft<I, O>
    ensures shows { OwnShows D.Desk R.Roads I.LinkIn O.LinkOut
        (record { recovery = recovery.now; state = PrimaryState.New })
        (record { recovery = recovery.now; state = result.state })
        office.old office.new roads.old roads.new result.lowers }
    ensures passes { PrimaryPasses R.Roads roads.old roads.new result.state }
    ensures known { IfOk result.lowers (λ lowers. All (LowerIsKnown (R.plain roads.new)) lowers.items) }
{
    members_are(&recovery.members);
    match Primary::new(alloc, recovery.block, &recovery.members) {
        Ok(primary) => begun_at(alloc, office, roads, recovery, primary),
        Err(_) => StepLeft {
            state: PrimaryState::New,
            lowers: Err(PrimaryFault::Memory),
        },
    }
}

/// A primary that has done nothing begins.
fn begun_at<I: LinkIn, O: LinkOut, D: Desk, R: Roads<Inward = I, Outward = O>>(
    alloc: Global,
    office: &mut D,
    roads: &mut R,
    recovery: &Recovery,
    primary: Primary<I, O>,
) -> StepLeft<I, O>
    requires members { are_members recovery.now.members ≡ true }
    requires made { IsNew recovery.now.block recovery.now.members primary }
    requires ready { IsReady (R.plain roads.old) primary }
    ensures shows { OwnShows D.Desk R.Roads I.LinkIn O.LinkOut
        (record { recovery = recovery.now; state = PrimaryState.New })
        (record { recovery = recovery.now; state = result.state })
        office.old office.new roads.old roads.new result.lowers }
    ensures passes { PrimaryPasses R.Roads roads.old roads.new result.state }
    ensures known { IfOk result.lowers (λ lowers. All (LowerIsKnown (R.plain roads.new)) lowers.items) }
{
    let none = Vec::new(alloc);
    let mut primary = primary;
    match begin(alloc, office, roads, &mut primary) {
        Ok(PrimaryBegun::Leads(lowers)) => StepLeft {
            state: PrimaryState::Leads(primary),
            lowers: Ok(lowers),
        },
        Ok(PrimaryBegun::Ended(led)) => StepLeft {
            state: PrimaryState::HasLed(led),
            lowers: Ok(none),
        },
        Err(why) => StepLeft {
            state: PrimaryState::Leads(primary),
            lowers: Err(why),
        },
    }
}

/// A primary that leads goes on.
fn led<I: LinkIn, O: LinkOut, D: Desk, R: Roads<Inward = I, Outward = O>>(
    alloc: Global,
    office: &mut D,
    roads: &mut R,
    recovery: &Recovery,
    primary: Primary<I, O>,
) -> StepLeft<I, O>
    requires { IsReady (R.plain roads.old) primary }
    ensures shows { OwnShows D.Desk R.Roads I.LinkIn O.LinkOut
        (record { recovery = recovery.now; state = PrimaryState.Leads primary })
        (record { recovery = recovery.now; state = result.state })
        office.old office.new roads.old roads.new result.lowers }
    ensures passes { PrimaryPasses R.Roads roads.old roads.new result.state }
    ensures known { IfOk result.lowers (λ lowers. All (LowerIsKnown (R.plain roads.new)) lowers.items) }
{
    primaries_can_lead();
    let none = Vec::new(alloc);
    let mut primary = primary;
    match lead(alloc, office, roads, &mut primary) {
        Ok(PrimaryStep::Ended(led)) => StepLeft {
            state: PrimaryState::HasLed(led),
            lowers: Ok(none),
        },
        Ok(PrimaryStep::Moved) => StepLeft {
            state: PrimaryState::Leads(primary),
            lowers: Ok(none),
        },
        Ok(PrimaryStep::Waiting) => StepLeft {
            state: PrimaryState::Leads(primary),
            lowers: Ok(none),
        },
        Err(why) => StepLeft {
            state: PrimaryState::Leads(primary),
            lowers: Err(why),
        },
    }
}

/// The members of a line are at most 16, and no two of them are one.
fn members_are(members: &Members)
    ensures { are_members members.now ≡ true }
{
    members.as_slice();
}
