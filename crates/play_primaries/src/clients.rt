//! The primary of a line.

ghost use Rattle.std.specs.Prelude.{◌≡◌};
ghost use Rattle.primary_events.specs.MemberEvents.Roads.{RoadsPass};
ghost use Rattle.play_primaries.specs.Clients.{can_act, is_conn, hears_on};
ghost use Rattle.play_primaries.specs.Dues.{TellsStep, TellsPrimary};

use hd_base::{ConnId, LinkIn, LinkOut, Roads, Standing};
use play_readers::Recovery;
use primary_events::Primary;
use recovery_core::Recovered;
use road_traffic::standing;

/// The primary of a line of a play.
#[derive(Drop)]
pub struct PrimaryClient<I, O> {
    /// What the line asks.
    pub recovery: Recovery,
    /// How far the primary is.
    pub state: PrimaryState<I, O>,
}

/// How far a primary is.
#[derive(Drop)]
pub enum PrimaryState<I, O> {
    /// It hasn't begun.
    New,
    /// It leads, over the connections to its members.
    Leads(Primary<I, O>),
    /// It has its result.
    HasLed(Recovered),
    /// Its node has stopped while it led: it has no result.
    Stopped,
}

impl<I: LinkIn, O: LinkOut> PrimaryClient<I, O> {
    /// The primary of a line, which hasn't begun.
    pub fn new(recovery: Recovery) -> PrimaryClient<I, O>
        ensures { result ≡ record { recovery = recovery; state = PrimaryState.New } }
    {
        PrimaryClient {
            recovery,
            state: PrimaryState::New,
        }
    }

    /// Whether the primary has an own step: to begin, where it may, or to go on, once it waits for no answer.
    pub fn has_step(&self) -> bool
        ensures value { result ≡ can_act self.now.recovery.may_begin self.now.state }
        ensures tells { TellsStep I.LinkIn O.LinkOut self.now result }
    {
        match &self.state {
            PrimaryState::New => self.recovery.may_begin,
            PrimaryState::Leads(primary) => !primary.waits(),
            PrimaryState::HasLed(_) | PrimaryState::Stopped => false,
        }
    }

    /// Whether the primary takes what stands next on the connection that it dialled for the member at this place.
    pub fn can_up<R: Roads<Inward = I, Outward = O>>(
        &self,
        roads: &mut R,
        conn: ConnId,
        place: usize,
    ) -> bool
        ensures tells { TellsPrimary R.Roads I.LinkIn O.LinkOut conn place self.now roads.old roads.new result }
        ensures pass { RoadsPass R.Roads roads.old roads.new }
    {
        match standing(roads, conn, false) {
            Standing::Nothing => false,
            Standing::Piece | Standing::End => self.hears_on(conn, place),
        }
    }

    /// Whether it has this connection to the member at this place, and may hear something there.
    pub fn hears_on(&self, conn: ConnId, place: usize) -> bool
        ensures { result ≡ hears_on self.now.state conn.0 place }
    {
        match &self.state {
            PrimaryState::Leads(primary) => is_conn(primary.hearing_conn(place), conn),
            PrimaryState::New | PrimaryState::HasLed(_) | PrimaryState::Stopped => false,
        }
    }
}

/// Whether this is the connection, if there is one.
fn is_conn(hearing: Option<ConnId>, conn: ConnId) -> bool
    ensures { result ≡ is_conn hearing conn.0 }
{
    match hearing {
        Some(hearing) => hearing.0 == conn.0,
        None => false,
    }
}
