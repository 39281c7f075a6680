//! What may happen next at the lower ends of the connections that readers and primaries dialled.

ghost use Rattle.std.specs.Prelude.{◌≡◌, is_some};
ghost use Rattle.recovery_events.specs.MemberEvents.Roads.{RoadsPass};
ghost use Rattle.play_servers.specs.Answering.{answer_conn};
ghost use Rattle.play_servers.specs.Dues.{TellsDown, TellsReady, TellsRequest, AnswersWait};
ghost use Rattle.play_servers.specs.Known.{end_conn};

use crate::recoveries::RecoveryServer;
use crate::servers::{ReadEnd, ReadServer};
use hd_base::{LinkIn, LinkOut, Roads, Standing};
use road_traffic::standing;

impl<I: LinkIn, O: LinkOut> ReadServer<I, O> {
    /// Whether the lower end takes what stands next.
    pub fn can_down<R: Roads<Inward = I, Outward = O>>(&self, roads: &mut R) -> bool
        ensures tells { TellsDown R.Roads I.LinkIn O.LinkOut self.now roads.old roads.new result }
        ensures pass { RoadsPass R.Roads roads.old roads.new }
    {
        match standing(roads, self.conn, true) {
            Standing::Nothing => false,
            Standing::Piece | Standing::End => self.goes_on(),
        }
    }

    /// Whether it sends a packet next.
    pub fn can_ready(&self) -> bool
        ensures { TellsReady I.LinkIn O.LinkOut self.now result }
    {
        match &self.end {
            ReadEnd::Serving { read, .. } => !read.serving.is_over(),
            ReadEnd::Idle(_) | ReadEnd::Ended => false,
        }
    }

    /// Whether the lower end has further events.
    fn goes_on(&self) -> bool
        ensures { result ≡ is_some (end_conn self.now.end) }
    {
        self.open_conn().is_some()
    }
}

impl<I: LinkIn, O: LinkOut> RecoveryServer<I, O> {
    /// Whether the lower end takes what stands next.
    pub fn can_down<R: Roads<Inward = I, Outward = O>>(&self, roads: &mut R) -> bool
        ensures tells { TellsRequest R.Roads I.LinkIn O.LinkOut self.now roads.old roads.new result }
        ensures pass { RoadsPass R.Roads roads.old roads.new }
    {
        match standing(roads, self.conn, true) {
            Standing::Nothing => false,
            Standing::Piece | Standing::End => self.goes_on(),
        }
    }

    /// Whether the lower end has further events.
    fn goes_on(&self) -> bool
        ensures { result ≡ is_some (answer_conn self.now.end) }
    {
        self.open_conn().is_some()
    }
}

/// A lower end that a primary dialled does nothing without a message.
pub fn answers_wait<I: LinkIn, O: LinkOut>()
    ensures { AnswersWait I.LinkIn O.LinkOut }
{}
