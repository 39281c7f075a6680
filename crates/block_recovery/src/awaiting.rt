//! What a primary waits for, and on which connections something may come.

ghost use Rattle.std.specs.Prelude.{◌≡◌, slice_get, if◌then◌else◌, Some, None};
ghost use Rattle.block_recovery.specs.Awaiting.{waits_for, commits_next, hearing_conn};

use crate::links::{Link, Seat};
use crate::primary::Primary;
use hd_base::{ConnId, LinkIn, LinkOut};

impl<I: LinkIn, O: LinkOut> Primary<I, O> {
    /// Whether it waits for an answer of a member: its own step does nothing then. One that hasn't begun waits for
    /// none.
    pub fn waits(&self) -> bool
        ensures { result ≡ waits_for self.now.core }
    {
        match &self.core {
            Some(core) => core.waits(),
            None => false,
        }
    }

    /// Whether its next own step asks the office to commit. One that hasn't begun doesn't.
    pub fn commits(&self) -> bool
        ensures { result ≡ commits_next self.now.core }
    {
        match &self.core {
            Some(core) => core.commits(),
            None => false,
        }
    }

    /// The connection to the member at this place, if there is one, as long as its end wasn't taken.
    pub fn hearing_conn(&self, place: usize) -> Option<ConnId>
        ensures { result ≡ hearing_conn (slice_get self.now.links.items place) }
    {
        match self.links.get(place) {
            Some(seat) => hearing_on(seat),
            None => None,
        }
    }
}

/// The connection, if there is one, as long as its end wasn't taken.
fn hearing_on<I: Drop, O: Drop>(seat: &Seat<I, O>) -> Option<ConnId>
    ensures { result ≡ hearing_conn (Some seat.now) }
{
    match seat {
        Seat::Open(link) => hearing_link(link),
        Seat::Empty | Seat::Lost => None,
    }
}

/// This connection, as long as its end wasn't taken.
fn hearing_link<I: Drop, O: Drop>(link: &Link<I, O>) -> Option<ConnId>
    ensures { result ≡ (if link.now.over then None else Some link.now.end.id) }
{
    if link.over {
        return None;
    }
    Some(link.end.id)
}
