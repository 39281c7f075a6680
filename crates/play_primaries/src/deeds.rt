//! What a primary's next own step is.

ghost use Rattle.play_primaries.specs.Deeds.{TellsDeed};

use crate::clients::{PrimaryClient, PrimaryState};
use hd_base::{LinkIn, LinkOut};

/// What a primary's own step is.
#[derive(Clone, Copy, Debug, PartialEq, Eq)]
pub enum Deed {
    /// The office answers it, and it begins.
    Begins,
    /// The office answers it, and it has committed.
    Commits,
    /// It sends the chosen members the UPDATE, or ends the recovery without a commit.
    GoesOn,
}

impl<I: LinkIn, O: LinkOut> PrimaryClient<I, O> {
    /// What the primary's next own step is, where one is due.
    pub fn deed(&self) -> Deed
        ensures { TellsDeed I.LinkIn O.LinkOut self.now result }
    {
        match &self.state {
            PrimaryState::New => Deed::Begins,
            PrimaryState::Leads(primary) => {
                if primary.commits() {
                    Deed::Commits
                } else {
                    Deed::GoesOn
                }
            }
            PrimaryState::HasLed(_) | PrimaryState::Stopped => Deed::GoesOn,
        }
    }
}
