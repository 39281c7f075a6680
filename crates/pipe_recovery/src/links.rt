//! The writer's connection.

ghost use Rattle.std.specs.Prelude.{◌≡◌, None, is_some};
ghost use Rattle.pipe_recovery.specs.Links.{LooksAt};

use crate::hearing::{Answer, Heard, Looked};
use hd_base::{Conn, LinkIn};
use link_messages::Incoming;

/// The upper end of the writer's connection, and what came on it.
#[derive(Drop)]
pub struct Link<I, O> {
    pub(crate) end: Conn<I, O>,
    pub(crate) heard: Heard,
    /// Whether the roads were asked to give what stands next on a connection: a look doesn't wait there.
    pub(crate) asked: bool,
}

impl<I: LinkIn, O: Drop> Link<I, O> {
    /// Looks at what stands next, where that isn't known.
    pub(crate) fn look(&mut self) -> Looked
        ensures { LooksAt I.LinkIn self.old self.new result }
    {
        self.heard.look(&mut self.end.inward)
    }

    /// Whether something stands next.
    pub(crate) fn stands(&self) -> bool
        ensures { result ≡ is_some self.now.heard.next }
    {
        self.heard.stands()
    }

    /// Takes what stands next, if something does.
    pub(crate) fn take(&mut self) -> Option<Answer>
        ensures taken { result ≡ self.old.heard.next }
        ensures left { self.new ≡ record self.old { heard = record self.old.heard { next = None } } }
    {
        self.heard.take()
    }

    /// The end, and what was received on it and not yet taken.
    pub(crate) fn into_parts(self) -> (Conn<I, O>, Incoming)
        ensures { result ≡ (self.end, self.heard.received) }
    {
        (self.end, self.heard.into_received())
    }
}
