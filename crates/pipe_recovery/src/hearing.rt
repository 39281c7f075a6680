//! What comes on the writer's connection while it waits for the answer to its request.

ghost use Rattle.std.specs.Prelude.{◌≡◌, None, IfOk, is_some};
ghost use Rattle.pipe_recovery.specs.Hearing.{nothing_heard, answer_of, looked_of, Looks, Receives};

use hd_base::LinkIn;
use link_messages::{Incoming, Next};
use member_core::Response;
use std::alloc::{AllocError, Global};
use std::marker::Model;

/// What a request is answered.
#[derive(Debug, Drop)]
pub enum Answer {
    /// This.
    Given(Response),
    /// Nothing: the connection has ended or failed, or what came can't be read.
    Ended,
}

/// What was found where what stands next was looked for.
#[derive(Clone, Copy, Debug, PartialEq, Eq)]
pub enum Looked {
    /// It is known what stands next, or that nothing does yet.
    Known,
    /// Memory ran out.
    Memory,
}

/// What was received on the writer's connection and not yet taken, and what stands next in front of it, once that was
/// looked at.
#[derive(Drop)]
pub struct Heard {
    incoming: Incoming,
    next: Option<Answer>,
}

impl Model for Heard {
    ghost use Rattle.pipe_recovery.specs.Hearing.{HeardState};

    ghost Value = { HeardState };

    ghost view = { λ h. record { received = h.incoming; next = h.next } };
}

impl Heard {
    /// Nothing came so far.
    pub(crate) fn new(alloc: Global) -> Result<Heard, AllocError>
        ensures { IfOk result (λ made. made ≡ nothing_heard) }
    {
        Ok(Heard {
            incoming: Incoming::new(alloc)?,
            next: None,
        })
    }

    /// Looks at what stands next, where that isn't known: receives it.
    pub(crate) fn look<I: LinkIn>(&mut self, inward: &mut I) -> Looked
        ensures { Looks I.LinkIn self.old.next self.old self.new inward.old inward.new result }
    {
        match self.next {
            Some(_) => Looked::Known,
            None => self.receive(inward),
        }
    }

    /// Receives what stands next.
    fn receive<I: LinkIn>(&mut self, inward: &mut I) -> Looked
        ensures { Receives I.LinkIn self.old self.new inward.old inward.new result }
    {
        let came = self.incoming.next::<Response, I>(inward);
        let looked = looked_of(&came);
        self.next = answer_of(came);
        looked
    }

    /// Whether something stands next.
    pub(crate) fn stands(&self) -> bool
        ensures { result ≡ is_some self.now.next }
    {
        self.next.is_some()
    }

    /// Takes what stands next, if something does.
    pub(crate) fn take(&mut self) -> Option<Answer>
        ensures taken { result ≡ self.old.next }
        ensures left { self.new ≡ record self.old { next = None } }
    {
        self.next.take()
    }

    /// What was received and not yet taken.
    pub(crate) fn into_received(self) -> Incoming
        ensures { result ≡ self.received }
    {
        self.incoming
    }
}

/// What stands next where this came.
fn answer_of(came: Next<Response>) -> Option<Answer>
    ensures { result ≡ answer_of came }
{
    match came {
        Next::Message(response) => Some(Answer::Given(response)),
        Next::Unreadable | Next::End | Next::Failed => Some(Answer::Ended),
        Next::NotYet | Next::Memory => None,
    }
}

/// What was found where this came.
fn looked_of(came: &Next<Response>) -> Looked
    ensures { result ≡ looked_of came.now }
{
    match came {
        Next::Memory => Looked::Memory,
        _ => Looked::Known,
    }
}
