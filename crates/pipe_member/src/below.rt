//! What comes from the mirror.

ghost use Rattle.std.specs.Prelude.{◌≡◌, IsSome, IfOk, OnErr};
ghost use Rattle.pipe_member.specs.Below.{
  nothing_below,
  IsListedNext,
  LooksBelow,
  LooksAt,
  ReceivesAt,
  ReceivesBelow,
  ReceivesAnswer,
  ReceivesAck,
  answer_of,
  ack_of,
  below_after,
  stands_end,
};

use crate::stages::{Looked, Took, looked_of};
use hd_base::{Conn, LinkIn};
use link_messages::{Incoming, Next};
use pipe_setup::{Ack, FromBelow, Response};
use pipe_turns::Done;
use std::alloc::{AllocError, Global};
use std::marker::Model;

/// What comes from the mirror: what was received and not yet taken, and what stands next, once that was looked at.
#[derive(Drop)]
pub struct Below {
    incoming: Incoming,
    next: Option<FromBelow>,
}

impl Model for Below {
    ghost use Rattle.pipe_member.specs.Below.{BelowState, IsListedNext};

    ghost Value = { BelowState };

    ghost view = { λ b. record { received = b.incoming; next = b.next } };

    ghost invariant = { λ b. IsListedNext b.next };
}

impl Below {
    /// Nothing came so far.
    pub(crate) fn new(alloc: Global) -> Result<Below, AllocError>
        ensures { IfOk result (λ made. made ≡ nothing_below) }
    {
        Ok(Below {
            incoming: Incoming::new(alloc)?,
            next: None,
        })
    }

    /// Looks at what stands next, where that isn't known: receives it, the answer to the request where that is awaited,
    /// and else an ack. Of a mirror that was given up the end does.
    pub(crate) fn look<I: LinkIn, O: Drop>(
        &mut self,
        awaits: bool,
        mirror: &mut Option<Conn<I, O>>,
    ) -> Looked
        ensures { LooksBelow I.LinkIn awaits self.old.next self.old self.new mirror.old mirror.new result }
    {
        match self.next {
            Some(_) => Looked::Known,
            None => self.look_at(awaits, mirror),
        }
    }

    /// Receives what stands next, or knows that the end does, where there is no link.
    fn look_at<I: LinkIn, O: Drop>(
        &mut self,
        awaits: bool,
        mirror: &mut Option<Conn<I, O>>,
    ) -> Looked
        ensures { LooksAt I.LinkIn awaits self.old self.new mirror.old mirror.new result }
    {
        let Some(end) = mirror else {
            self.next = Some(FromBelow::End);
            return Looked::Known;
        };
        self.receive_at(awaits, end)
    }

    /// Receives what stands next at this end.
    fn receive_at<I: LinkIn, O: Drop>(&mut self, awaits: bool, end: &mut Conn<I, O>) -> Looked
        ensures { ReceivesAt I.LinkIn awaits self.old self.new end.old end.new result }
    {
        self.receive(awaits, &mut end.inward)
    }

    /// Receives what stands next.
    fn receive<I: LinkIn>(&mut self, awaits: bool, inward: &mut I) -> Looked
        ensures { ReceivesBelow I.LinkIn awaits self.old self.new inward.old inward.new result }
    {
        if awaits {
            self.receive_answer(inward)
        } else {
            self.receive_ack(inward)
        }
    }

    /// Receives the answer to the request.
    fn receive_answer<I: LinkIn>(&mut self, inward: &mut I) -> Looked
        ensures { ReceivesAnswer I.LinkIn self.old self.new inward.old inward.new result }
    {
        let came = self.incoming.next::<Response, I>(inward);
        let looked = looked_of(&came);
        self.next = answer_of(came);
        looked
    }

    /// Receives an ack.
    fn receive_ack<I: LinkIn>(&mut self, inward: &mut I) -> Looked
        ensures { ReceivesAck I.LinkIn self.old self.new inward.old inward.new result }
    {
        let came = self.incoming.next::<Ack, I>(inward);
        let looked = looked_of(&came);
        self.next = ack_of(came);
        looked
    }

    /// What stands next, if something does. Its only error is that a copy of it finds no memory.
    pub(crate) fn due(&self) -> Result<Option<FromBelow>, AllocError>
        ensures due { IfOk result (λ due. due ≡ self.now.next) }
        ensures memory { OnErr result (IsSome self.now.next) }
        ensures listed { IfOk result IsListedNext }
    {
        match &self.next {
            None => Ok(None),
            Some(FromBelow::End) => Ok(Some(FromBelow::End)),
            Some(FromBelow::Unreadable) => Ok(Some(FromBelow::Unreadable)),
            Some(FromBelow::Ack(ack)) => Ok(Some(FromBelow::Ack(ack.duplicate()))),
            Some(FromBelow::Response(answer)) => {
                Ok(Some(FromBelow::Response(answer.duplicate()?)))
            }
        }
    }

    /// Whether the end stands next.
    pub(crate) fn knows_end(&self) -> bool
        ensures { result ≡ stands_end self.now.next }
    {
        matches!(self.next, Some(FromBelow::End))
    }

    /// What stands next after a turn: what was taken no longer does, and after a failed link the end does.
    pub(crate) fn settle(&mut self, took: Took, done: Done)
        ensures { self.new ≡ below_after took done self.old }
    {
        match (took, done) {
            (_, Done::Memory) => {}
            (_, Done::MirrorFailed(_)) => self.next = Some(FromBelow::End),
            (Took::Below, _) => self.next = None,
            _ => {}
        }
    }
}

/// What stands next where this came for the answer.
fn answer_of(came: Next<Response>) -> Option<FromBelow>
    ensures { result ≡ answer_of came }
{
    match came {
        Next::Message(answer) => Some(FromBelow::Response(answer)),
        Next::Unreadable => Some(FromBelow::Unreadable),
        Next::End | Next::Failed => Some(FromBelow::End),
        Next::NotYet | Next::Memory => None,
    }
}

/// What stands next where this came for an ack.
fn ack_of(came: Next<Ack>) -> Option<FromBelow>
    ensures { result ≡ ack_of came }
{
    match came {
        Next::Message(ack) => Some(FromBelow::Ack(ack)),
        Next::Unreadable => Some(FromBelow::Unreadable),
        Next::End | Next::Failed => Some(FromBelow::End),
        Next::NotYet | Next::Memory => None,
    }
}
