//! What comes from above.

ghost use Rattle.std.specs.Prelude.{◌≡◌, if◌then◌else◌, true, [], length, option_map, IsSome, IfSome, IfOk, OnErr};
ghost use Rattle.frame_feed.specs.Kinds.{packets};
ghost use Rattle.link_messages.specs.Incomings.{NextEnds};
ghost use Rattle.pipe_member.specs.Above.{
  nothing_above,
  IsSpelledBy,
  LooksAbove,
  ReceivesAbove,
  above_of,
  without_text,
  text_of,
  due_above,
  above_after,
};

use crate::stages::{Looked, Took, looked_of};
use bytes::Bytes;
use frame_feed::PacketFrame;
use hd_base::LinkIn;
use link_messages::{Incoming, Next};
use packet_codec::Packet;
use pipe_setup::{FromAbove, Member as Core};
use pipe_turns::Done;
use replica_core::Replica;
use std::alloc::{AllocError, Global};
use std::marker::Model;

/// What comes from above: what was received and not yet taken, and what stands next, once that was looked at.
#[derive(Drop)]
pub struct Above {
    incoming: Incoming,
    next: Option<FromAbove>,
    /// The bytes that spell the packet that stands next, or that stood there last.
    text: Bytes,
}

impl Model for Above {
    ghost use Rattle.pipe_member.specs.Above.{AboveState, IsSpelledBy};

    ghost Value = { AboveState };

    ghost view = { λ a. record { received = a.incoming; next = a.next } };

    ghost invariant = { λ a. IsSpelledBy a.next a.text };
}

impl Above {
    /// Nothing came so far.
    pub(crate) fn new(alloc: Global) -> Result<Above, AllocError>
        ensures { IfOk result (λ made. made ≡ nothing_above) }
    {
        Ok(Above {
            incoming: Incoming::new(alloc)?,
            next: None,
            text: Bytes::new(),
        })
    }

    /// Looks at what stands next, where that isn't known: receives it.
    pub(crate) fn look<I: LinkIn>(&mut self, inward: &mut I) -> Looked
        ensures { LooksAbove I.LinkIn self.old.next self.old self.new inward.old inward.new result }
    {
        match self.next {
            Some(_) => Looked::Known,
            None => self.receive(inward),
        }
    }

    /// Receives what stands next.
    fn receive<I: LinkIn>(&mut self, inward: &mut I) -> Looked
        ensures { ReceivesAbove I.LinkIn self.old self.new inward.old inward.new result }
    {
        let (came, text) = next_packet(&mut self.incoming, inward);
        let looked = looked_of(&came);
        self.next = above_of(came);
        self.text = text;
        looked
    }

    /// What the member may take now of what stands next, if something does. Its only error is that a copy of it finds no
    /// memory.
    pub(crate) fn due(&self, core: &Core, replica: &Replica) -> Result<Option<DueAbove>, AllocError>
        ensures due { IfOk result (λ due. option_map (λ d. d.taken) due
            ≡ due_above core.now (length replica.now.pending) self.now.next) }
        ensures memory { OnErr result (IsSome (due_above core.now (length replica.now.pending) self.now.next)) }
        ensures spelled { IfOk result (λ due. IfSome due (λ d. IsSpelledBy (Some d.taken) d.text)) }
    {
        match &self.next {
            None => Ok(None),
            Some(FromAbove::End) => Ok(end_if(core.takes_end())),
            Some(FromAbove::Unreadable) => Ok(unreadable_if(core.takes_messages(replica))),
            Some(FromAbove::Packet(packet)) => {
                packet_if(core.takes_messages(replica), packet, &self.text)
            }
        }
    }

    /// What stands next after a turn: what was taken no longer does, and after a failed link the end does.
    pub(crate) fn settle(&mut self, took: Took, done: Done)
        ensures { self.new ≡ above_after took done self.old }
    {
        match (took, done) {
            (_, Done::Memory) => {}
            (_, Done::LinkFailed { .. }) => self.next = Some(FromAbove::End),
            (Took::Above, _) => self.next = None,
            _ => {}
        }
    }
}

/// What the member may take now from above.
#[derive(Drop)]
pub(crate) struct DueAbove {
    /// What may be taken.
    pub taken: FromAbove,
    /// The bytes that spell it, where it is a packet, or none.
    pub text: Bytes,
}

/// The end, where it may be taken.
fn end_if(takes: bool) -> Option<DueAbove>
    ensures { result ≡ (if takes then Some (record { taken = FromAbove.End; text = [] }) else None) }
{
    takes.then_some(DueAbove {
        taken: FromAbove::End,
        text: Bytes::new(),
    })
}

/// What is no packet, where it may be taken.
fn unreadable_if(takes: bool) -> Option<DueAbove>
    ensures { result ≡ (if takes then Some (record { taken = FromAbove.Unreadable; text = [] }) else None) }
{
    takes.then_some(DueAbove {
        taken: FromAbove::Unreadable,
        text: Bytes::new(),
    })
}

/// The packet and the bytes that spell it, where it may be taken. Both are shares of what came.
fn packet_if(takes: bool, packet: &Packet, text: &Bytes) -> Result<Option<DueAbove>, AllocError>
    ensures copy { IfOk result (λ due. due
        ≡ (if takes then Some (record { taken = FromAbove.Packet packet.now; text = text.now }) else None)) }
    ensures memory { OnErr result (takes ≡ true) }
{
    if !takes {
        return Ok(None);
    }
    Ok(Some(DueAbove {
        taken: FromAbove::Packet(packet.clone()?),
        text: text.clone()?,
    }))
}

/// The packet that comes next, and the bytes that spell it.
fn next_packet<I: LinkIn>(incoming: &mut Incoming, inward: &mut I) -> (Next<Packet>, Bytes)
    ensures comes { NextEnds packets I.LinkIn incoming.old incoming.new inward.old inward.new result.0 }
    ensures spelled { IsSpelledBy (above_of result.0) result.1 }
{
    let came = incoming.next::<PacketFrame, I>(inward);
    apart(came)
}

/// What came, and the bytes that spell it where it is a packet.
fn apart(came: Next<PacketFrame>) -> (Next<Packet>, Bytes)
    ensures bare { result.0 ≡ without_text came }
    ensures text { result.1 ≡ text_of came }
{
    match came {
        Next::Message(frame) => (Next::Message(frame.packet), frame.text),
        Next::Unreadable => (Next::Unreadable, Bytes::new()),
        Next::End => (Next::End, Bytes::new()),
        Next::Failed => (Next::Failed, Bytes::new()),
        Next::NotYet => (Next::NotYet, Bytes::new()),
        Next::Memory => (Next::Memory, Bytes::new()),
    }
}

/// What stands next where this came.
fn above_of(came: Next<Packet>) -> Option<FromAbove>
    ensures { result ≡ above_of came }
{
    match came {
        Next::Message(packet) => Some(FromAbove::Packet(packet)),
        Next::Unreadable => Some(FromAbove::Unreadable),
        Next::End | Next::Failed => Some(FromAbove::End),
        Next::NotYet | Next::Memory => None,
    }
}
