//! The client of a block.

ghost use Rattle.std.specs.Prelude.{◌≡◌, true, false, None};
ghost use Rattle.play_clients.specs.Clients.{IsNew, client_has_step};

use client_events::{Pipe, Said};
use hd_base::{BlockId, Conn, LinkIn, LinkOut, NodeId, SumRule};
use std::alloc::Global;
use std::collections::VecDeque;
use world::TakenCommand;
use writer_core::Writer;

/// The client of a block of a play.
#[derive(Drop)]
pub struct Client<I, O> {
    /// The block.
    pub block: BlockId,
    /// The rule of sums of a block that is created next.
    pub rule: SumRule,
    /// The writer, once it has taken a command.
    pub writer: Option<Writer>,
    /// The writer's connection.
    pub pipe: Pipe<I, O>,
    /// The commands that the writer hasn't taken, in their order.
    pub queue: VecDeque<TakenCommand>,
    /// What its commands were answered, in the order of the answers.
    pub said: Vec<Said>,
}

/// The lower end of a connection that a writer dialled.
#[derive(Drop)]
pub struct First<I, O> {
    /// The node of the first member, which was dialled.
    pub node: NodeId,
    /// The lower end.
    pub end: Conn<I, O>,
}

/// What a writer's own step leaves beside the client.
#[derive(Drop)]
pub struct Owned<I, O> {
    /// The command that the writer took, if it took one.
    pub took: Option<TakenCommand>,
    /// Whether the office was asked.
    pub asked: bool,
    /// The lower end of the connection that the writer dialled, if it did.
    pub first: Option<First<I, O>>,
    /// The node that didn't answer the writer's dial, if one was dialled in vain.
    pub unreached: Option<NodeId>,
}

impl<I: LinkIn, O: LinkOut> Owned<I, O> {
    /// What a step leaves that the writer took alone, with a command if it took one.
    pub(crate) fn alone(took: Option<TakenCommand>) -> Owned<I, O>
        ensures { result ≡ record { took = took; asked = false; first = None; unreached = None } }
    {
        Owned {
            took,
            asked: false,
            first: None,
            unreached: None,
        }
    }

    /// What a step leaves in which the office was asked, with the first member's end if that was asked too, or its node
    /// if it didn't answer.
    pub(crate) fn asking(first: Option<First<I, O>>, unreached: Option<NodeId>) -> Owned<I, O>
        ensures { result ≡ record { took = None; asked = true; first = first; unreached = unreached } }
    {
        Owned {
            took: None,
            asked: true,
            first,
            unreached,
        }
    }
}

impl<I: LinkIn, O: LinkOut> Client<I, O> {
    /// The client of a block that was given no command.
    pub fn new(alloc: Global, block: BlockId) -> Client<I, O>
        ensures { IsNew result block }
    {
        Client {
            block,
            rule: SumRule::default(),
            writer: None,
            pipe: Pipe::Closed,
            queue: VecDeque::new(alloc),
            said: Vec::new(alloc),
        }
    }

    /// Whether the writer has an own step: it does or asks something, or takes a command.
    pub fn has_step(&self) -> bool
        ensures { result ≡ client_has_step self.now }
    {
        match &self.writer {
            Some(writer) => {
                writer.has_step() || (!writer.is_waiting() && !self.queue.is_empty())
            }
            None => !self.queue.is_empty(),
        }
    }
}
