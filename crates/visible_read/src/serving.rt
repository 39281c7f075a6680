//! The serving of a read, step by step.

ghost use Rattle.std.specs.Prelude.{◌≡◌, None, false};
ghost use Rattle.visible_read.specs.Servings.{unanswered, is_over, Steps};
ghost use Rattle.visible_read.specs.Sound.{IsSound};

use crate::answering::{Course, Served, Took, answer};
use crate::packets::send_next;
use frame_feed::Message;
use hd_base::{Files, LinkOut, Receipt};
use op_headers::ReadOp;
use pipe_turns::ReplicaBook;
use std::alloc::Global;
use std::marker::Model;

/// The serving of a read: its request, and how far it is. Each step is one event of the node: the answer, or one
/// packet.
#[derive(Debug, Drop)]
pub struct Serving {
    op: ReadOp,
    course: Course,
    receipt: Option<Receipt>,
    reply: Option<Message>,
}

impl Model for Serving {
    ghost use Rattle.visible_read.specs.Servings.{ServingRun};
    ghost use Rattle.visible_read.specs.Sound.{IsSound};

    ghost Value = { ServingRun };

    ghost view = { λ s. record {
      op = s.op;
      course = s.course;
      receipt = s.receipt;
      reply = s.reply;
    } };

    ghost invariant = { λ s. IsSound s.course };
}

impl Serving {
    /// A read that is to be answered. It takes no memory.
    pub fn new(op: ReadOp) -> Serving
        ensures { result ≡ unanswered op }
    {
        Serving {
            op,
            course: Course::Asked,
            receipt: None,
            reply: None,
        }
    }

    /// Whether it has ended: there is no further step. Where it was answered and hasn't, a packet is next.
    pub fn is_over(&self) -> bool
        ensures value { result ≡ is_over self.now.course }
        ensures sound { IsSound self.now.course }
    {
        matches!(self.course, Course::Over)
    }

    /// Answers the request, or sends the next packet as one piece; `None` exactly where a packet is still to be sent.
    /// After `Memory` nothing was booked or sent, and the next step does the same again.
    pub fn step<F: Files, O: LinkOut>(
        &mut self,
        alloc: Global,
        book: &mut ReplicaBook<F>,
        out: &mut O,
    ) -> Option<Served>
        requires { is_over self.old.course ≡ false }
        ensures steps { Steps F.Files O.LinkOut self.old self.new book.old book.new out.old out.new result }
        ensures sound { IsSound self.new.course }
    {
        let took = match &self.course {
            Course::Asked => answer(alloc, book, &self.op, out),
            Course::Sending(core) => send_next(alloc, book, core, out),
            Course::Over => unreachable!(),
        };
        let Took {
            receipt,
            reply,
            course,
            served,
        } = took;
        self.receipt = receipt;
        self.reply = reply;
        self.course = course;
        served
    }

    /// Takes out what the last step booked and sent.
    pub fn last(&mut self) -> (Option<Receipt>, Option<Message>)
        ensures given { result ≡ (self.old.receipt, self.old.reply) }
        ensures left { self.new ≡ record self.old { receipt = None; reply = None } }
    {
        (self.receipt.take(), self.reply.take())
    }
}
