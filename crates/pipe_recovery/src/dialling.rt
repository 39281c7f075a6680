//! How the first member is reached with the request.

ghost use Rattle.std.specs.Prelude.{◌≡◌, IfOk, option_map};
ghost use Rattle.writer_core.specs.Transitions.{own_step};
ghost use Rattle.pipe_recovery.specs.Dialling.{
  dial_port,
  IsText,
  Sends,
  SendsTo,
  Opens,
  LinkIsKnown,
  Reaches,
  ReachesPort,
  Dials,
};

use crate::acting::Acted;
use crate::hearing::Heard;
use crate::links::Link;
use crate::rebuilding::Rebuild;
use hd_base::{Conn, FIRST_PORT, LinkIn, LinkOut, NodeId, RoadError, Roads};
use link_pieces::{send_piece, take_room};
use op_headers::{Op, encode_op};
use std::alloc::{AllocError, Global};
use writer_core::{Action, Writer};

/// How a dial went.
#[derive(Clone, Copy, Debug, PartialEq, Eq)]
pub enum Opened {
    /// It was answered.
    Answered,
    /// It wasn't answered.
    Unanswered,
    /// Memory ran out.
    Memory,
}

impl<I: LinkIn, O: LinkOut> Rebuild<I, O> {
    /// The writer's own step where it dials: the first member is dialled, unless it was already, and sent the request.
    pub(crate) fn dial<R: Roads<Inward = I, Outward = O>>(
        &mut self,
        alloc: Global,
        writer: &mut Writer,
        roads: &mut R,
    ) -> Acted
        requires { LinkIsKnown (R.plain roads.old) self.old.link }
        ensures { Dials R.Roads I.LinkIn O.LinkOut (own_step writer.old) writer.old writer.new
            self.old.link self.new.link roads.old roads.new result }
    {
        match writer.next() {
            Action::Dial { to, op } => self.reach(alloc, writer, to, &op, roads),
            Action::Memory => Acted::Memory,
            _ => Acted::Idle,
        }
    }

    /// Reaches a node with this request. Where it has no port, or the request is too long to be one, the dial isn't
    /// answered.
    fn reach<R: Roads<Inward = I, Outward = O>>(
        &mut self,
        alloc: Global,
        writer: &mut Writer,
        to: NodeId,
        op: &Op,
        roads: &mut R,
    ) -> Acted
        requires { LinkIsKnown (R.plain roads.old) self.old.link }
        ensures { Reaches R.Roads I.LinkIn O.LinkOut to op.now writer.old writer.new
            self.old.link self.new.link roads.old roads.new result }
    {
        let Ok(found) = request_text(alloc, op) else {
            return Acted::Memory;
        };
        let Some(text) = found else {
            writer.dialled(None);
            return Acted::Moved;
        };
        let Some(port) = dial_port(to) else {
            writer.dialled(None);
            return Acted::Moved;
        };
        self.reach_port(alloc, writer, port, &text, roads)
    }

    /// Reaches a port with this text.
    fn reach_port<R: Roads<Inward = I, Outward = O>>(
        &mut self,
        alloc: Global,
        writer: &mut Writer,
        port: u16,
        text: &[u8],
        roads: &mut R,
    ) -> Acted
        requires { LinkIsKnown (R.plain roads.old) self.old.link }
        ensures { ReachesPort R.Roads I.LinkIn O.LinkOut port text.now writer.old writer.new
            self.old.link self.new.link roads.old roads.new result }
    {
        match self.open(alloc, port, roads) {
            Opened::Answered => self.send(alloc, writer, text),
            Opened::Unanswered => {
                writer.dialled(None);
                Acted::Moved
            }
            Opened::Memory => Acted::Memory,
        }
    }

    /// Dials a port, unless the end of a dial is kept.
    fn open<R: Roads<Inward = I, Outward = O>>(
        &mut self,
        alloc: Global,
        port: u16,
        roads: &mut R,
    ) -> Opened
        requires { LinkIsKnown (R.plain roads.old) self.old.link }
        ensures opens { Opens R.Roads I.LinkIn O.LinkOut port self.old.link self.new.link roads.old roads.new result }
        ensures known { LinkIsKnown (R.plain roads.new) self.new.link }
    {
        if self.link.is_some() {
            return Opened::Answered;
        }
        let Ok(heard) = Heard::new(alloc) else {
            return Opened::Memory;
        };
        match roads.dial(alloc, port) {
            Ok(end) => {
                self.link = Some(Link {
                    end,
                    heard,
                    asked: false,
                });
                Opened::Answered
            }
            Err(RoadError::Memory) => Opened::Memory,
            Err(RoadError::NotListening | RoadError::Failed) => Opened::Unanswered,
        }
    }

    /// Sends this text on the end of the dial, if there is one, and tells the writer.
    fn send(&mut self, alloc: Global, writer: &mut Writer, text: &[u8]) -> Acted
        ensures { Sends O.LinkOut text.now writer.old writer.new self.old.link self.new.link result }
    {
        match &mut self.link {
            Some(link) => send_to(alloc, writer, text, &mut link.end),
            None => Acted::Idle,
        }
    }
}

/// Sends this text on the end of a dial, and tells the writer. Where the link fails the connection has ended.
fn send_to<I: Drop, O: LinkOut>(
    alloc: Global,
    writer: &mut Writer,
    text: &[u8],
    end: &mut Conn<I, O>,
) -> Acted
    ensures { SendsTo O.LinkOut text.now writer.old writer.new end.old end.new result }
{
    if take_room(alloc, &mut end.outward, text.len()).is_err() {
        return Acted::Memory;
    }
    let sending = send_piece(&mut end.outward, text);
    writer.dialled(Some(end.id));
    if sending.is_err() {
        writer.ended();
    }
    Acted::Moved
}

/// A request as it is written, `None` where it isn't one that may be written.
fn request_text(alloc: Global, op: &Op) -> Result<Option<Vec<u8>>, AllocError>
    ensures { IfOk result (λ found. IsText op.now (option_map (λ text. text.items) found)) }
{
    if !op.is_encodable(alloc)? {
        return Ok(None);
    }
    let mut text = Vec::new(alloc);
    encode_op(op, &mut text)?;
    Ok(Some(text))
}

/// A node's port, `None` where its number is too great for one.
fn dial_port(node: NodeId) -> Option<u16>
    ensures { result ≡ dial_port node }
{
    u16::try_from(u32::from(FIRST_PORT).saturating_add(node.0)).ok()
}
