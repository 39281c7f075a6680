//! What a running node keeps of the messages that it took and sent.

ghost use Rattle.std.specs.Prelude.{◌≡◌, ◌==◌, [], ◌∷◌, ◌++◌, length, IfOk, OnOk, OnErr};

use ack_codec::{Ack, Response};
use hd_base::{BlockId, ConnId, Receipt, Status};
use op_headers::{Op, RecoveryAnswer};
use packet_codec::Packet;
use std::alloc::{AllocError, Global};
use std::marker::Model;

/// A message of any kind.
#[derive(Debug, Drop, PartialEq, Eq)]
pub enum Message {
    Op(Op),
    Packet(Packet),
    Ack(Ack),
    Response(Response),
    ReadStatus(Status),
    Answer(RecoveryAnswer),
}

impl Message {
    /// The same message once more. A packet's sums and body are shared.
    pub fn duplicate(&self) -> Result<Message, AllocError>
        ensures { IfOk result (λ copy. copy ≡ self.now) }
    {
        let copy = match self {
            Message::Op(op) => Message::Op(op.duplicate()?),
            Message::Packet(packet) => Message::Packet(packet.clone()?),
            Message::Ack(ack) => Message::Ack(ack.duplicate()),
            Message::Response(response) => Message::Response(response.duplicate()?),
            Message::ReadStatus(status) => Message::ReadStatus(*status),
            Message::Answer(answer) => Message::Answer(answer.duplicate()?),
        };
        Ok(copy)
    }
}

/// What an event took from its connection.
#[derive(Debug, Drop, PartialEq, Eq)]
pub enum Took {
    /// Nothing: it acted on what was there.
    Nothing,
    /// The connection's end.
    End,
    /// A message that can't be read.
    Unreadable,
    /// A message.
    Message(Message),
}

/// One event at a node.
#[derive(Debug, Drop)]
pub struct Note {
    /// The connection on which it came.
    pub conn: ConnId,
    /// What it took from the connection.
    pub took: Took,
    /// The entry of the replica's book, where it booked one.
    pub receipt: Option<Receipt>,
    /// The block whose book the event looked at without booking, and how many entries that had
    /// then.
    pub seen: Option<(BlockId, u64)>,
    /// What it sent, in order, and on which connections.
    pub sent: SentList,
}

/// The events of a write connection at a node, by the two sides of the member.
#[derive(Debug, Drop)]
pub struct Notes {
    /// The side that takes from upstream.
    pub receiver: NoteList,
    /// The side that takes from the mirror, and acts on what is pending.
    pub responder: NoteList,
}

/// Messages in the order in which they were sent, with their connections, seen as their list.
#[derive(Debug, Drop)]
pub struct SentList {
    messages: Vec<(ConnId, Message)>,
}

impl Model for SentList {
    ghost use Rattle.std.specs.Prelude.{List};
    ghost use Rattle.hd_base.specs.declared.numbers.ConnId.{ConnId};
    ghost use Rattle.frame_feed.specs.declared.notes.Message.{Message};

    ghost Value = { List (ConnId × Message) };

    ghost view = { λ s. s.messages.items };
}

impl SentList {
    /// No message.
    pub fn new(alloc: Global) -> SentList
        ensures { result ≡ [] }
    {
        SentList {
            messages: Vec::new(alloc),
        }
    }

    /// The list of these messages.
    pub fn from_vec(messages: Vec<(ConnId, Message)>) -> SentList
        ensures { result ≡ messages.items }
    {
        SentList { messages }
    }

    /// The messages, in the vector that holds them.
    pub fn into_vec(self) -> Vec<(ConnId, Message)>
        ensures { result.items ≡ self }
    {
        let SentList { messages } = self;
        messages
    }

    /// The messages.
    pub fn as_slice(&self) -> &[(ConnId, Message)]
        ensures { result.now ≡ self.now }
    {
        self.messages.as_slice()
    }

    /// How many messages there are.
    pub fn len(&self) -> usize
        ensures { result ≡ length self.now }
    {
        self.messages.len()
    }

    /// Whether there is no message.
    pub fn is_empty(&self) -> bool
        ensures { result ≡ (length self.now == 0) }
    {
        self.messages.is_empty()
    }

    /// Puts a message behind the others. Want of memory leaves them as they were.
    pub fn push(&mut self, conn: ConnId, message: Message) -> Result<(), AllocError>
        ensures ok { OnOk result (self.new ≡ self.old ++ (conn, message) ∷ []) }
        ensures err { OnErr result (self.new ≡ self.old) }
    {
        self.messages.push((conn, message))?;
        Ok(())
    }
}

/// Events in the order in which they happened, seen as their list.
#[derive(Debug, Drop)]
pub struct NoteList {
    notes: Vec<Note>,
}

impl Model for NoteList {
    ghost use Rattle.std.specs.Prelude.{List};
    ghost use Rattle.frame_feed.specs.declared.notes.Note.{Note};

    ghost Value = { List Note };

    ghost view = { λ l. l.notes.items };
}

impl NoteList {
    /// No event.
    pub fn new(alloc: Global) -> NoteList
        ensures { result ≡ [] }
    {
        NoteList {
            notes: Vec::new(alloc),
        }
    }

    /// The list of these events.
    pub fn from_vec(notes: Vec<Note>) -> NoteList
        ensures { result ≡ notes.items }
    {
        NoteList { notes }
    }

    /// The events, in the vector that holds them.
    pub fn into_vec(self) -> Vec<Note>
        ensures { result.items ≡ self }
    {
        let NoteList { notes } = self;
        notes
    }

    /// The events.
    pub fn as_slice(&self) -> &[Note]
        ensures { result.now ≡ self.now }
    {
        self.notes.as_slice()
    }

    /// How many events there are.
    pub fn len(&self) -> usize
        ensures { result ≡ length self.now }
    {
        self.notes.len()
    }

    /// Whether there is no event.
    pub fn is_empty(&self) -> bool
        ensures { result ≡ (length self.now == 0) }
    {
        self.notes.is_empty()
    }

    /// Puts an event behind the others. Want of memory leaves them as they were.
    pub fn push(&mut self, note: Note) -> Result<(), AllocError>
        ensures ok { OnOk result (self.new ≡ self.old ++ note ∷ []) }
        ensures err { OnErr result (self.new ≡ self.old) }
    {
        self.notes.push(note)?;
        Ok(())
    }
}
