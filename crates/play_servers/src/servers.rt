//! A node's side of a connection that a reader dialled.

ghost use Rattle.std.specs.Prelude.{◌≡◌};
ghost use Rattle.play_servers.specs.Known.{end_conn};
ghost use Rattle.play_servers.specs.Places.{place_of, left_of};

use hd_base::{BlockId, Conn, ConnId, LinkIn, LinkOut};
use op_headers::ReadOp;
use serving_events::{Outcome, ServedRead};

/// The lower end of a connection that a reader dialled.
#[derive(Drop)]
pub enum ReadEnd<I, O> {
    /// It has taken nothing yet.
    Idle(Conn<I, O>),
    /// It serves a read, with the book at this place among those of its node.
    Serving {
        read: ServedRead<I, O>,
        place: usize,
    },
    /// It has no further events.
    Ended,
}

/// A node's side of a connection that a reader dialled.
#[derive(Drop)]
pub struct ReadServer<I, O> {
    /// The connection.
    pub conn: ConnId,
    /// Its lower end.
    pub end: ReadEnd<I, O>,
}

impl<I: LinkIn, O: LinkOut> ReadServer<I, O> {
    /// The connection whose end it has, where it goes on: the roads must know it in each event.
    pub fn open_conn(&self) -> Option<ConnId>
        ensures { result ≡ end_conn self.now.end }
    {
        match &self.end {
            ReadEnd::Idle(end) => Some(end.id),
            ReadEnd::Serving { read, .. } => Some(read.end.id),
            ReadEnd::Ended => None,
        }
    }
}

/// How an event of a node that serves a read ended.
#[derive(Clone, Copy, Debug, PartialEq, Eq)]
pub enum ServerEvent {
    /// It was done.
    Done,
    /// The call on the replica's files failed in it, and the drawer's count rose: the replica broke.
    Broke,
}

/// What an event leaves: the end, and how it ended.
#[derive(Drop)]
pub(crate) struct Left<I, O> {
    pub end: ReadEnd<I, O>,
    pub event: ServerEvent,
}

impl<I: LinkIn, O: LinkOut> Left<I, O> {
    /// The connection has ended in an event that was done.
    pub(crate) fn ended() -> Left<I, O>
        ensures { result ≡ record { end = ReadEnd.Ended; event = ServerEvent.Done } }
    {
        Left {
            end: ReadEnd::Ended,
            event: ServerEvent::Done,
        }
    }

    /// What is left of the serving of a read with the book at a place.
    pub(crate) fn of(place: usize, outcome: Outcome<I, O>) -> Left<I, O>
        ensures { result ≡ left_of place outcome }
    {
        match outcome {
            Outcome::Serves(read) => Left {
                end: ReadEnd::Serving { read, place },
                event: ServerEvent::Done,
            },
            Outcome::Ended => Left::ended(),
            Outcome::Faulted => Left {
                end: ReadEnd::Ended,
                event: ServerEvent::Broke,
            },
        }
    }
}

/// The place of the block of a request among these.
pub(crate) fn place_of(blocks: &[BlockId], read: &ReadOp) -> Option<usize>
    ensures { result ≡ place_of blocks.now read.now }
{
    let block = read.block.block;
    blocks.iter().position(|other| other.0 == block.0)
}
