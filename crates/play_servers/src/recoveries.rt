//! A node's side of a connection that a primary dialled.

ghost use Rattle.std.specs.Prelude.{◌≡◌, IfOk};
ghost use Rattle.hd_base.specs.Ends.{IsKnown};
ghost use Rattle.recovery_events.specs.MemberEvents.Roads.{RoadsPass};
ghost use Rattle.play_servers.specs.Answering.{
  answer_conn,
  AnswerIsKnown,
  answer_place,
  answered_of,
  answers_left,
  answer_fault,
  Answers,
  GoesOn,
  IsFollowed,
  HasEnded,
};
ghost use Rattle.play_servers.specs.Recoveries.{IdleShows, EndShowsDown, DownShows};

use crate::servers::ServerEvent;
use hd_base::{BlockId, Conn, ConnId, Files, LinkIn, LinkOut, Roads};
use op_headers::{Op, RecoveryOp};
use recovery_events::{
    FirstRequest, Incoming, MemberFault, Outcome, Recovering, RecoveryFault, ReplicaBook,
    first_request, recover_down, recover_request,
};
use std::alloc::Global;
use std::mem;

/// The lower end of a connection that a primary dialled.
#[derive(Drop)]
pub enum AnswerEnd<I, O> {
    /// It has taken nothing yet.
    Idle(Conn<I, O>),
    /// It answers the primary, with the book at this place among those of its node.
    Answering {
        recovering: Recovering<I, O>,
        place: usize,
    },
    /// It has no further events.
    Ended,
}

/// A node's side of a connection that a primary dialled.
#[derive(Drop)]
pub struct RecoveryServer<I, O> {
    /// The connection.
    pub conn: ConnId,
    /// Its lower end.
    pub end: AnswerEnd<I, O>,
}

/// What an event leaves: the end, and how it ended.
#[derive(Drop)]
pub(crate) struct Answered<I, O> {
    pub end: AnswerEnd<I, O>,
    pub event: ServerEvent,
}

impl<I: LinkIn, O: LinkOut> RecoveryServer<I, O> {
    /// The connection whose end it has, where it goes on: the roads must know it in each event.
    pub fn open_conn(&self) -> Option<ConnId>
        ensures { result ≡ answer_conn self.now.end }
    {
        match &self.end {
            AnswerEnd::Idle(end) => Some(end.id),
            AnswerEnd::Answering { recovering, .. } => Some(recovering.end.id),
            AnswerEnd::Ended => None,
        }
    }

    /// The lower end takes what stands next: a request of a block recovery, which is booked and answered, or what ends
    /// the connection. The books are those of the connection's node, one for each of the blocks.
    ///
    /// After a fault the lower end has no further events.
    pub fn down<R: Roads<Inward = I, Outward = O>, F: Files>(
        &mut self,
        alloc: Global,
        roads: &mut R,
        blocks: &[BlockId],
        books: &mut [ReplicaBook<F>],
    ) -> Result<ServerEvent, RecoveryFault>
        requires { AnswerIsKnown (R.plain roads.old) self.old.end }
        ensures shows { DownShows F.Files R.Roads I.LinkIn O.LinkOut blocks.now
            self.old self.new books.old books.new roads.old roads.new result }
        ensures failed { HasEnded self.old self.new result }
        ensures pass { RoadsPass R.Roads roads.old roads.new }
        ensures known { AnswerIsKnown (R.plain roads.new) self.new.end }
    {
        let end = mem::replace(&mut self.end, AnswerEnd::Ended);
        let left = take(alloc, roads, blocks, books, end);
        self.follow(left)
    }

    /// What follows an event of which this is left.
    fn follow(
        &mut self,
        left: Result<Answered<I, O>, RecoveryFault>,
    ) -> Result<ServerEvent, RecoveryFault>
        ensures { IsFollowed self.old self.new left result }
    {
        let left = left?;
        self.end = left.end;
        Ok(left.event)
    }
}

impl<I: LinkIn, O: LinkOut> Answered<I, O> {
    /// The connection has ended.
    fn ended() -> Answered<I, O>
        ensures { result ≡ record { end = AnswerEnd.Ended; event = ServerEvent.Done } }
    {
        Answered {
            end: AnswerEnd::Ended,
            event: ServerEvent::Done,
        }
    }

    /// What is left of an end that goes on, with the book at a place.
    fn of(place: usize, outcome: Outcome<Recovering<I, O>>) -> Answered<I, O>
        ensures { result ≡ answered_of place outcome }
    {
        match outcome {
            Outcome::Done(recovering) => Answered {
                end: AnswerEnd::Answering { recovering, place },
                event: ServerEvent::Done,
            },
            Outcome::Faulted(recovering) => Answered {
                end: AnswerEnd::Answering { recovering, place },
                event: ServerEvent::Broke,
            },
        }
    }

    /// What is left of an end that goes on or has ended.
    fn left(place: usize, outcome: Outcome<Option<Recovering<I, O>>>) -> Answered<I, O>
        ensures { result ≡ answers_left place outcome }
    {
        match outcome {
            Outcome::Done(Some(recovering)) => Answered::of(place, Outcome::Done(recovering)),
            Outcome::Faulted(Some(recovering)) => Answered::of(place, Outcome::Faulted(recovering)),
            Outcome::Done(None) | Outcome::Faulted(None) => Answered::ended(),
        }
    }
}

/// What is left of an end that takes what stands next.
fn take<I: LinkIn, O: LinkOut, R: Roads<Inward = I, Outward = O>, F: Files>(
    alloc: Global,
    roads: &mut R,
    blocks: &[BlockId],
    books: &mut [ReplicaBook<F>],
    end: AnswerEnd<I, O>,
) -> Result<Answered<I, O>, RecoveryFault>
    requires { AnswerIsKnown (R.plain roads.old) end }
    ensures shows { EndShowsDown F.Files R.Roads I.LinkIn O.LinkOut blocks.now
        end books.old books.new roads.old roads.new result }
    ensures pass { RoadsPass R.Roads roads.old roads.new }
    ensures known { IfOk result (λ left. AnswerIsKnown (R.plain roads.new) left.end) }
{
    match end {
        AnswerEnd::Idle(end) => take_first(alloc, roads, blocks, books, end),
        AnswerEnd::Answering { recovering, place } => {
            go_on(alloc, roads, books, recovering, place)
        }
        AnswerEnd::Ended => Ok(Answered::ended()),
    }
}

/// Takes what stands next where nothing was taken yet.
fn take_first<I: LinkIn, O: LinkOut, R: Roads<Inward = I, Outward = O>, F: Files>(
    alloc: Global,
    roads: &mut R,
    blocks: &[BlockId],
    books: &mut [ReplicaBook<F>],
    end: Conn<I, O>,
) -> Result<Answered<I, O>, RecoveryFault>
    requires { IsKnown (R.plain roads.old) end.id.0 }
    ensures shows { IdleShows F.Files R.Roads I.LinkIn O.LinkOut blocks.now
        end books.old books.new roads.old roads.new result }
    ensures pass { RoadsPass R.Roads roads.old roads.new }
    ensures known { IfOk result (λ left. AnswerIsKnown (R.plain roads.new) left.end) }
{
    match first_request(alloc, roads, end) {
        Ok(Some(first)) => answer(alloc, roads, blocks, books, first),
        Ok(None) => Ok(Answered::ended()),
        Err(fault) => Err(answer_fault(fault)),
    }
}

/// Answers the first request. Nothing is done where it isn't one of a recovery, or where there is no book of its block.
fn answer<I: LinkIn, O: LinkOut, R: Roads<Inward = I, Outward = O>, F: Files>(
    alloc: Global,
    roads: &mut R,
    blocks: &[BlockId],
    books: &mut [ReplicaBook<F>],
    first: FirstRequest<I, O>,
) -> Result<Answered<I, O>, RecoveryFault>
    requires { IsKnown (R.plain roads.old) first.end.id.0 }
    ensures answers { Answers F.Files R.Roads I.LinkIn O.LinkOut blocks.now
        first books.old books.new roads.old roads.new result }
    ensures pass { RoadsPass R.Roads roads.old roads.new }
    ensures known { IfOk result (λ left. AnswerIsKnown (R.plain roads.new) left.end) }
{
    let FirstRequest { end, op } = first;
    let Op::Recovery(asked) = op else {
        return Ok(Answered::ended());
    };
    let Some(place) = answer_place(blocks, &asked) else {
        return Ok(Answered::ended());
    };
    if place >= books.len() {
        return Ok(Answered::ended());
    }
    let Ok(incoming) = Incoming::new(alloc) else {
        return Err(RecoveryFault::Memory);
    };
    match recover_request(alloc, roads, &mut books[place], end, incoming, asked) {
        Ok(outcome) => Ok(Answered::of(place, outcome)),
        Err(fault) => Err(fault),
    }
}

/// Takes what stands next behind the first request. Nothing is done where there is no such book.
fn go_on<I: LinkIn, O: LinkOut, R: Roads<Inward = I, Outward = O>, F: Files>(
    alloc: Global,
    roads: &mut R,
    books: &mut [ReplicaBook<F>],
    recovering: Recovering<I, O>,
    place: usize,
) -> Result<Answered<I, O>, RecoveryFault>
    requires { IsKnown (R.plain roads.old) recovering.end.id.0 }
    ensures goes_on { GoesOn F.Files R.Roads I.LinkIn O.LinkOut place
        recovering books.old books.new roads.old roads.new result }
    ensures pass { RoadsPass R.Roads roads.old roads.new }
    ensures known { IfOk result (λ left. AnswerIsKnown (R.plain roads.new) left.end) }
{
    if place >= books.len() {
        return Ok(Answered::ended());
    }
    match recover_down(alloc, roads, &mut books[place], recovering) {
        Ok(outcome) => Ok(Answered::left(place, outcome)),
        Err(fault) => Err(fault),
    }
}

/// The place of the block of a request among these.
fn answer_place(blocks: &[BlockId], asked: &RecoveryOp) -> Option<usize>
    ensures { result ≡ answer_place blocks.now asked.now }
{
    let block = asked.block.block;
    blocks.iter().position(|other| other.0 == block.0)
}

/// Why an end takes no first message.
fn answer_fault(fault: MemberFault) -> RecoveryFault
    ensures { result ≡ answer_fault fault }
{
    match fault {
        MemberFault::LinkFailed => RecoveryFault::LinkFailed,
        MemberFault::RoadsFailed => RecoveryFault::RoadsFailed,
        MemberFault::FilesFailed | MemberFault::Memory => RecoveryFault::Memory,
    }
}
