//! What a reading client does on its connection, step by step.

ghost use Rattle.std.specs.Prelude.{◌≡◌, pos, length, true, IfOk, Some, is_some};
ghost use Rattle.visible_read.specs.Talking.{
  FitsRequest,
  Begins,
  Steps,
  Asks,
  Listens,
  Follows,
  Takes,
  TakesAs,
  Verifies,
  Finishes,
  Fails,
  TellsFault,
  sums_len,
  unreadable_as,
  SendsStatus,
  StaysOpen,
};

use crate::hearing::{Came, hear};
use ack_codec::ResponseFault;
use frame_feed::FeedFault;
use hd_base::{Conn, LinkIn, LinkOut};
use link_messages::Incoming;
use link_pieces::{send_piece, take_room};
use op_headers::{Op, ReadOp, encode_op};
use packet_codec::PacketFault;
use pipe_turns::{Done, send_alone};
use read_core::{FromNode, ReadFault as CoreFault, ReadTurn, Reading as CoreReading};
use std::alloc::{AllocError, Global};
use thiserror::Error;

/// The status CHECKSUM_OK as it is written (HDFS `ClientReadStatusProto`).
const CHECKSUM_OK: [u8; 3] = [2, 8, 6];

/// Why a read fails.
#[derive(Debug, Drop, Error)]
pub enum ReadFault {
    /// The node refused, with this message.
    #[error("the read was refused")]
    Refused { message: Vec<u8> },
    /// The sum of this chunk of the block differs, and those of all before it agree.
    #[error("the sum of chunk {chunk} differs")]
    BadSum { chunk: u64 },
    /// A message can't be read, or a packet hasn't one sum for each chunk (`SumCount`).
    #[error("a message can't be read: {0}")]
    Malformed(FeedFault),
    /// A packet's number or offset isn't the next one, or the last packet stands below the end that was asked for.
    #[error("a packet stands at {got}, expected {want}")]
    OutOfPlace { want: u64, got: i64 },
    /// The answer names no rule of sums (both numbers are 0 where it names none at all).
    #[error("no sums are of kind {kind} over {chunk} bytes")]
    Rule { kind: u32, chunk: u32 },
    /// The connection ended first.
    #[error("the connection ended")]
    Ended,
    /// The link failed, and its count of faults rose.
    #[error("the link failed")]
    LinkFailed,
    /// Memory ran out.
    #[error("out of memory")]
    Memory,
}

/// How a step of a read ended.
#[derive(Debug, Drop)]
pub enum ReadStep {
    /// The request was sent, or a message taken, and the read goes on.
    Moved,
    /// No whole message and no end stands next.
    Waiting,
    /// The read has its result, and its connection is shut.
    Ended(Result<Vec<u8>, ReadFault>),
}

/// How far a reading client is: its request until that is sent, what was received and not yet taken, whether the answer
/// was taken, and the read until it has its result.
#[derive(Drop)]
pub(crate) struct Talk {
    request: Option<Vec<u8>>,
    incoming: Incoming,
    answered: bool,
    core: Option<CoreReading>,
}

impl Talk {
    /// A read of which nothing was done. The request's message has at most 65,536 bytes.
    pub fn new(alloc: Global, op: ReadOp) -> Result<Talk, AllocError>
        requires { FitsRequest op }
        ensures { IfOk result (Begins op) }
    {
        let core = CoreReading::new(alloc, &op);
        let incoming = Incoming::new(alloc)?;
        let mut text = Vec::new(alloc);
        encode_op(&Op::Read(op), &mut text)?;
        Ok(Talk {
            request: Some(text),
            incoming,
            answered: false,
            core: Some(core),
        })
    }

    /// Whether the read goes on: it has no result so far.
    pub fn is_open(&self) -> bool
        ensures { result ≡ is_some self.now.core }
    {
        self.core.is_some()
    }

    /// Sends the request; after that takes what comes next from the node. Once all bytes are there, each under its
    /// sum, it answers CHECKSUM_OK. A read that has its result shuts the connection.
    pub fn step<I: LinkIn, O: LinkOut>(&mut self, alloc: Global, end: &mut Conn<I, O>) -> ReadStep
        requires { is_some self.old.core ≡ true }
        ensures steps { Steps I.LinkIn O.LinkOut self.old self.new end.old end.new result }
        ensures still { StaysOpen result self.new.core }
    {
        match &self.request {
            Some(_) => self.ask(alloc, end),
            None => self.listen(alloc, end),
        }
    }

    /// Sends the request.
    fn ask<I: LinkIn, O: LinkOut>(&mut self, alloc: Global, end: &mut Conn<I, O>) -> ReadStep
        requires { is_some self.old.core ≡ true }
        ensures asks { Asks O.LinkOut self.old self.new end.old end.new result }
        ensures still { StaysOpen result self.new.core }
    {
        let done = send_alone(alloc, &self.request, &mut end.outward);
        self.request = None;
        match done {
            Done::Memory => self.fail(end, ReadFault::Memory),
            Done::LinkFailed { .. } => self.fail(end, ReadFault::LinkFailed),
            _ => ReadStep::Moved,
        }
    }

    /// Takes what comes next from the node.
    fn listen<I: LinkIn, O: LinkOut>(&mut self, alloc: Global, end: &mut Conn<I, O>) -> ReadStep
        requires { is_some self.old.core ≡ true }
        ensures listens { Listens I.LinkIn O.LinkOut self.old self.new end.old end.new result }
        ensures still { StaysOpen result self.new.core }
    {
        let came = hear(self.answered, &mut self.incoming, &mut end.inward);
        self.follow(alloc, end, came)
    }

    /// Follows what came.
    fn follow<I: LinkIn, O: LinkOut>(
        &mut self,
        alloc: Global,
        end: &mut Conn<I, O>,
        came: Came,
    ) -> ReadStep
        requires { is_some self.old.core ≡ true }
        ensures follows { Follows O.LinkOut came self.old self.new end.old end.new result }
        ensures still { StaysOpen result self.new.core }
    {
        match came {
            Came::Taken(taken) => self.take(alloc, end, taken),
            Came::NotYet => ReadStep::Waiting,
            Came::LinkFailed => self.fail(end, ReadFault::LinkFailed),
            Came::Memory => self.fail(end, ReadFault::Memory),
        }
    }

    /// Takes this from the node.
    fn take<I: LinkIn, O: LinkOut>(
        &mut self,
        alloc: Global,
        end: &mut Conn<I, O>,
        taken: FromNode,
    ) -> ReadStep
        requires { is_some self.old.core ≡ true }
        ensures takes { Takes O.LinkOut taken self.old.core self.old self.new end.old end.new result }
        ensures still { StaysOpen result self.new.core }
    {
        let Some(core) = self.core.take() else {
            unreachable!();
        };
        let mut core = core;
        let sums = sums_len(&taken);
        let Ok(turn) = core.take(taken) else {
            return self.fail(end, ReadFault::Memory);
        };
        self.turn(alloc, end, core, turn, sums)
    }

    /// Does what the read says, which was taken out. What was taken before had so many bytes of sums.
    fn turn<I: LinkIn, O: LinkOut>(
        &mut self,
        alloc: Global,
        end: &mut Conn<I, O>,
        core: CoreReading,
        turn: ReadTurn,
        sums: i64,
    ) -> ReadStep
        ensures does { TakesAs O.LinkOut sums turn core self.old self.new end.old end.new result }
        ensures still { StaysOpen result self.new.core }
    {
        match turn {
            ReadTurn::Goes => {
                self.answered = true;
                self.core = Some(core);
                ReadStep::Moved
            }
            ReadTurn::Verified => self.verify(alloc, end, core),
            ReadTurn::Fails(fault) => {
                let fault = told(fault, self.incoming.fault(), sums);
                self.fail(end, fault)
            }
        }
    }

    /// All bytes are there, each under its sum: answers CHECKSUM_OK.
    fn verify<I: LinkIn, O: LinkOut>(
        &mut self,
        alloc: Global,
        end: &mut Conn<I, O>,
        core: CoreReading,
    ) -> ReadStep
        ensures verifies { Verifies O.LinkOut core self.old self.new end.old end.new result }
        ensures still { StaysOpen result self.new.core }
    {
        match send_status(alloc, &mut end.outward) {
            Done::Memory => self.fail(end, ReadFault::Memory),
            Done::LinkFailed { .. } => self.fail(end, ReadFault::LinkFailed),
            _ => self.finish(end, core),
        }
    }

    /// The read has all bytes.
    fn finish<I: LinkIn, O: LinkOut>(&mut self, end: &mut Conn<I, O>, core: CoreReading) -> ReadStep
        ensures finishes { Finishes O.LinkOut core self.old self.new end.old end.new result }
        ensures still { StaysOpen result self.new.core }
    {
        self.core = None;
        end.outward.shut();
        ReadStep::Ended(Ok(core.into_bytes()))
    }

    /// The read fails.
    fn fail<I: LinkIn, O: LinkOut>(&mut self, end: &mut Conn<I, O>, fault: ReadFault) -> ReadStep
        ensures fails { Fails O.LinkOut fault self.old self.new end.old end.new result }
        ensures still { StaysOpen result self.new.core }
    {
        self.core = None;
        end.outward.shut();
        ReadStep::Ended(Err(fault))
    }
}

/// Why the read fails, by the fault of the read, the feed's, and how many bytes of sums what was taken last had.
fn told(fault: CoreFault, refused: Option<FeedFault>, sums: i64) -> ReadFault
    ensures { TellsFault refused sums fault result }
{
    match fault {
        CoreFault::Refused { message } => ReadFault::Refused {
            message: message.into_vec(),
        },
        CoreFault::BadSum { chunk } => ReadFault::BadSum { chunk },
        CoreFault::SumCount => {
            ReadFault::Malformed(FeedFault::Packet(PacketFault::SumCount { rest: sums }))
        }
        CoreFault::Unreadable => ReadFault::Malformed(unreadable_as(refused)),
        CoreFault::OutOfPlace { want, got } => ReadFault::OutOfPlace { want, got },
        CoreFault::Rule { kind, chunk } => ReadFault::Rule { kind, chunk },
        CoreFault::Ended => ReadFault::Ended,
    }
}

/// Why a message is malformed that can't be read: the feed's fault. Without one it is a packet in place of the answer,
/// or an answer behind the first, which counts as an answer without its status.
fn unreadable_as(refused: Option<FeedFault>) -> FeedFault
    ensures { result ≡ unreadable_as refused }
{
    match refused {
        Some(fault) => fault,
        None => FeedFault::Response(ResponseFault::Missing { field: 1 }),
    }
}

/// How many bytes of sums a packet has, 0 of anything else.
fn sums_len(taken: &FromNode) -> i64
    ensures { result ≡ sums_len taken.now }
{
    match taken {
        FromNode::Packet(packet) => len_of(packet.sums.as_slice()),
        FromNode::Response(_) | FromNode::Unreadable | FromNode::End => 0,
    }
}

/// How many bytes there are.
fn len_of(bytes: &[u8]) -> i64
    ensures { result ≡ pos (length bytes.now) }
{
    bytes.len() as i64
}

/// Sends CHECKSUM_OK.
fn send_status<O: LinkOut>(alloc: Global, outward: &mut O) -> Done
    ensures { SendsStatus O.LinkOut result outward.old outward.new }
{
    if take_room(alloc, outward, CHECKSUM_OK.len()).is_err() {
        return Done::Memory;
    }
    match send_piece(outward, &CHECKSUM_OK) {
        Ok(_) => Done::Taken { receipt: None },
        Err(_) => Done::LinkFailed { receipt: None },
    }
}
