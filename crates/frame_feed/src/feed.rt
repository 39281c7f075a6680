//! The feed.

ghost use Rattle.std.specs.Prelude.{◌≡◌, ◌≤◌, [], IfOk, IfErr, IfSome, OnOk, OnErr, OnSome};
ghost use Rattle.hd_base.specs.Bytes.{IsBytes};
ghost use Rattle.frame_feed.specs.Faults.{IsOfStream, IsAnswer};
ghost use Rattle.frame_feed.specs.Framings.{IsCut, missing, missing_of as missing_in};
ghost use Rattle.frame_feed.specs.Kinds.{requests, packets, packet_frames, acks, responses, answers, read_statuses};
ghost use Rattle.frame_feed.specs.Feeds.{holding, with_piece, TakesNext, AnswersAsRead};

use crate::buffer::Buffer;
use crate::faults::{FeedFault, NoMessage};
use crate::framing::Framing;
use crate::kinds::Kind;
use crate::packet_frames::PacketFrame;
use ack_codec::{Ack, Response};
use hd_base::Status;
use op_headers::{Op, RecoveryAnswer};
use packet_codec::Packet;
use std::alloc::{AllocError, Global};
use std::marker::Model;

/// Takes messages off a stream whose bytes come in any pieces. The caller says which kind of
/// message comes next. A call answers `None` while that message isn't whole, and a fault where no
/// message of the kind begins so; from then on every call answers that fault. Want of memory is
/// `FeedFault::Memory` alone, and changes nothing.
#[derive(Debug, Drop)]
pub struct Feed {
    /// The bytes that are not yet taken.
    buffer: Buffer,
    /// How the message at the front was framed when it was last asked for, and how many bytes it
    /// has, once that shows.
    known: Option<(Framing, usize)>,
    /// The fault that is answered for good.
    refused: Option<FeedFault>,
    /// How many bytes the message at the front lacks, where the last call waits for them.
    wanted: u64,
}

impl Model for Feed {
    ghost use Rattle.std.specs.Prelude.{◌++◌};
    ghost use Rattle.frame_feed.specs.Feeds.{FeedState, IsKnown, IsRefusal};

    ghost Value = { FeedState };

    ghost view = { λ f. record {
      rest = f.buffer.front ++ f.buffer.bytes.items;
      refused = f.refused;
      wanted = f.wanted;
    } };

    ghost invariant = { λ f. IsKnown f.known (f.buffer.front ++ f.buffer.bytes.items) × IsRefusal f.refused };
}

impl Feed {
    /// A feed that nothing was pushed to. It has room for the first bytes.
    pub fn new(alloc: Global) -> Result<Feed, AllocError>
        ensures { IfOk result (λ feed. feed ≡ holding []) }
    {
        Ok(Feed {
            buffer: Buffer::new(alloc)?,
            known: None,
            refused: None,
            wanted: 0,
        })
    }

    /// Puts a piece of the stream behind what was pushed before. Where the last call waits for a
    /// message whose length shows, it makes room for the whole of it first, so that the message's
    /// bytes are moved once at most. Want of memory changes nothing.
    pub fn push(&mut self, piece: &[u8]) -> Result<(), AllocError>
        ensures ok { OnOk result (self.new ≡ with_piece self.old piece.now) }
        ensures err { OnErr result (self.new ≡ self.old) }
    {
        self.buffer.push(piece, self.wanted as usize)?;
        self.wanted = 0;
        Ok(())
    }

    /// The request at the front.
    pub fn next_op(&mut self) -> Result<Option<Op>, FeedFault>
        ensures takes { TakesNext requests self.old result self.new }
        ensures of_stream { IfErr result IsAnswer }
    {
        self.next()
    }

    /// The packet at the front. Its sums and its body share the bytes that were pushed.
    pub fn next_packet(&mut self) -> Result<Option<Packet>, FeedFault>
        ensures takes { TakesNext packets self.old result self.new }
        ensures of_stream { IfErr result IsAnswer }
    {
        self.next()
    }

    /// The packet at the front, with the bytes that spell it. They, its sums and its body share the bytes that were pushed.
    pub fn next_packet_frame(&mut self) -> Result<Option<PacketFrame>, FeedFault>
        ensures takes { TakesNext packet_frames self.old result self.new }
        ensures of_stream { IfErr result IsAnswer }
    {
        self.next()
    }

    /// The ack at the front.
    pub fn next_ack(&mut self) -> Result<Option<Ack>, FeedFault>
        ensures takes { TakesNext acks self.old result self.new }
        ensures of_stream { IfErr result IsAnswer }
    {
        self.next()
    }

    /// The response at the front.
    pub fn next_response(&mut self) -> Result<Option<Response>, FeedFault>
        ensures takes { TakesNext responses self.old result self.new }
        ensures of_stream { IfErr result IsAnswer }
    {
        self.next()
    }

    /// The answer of a recovery at the front.
    pub fn next_answer(&mut self) -> Result<Option<RecoveryAnswer>, FeedFault>
        ensures takes { TakesNext answers self.old result self.new }
        ensures of_stream { IfErr result IsAnswer }
    {
        self.next()
    }

    /// The status at the front that a reader answers with. Its fault is `FeedFault::Ack`.
    pub fn next_read_status(&mut self) -> Result<Option<Status>, FeedFault>
        ensures takes { TakesNext read_statuses self.old result self.new }
        ensures of_stream { IfErr result IsAnswer }
    {
        self.next()
    }

    /// After a call for the next message that answered `None`: how many bytes the message at the
    /// front still lacks, where those that are there tell its length, else 1. At other times 0. It
    /// takes no memory.
    pub fn wanted(&self) -> u64
        ensures { result ≡ self.now.wanted }
    {
        self.wanted
    }

    /// The message of this kind at the front.
    fn next<M: Kind>(&mut self) -> Result<Option<M>, FeedFault>
        ensures takes { TakesNext M.kind self.old result self.new }
        ensures of_stream { IfErr result IsAnswer }
    {
        if let Some(fault) = self.refused() {
            return Err(fault);
        }
        if let Some(missing) = self.known_missing(M::framing()) {
            self.wait(missing);
            return Ok(None);
        }
        self.take()
    }

    /// The fault that is answered for good, if there is one so far.
    pub fn refused(&self) -> Option<FeedFault>
        ensures fault { result ≡ self.now.refused }
        ensures of_stream { IfSome result IsOfStream }
    {
        self.refused
    }

    /// How many bytes the message at the front lacks, where it is known to lack some.
    fn known_missing(&self, framing: Framing) -> Option<u64>
        ensures cut { OnSome result (IsCut framing self.now.rest) }
        ensures missing { IfSome result (λ n. n ≡ missing framing self.now.rest) }
        ensures bytes { IsBytes self.now.rest }
    {
        let len = self.buffer.len();
        match self.known {
            Some((known, size)) if known == framing && len < size => Some((size - len) as u64),
            _ => None,
        }
    }

    /// Waits for so many bytes.
    fn wait(&mut self, missing: u64)
        ensures { self.new ≡ record self.old { wanted = missing } }
    {
        self.wanted = missing;
    }

    /// Takes the message of this kind off the front.
    fn take<M: Kind>(&mut self) -> Result<Option<M>, FeedFault>
        requires going { self.old.refused ≡ None }
        requires bytes { IsBytes self.old.rest }
        ensures { AnswersAsRead M.kind self.old result self.new }
    {
        if self.buffer.join().is_err() {
            return Err(FeedFault::Memory);
        }
        match M::take(&mut self.buffer) {
            Ok(message) => {
                self.known = None;
                self.wanted = 0;
                Ok(Some(message))
            }
            Err(NoMessage::Memory) => Err(FeedFault::Memory),
            Err(NoMessage::Short) => {
                let size = M::framing().size(self.buffer.as_slice());
                self.wanted = missing_of(size, self.buffer.len());
                self.known = size.map(|size| (M::framing(), size));
                Ok(None)
            }
            Err(NoMessage::Refused(fault)) => {
                self.known = None;
                self.refused = Some(fault);
                self.wanted = 0;
                Err(fault)
            }
        }
    }
}

/// How many bytes are missing of a message of this size, of which so many are there; 1 where the
/// size doesn't show.
fn missing_of(size: Option<usize>, len: usize) -> u64
    requires { IfSome size (λ size. len ≤ size) }
    ensures { result ≡ missing_in size len }
{
    match size {
        Some(size) => (size - len) as u64,
        None => 1,
    }
}
