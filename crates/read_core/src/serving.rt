//! The serving of a read.

ghost use Rattle.std.specs.Prelude.{◌≡◌, ◌+◌, ◌^◌, ◌<◌, ◌≤◌, length, IfOk};
ghost use Rattle.chunk_sums.specs.Chunks.{sums};
ghost use Rattle.read_core.specs.Servings.{
  ServingState,
  chunk_start,
  chunk_end,
  most_bytes,
  read_event,
  read_end,
  begun,
  piece_len,
  sent_before,
  next_call,
  packet_of,
  gone_on,
  sent,
  over,
  accepting,
  refusing,
};

use ack_codec::Response;
use bytes::Bytes;
use chunk_sums::{piece_count, write_sums};
use hd_base::{ByteList, Stamp, Status, SumRule};
use op_headers::ReadOp;
use packet_codec::Packet;
use replica_core::Event;
use request_refusals::{RequestRefusal, is_in_pool};
use std::alloc::{AllocError, Global};
use std::marker::Model;

/// How many bytes a packet has at most where a chunk has no more.
pub const MOST_BYTES: u64 = 64_512;

/// How far the serving of a read is.
#[derive(Clone, Copy, Debug, PartialEq, Eq)]
pub enum ServePhase {
    /// A packet is next.
    Sending,
    /// All were sent, and the reader's answer is awaited.
    Awaiting,
    /// The connection is shut.
    Over,
}

/// A read that was answered SUCCESS. It ends at what was visible at its start.
#[derive(Clone, Copy, Debug)]
pub struct Serving {
    named: Stamp,
    rule: SumRule,
    from: u64,
    at: u64,
    end: u64,
    phase: ServePhase,
}

impl Model for Serving {
    ghost use Rattle.read_core.specs.Servings.{ServingState};

    ghost Value = { ServingState };

    ghost view = { λ s. record {
      named = s.named;
      rule = s.rule;
      from = s.from;
      at = s.at;
      end = s.end;
      phase = s.phase;
    } };

    ghost inverse = { λ s. record {
      named = s.named;
      rule = s.rule;
      from = s.from;
      at = s.at;
      end = s.end;
      phase = s.phase;
    } };
}

/// The event that a read is at the replica; or that its block is of another pool, which is tried first.
#[tactic(auto, unfolding(crate::specs::Servings::read_event))]
pub fn read_event(op: &ReadOp) -> Result<Event, RequestRefusal>
    ensures { result ≡ read_event op.now }
{
    if !is_in_pool(&op.block) {
        return Err(RequestRefusal::Pool);
    }
    Ok(Event::Read {
        named: op.block.stamp,
        offset: op.offset,
        length: op.len,
    })
}

impl Serving {
    /// A read that the replica has granted, which has this rule and so many visible bytes.
    #[tactic(auto, unfolding(crate::specs::Servings::begun))]
    pub fn begin(op: &ReadOp, rule: SumRule, visible: u64) -> Serving
        ensures { result ≡ begun op.now rule visible }
    {
        let from = chunk_start(u64::from(rule.chunk()), op.offset);
        Serving {
            named: op.block.stamp,
            rule,
            from,
            at: from,
            end: read_end(rule, op.offset, op.len, visible),
            phase: ServePhase::Sending,
        }
    }

    /// The book call of the next packet, `None` where none is to be sent. The replica may refuse it where a recovery
    /// has cut it meanwhile; the read then ends.
    pub fn next_call(&self) -> Option<Event>
        ensures { result ≡ next_call self.now }
    {
        match self.phase {
            ServePhase::Sending => Some(Event::Read {
                named: self.named,
                offset: self.at,
                length: self.piece_len(),
            }),
            ServePhase::Awaiting | ServePhase::Over => None,
        }
    }

    /// How many bytes the next packet has: none where it is the last one.
    #[tactic(auto, unfolding(crate::specs::Servings::piece_len))]
    pub fn piece_len(&self) -> u64
        ensures value { result ≡ piece_len self.now }
        ensures few { result ≤ 65536 }
        ensures fits { self.now.at + result < 2 ^ 64 }
    {
        let rest = self.end.saturating_sub(self.at);
        rest.min(most_bytes(u64::from(self.rule.chunk())))
    }

    /// The next packet, with these bytes of the replica, as many as `piece_len` says.
    #[tactic(auto, unfolding(crate::specs::Servings::packet_of))]
    pub fn packet(&self, alloc: Global, body: Bytes) -> Result<Packet, AllocError>
        requires { length body ≡ piece_len self.now }
        ensures { IfOk result (λ packet. packet ≡ packet_of self.now body) }
    {
        Ok(Packet {
            offset: self.at.cast_signed(),
            seqno: self.sent_before().cast_signed(),
            last: self.piece_len() == 0,
            sync: false,
            sums: sums(alloc, self.rule, &body)?,
            body,
        })
    }

    /// How many packets were sent.
    #[tactic(auto, unfolding(crate::specs::Servings::sent_before))]
    fn sent_before(&self) -> u64
        ensures { result ≡ sent_before self.now }
    {
        let bytes = self.at.saturating_sub(self.from);
        bytes.div_ceil(most_bytes(u64::from(self.rule.chunk())))
    }

    /// The next packet was sent. Where none is to be sent, nothing changes.
    pub fn sent(&mut self)
        ensures { self.new ≡ sent self.old }
    {
        match self.phase {
            ServePhase::Sending => self.go_on(),
            ServePhase::Awaiting | ServePhase::Over => {}
        }
    }

    /// The read goes on behind its next packet.
    #[tactic(auto, unfolding(crate::specs::Servings::gone_on, crate::specs::Servings::piece_len))]
    fn go_on(&mut self)
        ensures { self.new ≡ gone_on self.old }
    {
        let bytes = self.piece_len();
        self.at += bytes;
        self.phase = if bytes == 0 {
            ServePhase::Awaiting
        } else {
            ServePhase::Sending
        };
    }

    /// The read is over: its next call was refused or failed, or the reader's answer or end was taken. The connection
    /// is shut.
    pub fn end(&mut self)
        ensures { self.new ≡ over self.old }
    {
        self.phase = ServePhase::Over;
    }

    /// The answer to the read.
    pub fn response(&self, alloc: Global) -> Response
        ensures { result ≡ accepting self.now }
    {
        Response {
            status: Status::Success,
            first_bad: ByteList::from_vec(Vec::new(alloc)),
            sums_from: Some((self.rule.kind().number(), self.rule.chunk(), self.from)),
            message: ByteList::from_vec(Vec::new(alloc)),
        }
    }
}

/// The answer to a read that is refused.
pub fn refusal_response(alloc: Global, refusal: RequestRefusal) -> Result<Response, AllocError>
    ensures { IfOk result (λ response. response ≡ refusing refusal) }
{
    Ok(Response {
        status: Status::Error,
        first_bad: ByteList::from_vec(Vec::new(alloc)),
        sums_from: None,
        message: refusal.text(alloc)?,
    })
}

/// The first byte of the chunk that this byte lies in.
pub(crate) fn chunk_start(size: u64, offset: u64) -> u64
    requires { 1 ≤ size }
    ensures { result ≡ chunk_start size offset }
{
    offset - offset % size
}

/// How many bytes a packet has at most.
#[tactic(auto, unfolding(crate::specs::Servings::most_bytes))]
fn most_bytes(size: u64) -> u64
    requires some { 1 ≤ size }
    requires fits { size ≤ 65536 }
    ensures value { result ≡ most_bytes size }
    ensures some { 1 ≤ result }
    ensures few { result ≤ 65536 }
{
    size * (MOST_BYTES / size).max(1)
}

/// Where the packets of a read end, where so many bytes are visible.
#[tactic(auto, unfolding(crate::specs::Servings::read_end))]
fn read_end(rule: SumRule, offset: u64, bytes: u64, visible: u64) -> u64
    ensures { result ≡ read_end rule offset bytes visible }
{
    let size = u64::from(rule.chunk());
    if bytes == 0 {
        return chunk_start(size, offset);
    }
    let asked = offset.saturating_add(bytes);
    let rest = (size - asked % size) % size;
    visible.min(asked.saturating_add(rest))
}

/// The sums of some bytes that begin at a chunk.
fn sums(alloc: Global, rule: SumRule, body: &[u8]) -> Result<Bytes, AllocError>
    requires { length body.now ≤ 65536 }
    ensures { IfOk result (λ all. all ≡ sums rule body.now) }
{
    let chunk = u64::from(rule.chunk());
    let count = piece_count(rule.kind(), body.len() as u64, chunk, chunk) as usize;
    let mut all = vec![in alloc; 0; 4 * count]?;
    write_sums(rule.kind(), body, chunk, chunk, &mut all);
    Ok(Bytes::from_vec(all)?)
}
