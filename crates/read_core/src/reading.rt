//! The reading client.

ghost use Rattle.std.specs.Prelude.{◌≡◌, ◌<◌, ◌^◌, nat_abs, length, IfOk, OnErr};
ghost use Rattle.read_core.specs.Readings.{
  ReadingState,
  asked,
  failing,
  is_success,
  named_rule,
  rule_in,
  accepted,
  answered,
  asked_end,
  is_short,
  IsPlaced,
  place_check,
  has_all_sums,
  unless_bad,
  sums_check,
  wanted,
  kept,
  verified,
  packet_check,
  received,
  while_asked,
  while_receiving,
  take_from,
};

use crate::serving::chunk_start;
use ack_codec::Response;
use chunk_sums::piece_count;
use hd_base::{ByteList, Status, SumRule};
use op_headers::ReadOp;
use packet_codec::Packet;
use replica_model::{bad_chunk, first_len};
use request_refusals::rule_with;
use std::alloc::{AllocError, Global};
use std::marker::Model;
use thiserror::Error;

/// What a reader takes from the node.
#[derive(Debug, Drop, PartialEq, Eq)]
pub enum FromNode {
    /// The answer to the request.
    Response(Response),
    /// A packet.
    Packet(Packet),
    /// What isn't what is to come.
    Unreadable,
    /// The end of the connection.
    End,
}

/// Why a read fails.
#[derive(Debug, Drop, PartialEq, Eq, Error)]
pub enum ReadFault {
    /// The node refused, with this message.
    #[error("the read was refused")]
    Refused { message: ByteList },
    /// The answer names no rule of sums (both numbers are 0 where it names none at all).
    #[error("no sums are of kind {kind} over {chunk} bytes")]
    Rule { kind: u32, chunk: u32 },
    /// The sum of this chunk of the block differs, and those of all before it agree.
    #[error("the sum of chunk {chunk} differs")]
    BadSum { chunk: u64 },
    /// A packet hasn't one sum for each chunk.
    #[error("a packet has not as many sums as chunks")]
    SumCount,
    /// A message isn't what is to come.
    #[error("a message can't be read")]
    Unreadable,
    /// A packet's number or offset isn't the next one, or the last packet stands below the end that was asked for.
    #[error("a packet stands at {got}, expected {want}")]
    OutOfPlace { want: u64, got: i64 },
    /// The connection ended first.
    #[error("the connection ended")]
    Ended,
}

/// How far a read is.
#[derive(Clone, Copy, Debug, PartialEq, Eq)]
pub enum ReadPhase {
    /// The answer is awaited.
    Asked,
    /// A packet with this number is next, with the bytes from here on.
    Receiving { rule: SumRule, at: u64, seqno: u64 },
    /// The read has its result.
    Over,
}

/// What a reader does once it has taken something.
#[derive(Debug, Drop, PartialEq, Eq)]
pub enum ReadTurn {
    /// Nothing yet.
    Goes,
    /// It has all bytes, each under its sum: it answers CHECKSUM_OK and shuts.
    Verified,
    /// The read fails so, and it shuts.
    Fails(ReadFault),
}

/// A read whose request was sent.
#[derive(Debug, Drop)]
pub struct Reading {
    offset: u64,
    len: u64,
    phase: ReadPhase,
    bytes: Vec<u8>,
}

impl Model for Reading {
    ghost use Rattle.read_core.specs.Readings.{ReadingState};

    ghost Value = { ReadingState };

    ghost view = { λ r. record {
      offset = r.offset;
      len = r.len;
      phase = r.phase;
      bytes = r.bytes.items;
    } };
}

impl Reading {
    /// A read whose request was sent.
    pub fn new(alloc: Global, op: &ReadOp) -> Reading
        ensures { result ≡ asked op.now }
    {
        Reading {
            offset: op.offset,
            len: op.len,
            phase: ReadPhase::Asked,
            bytes: Vec::new(alloc),
        }
    }

    /// Takes this from the node. Want of memory changes nothing.
    pub fn take(&mut self, taken: FromNode) -> Result<ReadTurn, AllocError>
        ensures reading { IfOk result (λ _. self.new ≡ (take_from self.old taken).reading) }
        ensures does { IfOk result (λ does. does ≡ (take_from self.old taken).does) }
        ensures err { OnErr result (self.new ≡ self.old) }
    {
        match &self.phase {
            ReadPhase::Asked => Ok(self.while_asked(taken)),
            ReadPhase::Receiving { rule, at, seqno } => {
                let (rule, at, seqno) = (*rule, *at, *seqno);
                self.while_receiving(rule, at, seqno, &taken)
            }
            ReadPhase::Over => Ok(ReadTurn::Goes),
        }
    }

    /// Takes this while the answer is awaited.
    fn while_asked(&mut self, taken: FromNode) -> ReadTurn
        ensures reading { self.new ≡ (while_asked self.old taken).reading }
        ensures does { result ≡ (while_asked self.old taken).does }
    {
        match taken {
            FromNode::Response(response) => self.answered(accepted(response)),
            FromNode::End => self.fail(ReadFault::Ended),
            FromNode::Packet(_) | FromNode::Unreadable => self.fail(ReadFault::Unreadable),
        }
    }

    /// Takes this where a packet with this number is next, with the bytes from here on.
    fn while_receiving(
        &mut self,
        rule: SumRule,
        at: u64,
        seqno: u64,
        taken: &FromNode,
    ) -> Result<ReadTurn, AllocError>
        ensures reading { IfOk result (λ _. self.new ≡ (while_receiving self.old rule at seqno taken.now).reading) }
        ensures does { IfOk result (λ does. does ≡ (while_receiving self.old rule at seqno taken.now).does) }
        ensures err { OnErr result (self.new ≡ self.old) }
    {
        match taken {
            FromNode::Packet(packet) => self.received(rule, at, seqno, packet),
            FromNode::End => Ok(self.fail(ReadFault::Ended)),
            FromNode::Response(_) | FromNode::Unreadable => Ok(self.fail(ReadFault::Unreadable)),
        }
    }

    /// The bytes that were asked for, once all were verified.
    pub fn into_bytes(self) -> Vec<u8>
        ensures { result.items ≡ self.bytes }
    {
        let Reading { bytes, .. } = self;
        bytes
    }

    /// The read ends with this fault.
    fn fail(&mut self, fault: ReadFault) -> ReadTurn
        ensures reading { self.new ≡ (failing self.old fault).reading }
        ensures does { result ≡ (failing self.old fault).does }
    {
        self.phase = ReadPhase::Over;
        ReadTurn::Fails(fault)
    }

    /// The answer was taken.
    fn answered(&mut self, rule: Result<SumRule, ReadFault>) -> ReadTurn
        ensures reading { self.new ≡ (answered self.old rule).reading }
        ensures does { result ≡ (answered self.old rule).does }
    {
        match rule {
            Ok(rule) => {
                let at = chunk_start(u64::from(rule.chunk()), self.offset);
                self.phase = ReadPhase::Receiving { rule, at, seqno: 0 };
                ReadTurn::Goes
            }
            Err(fault) => self.fail(fault),
        }
    }

    /// A packet was taken.
    fn received(
        &mut self,
        rule: SumRule,
        at: u64,
        seqno: u64,
        packet: &Packet,
    ) -> Result<ReadTurn, AllocError>
        ensures reading { IfOk result (λ _. self.new ≡ (received self.old rule at seqno packet.now).reading) }
        ensures does { IfOk result (λ does. does ≡ (received self.old rule at seqno packet.now).does) }
        ensures err { OnErr result (self.new ≡ self.old) }
    {
        match self.check(rule, at, seqno, packet) {
            Ok(()) => self.verified(rule, at, seqno, packet),
            Err(fault) => Ok(self.fail(fault)),
        }
    }

    /// Tries a packet's place, and then its sums.
    fn check(&self, rule: SumRule, at: u64, seqno: u64, packet: &Packet) -> Result<(), ReadFault>
        ensures value { result ≡ packet_check self.now rule at seqno packet.now }
        ensures placed { IfOk result (λ _. IsPlaced at seqno packet.now) }
    {
        self.check_place(at, seqno, packet)?;
        check_sums(rule, at, packet)
    }

    /// Tries a packet's number, its offset, and whether it is the last one too early.
    #[tactic(auto, unfolding(crate::specs::Readings::place_check))]
    fn check_place(&self, at: u64, seqno: u64, packet: &Packet) -> Result<(), ReadFault>
        ensures value { result ≡ place_check self.now at seqno packet.now }
        ensures placed { IfOk result (λ _. IsPlaced at seqno packet.now) }
    {
        if i128::from(packet.seqno) != i128::from(seqno) {
            return Err(ReadFault::OutOfPlace {
                want: seqno,
                got: packet.seqno,
            });
        }
        if i128::from(packet.offset) != i128::from(at) {
            return Err(ReadFault::OutOfPlace {
                want: at,
                got: packet.offset,
            });
        }
        if self.is_short(packet) {
            return Err(ReadFault::OutOfPlace {
                want: self.asked_end(),
                got: packet.offset,
            });
        }
        Ok(())
    }

    /// Where the read ends that was asked for.
    fn asked_end(&self) -> u64
        ensures { result ≡ asked_end self.now }
    {
        self.offset.saturating_add(self.len)
    }

    /// Whether it is the last packet too early.
    fn is_short(&self, packet: &Packet) -> bool
        ensures { result ≡ is_short self.now packet.now }
    {
        packet.last && self.len > 0 && i128::from(packet.offset) < i128::from(self.asked_end())
    }

    /// A packet that was verified.
    fn verified(
        &mut self,
        rule: SumRule,
        at: u64,
        seqno: u64,
        packet: &Packet,
    ) -> Result<ReadTurn, AllocError>
        requires { IsPlaced at seqno packet.now }
        ensures reading { IfOk result (λ _. self.new ≡ (verified self.old rule at seqno packet.now).reading) }
        ensures does { IfOk result (λ does. does ≡ (verified self.old rule at seqno packet.now).does) }
        ensures err { OnErr result (self.new ≡ self.old) }
    {
        self.keep(at, packet)?;
        if packet.last {
            self.phase = ReadPhase::Over;
            return Ok(ReadTurn::Verified);
        }
        self.phase = ReadPhase::Receiving {
            rule,
            at: at + packet.body.len() as u64,
            seqno: seqno + 1,
        };
        Ok(ReadTurn::Goes)
    }

    /// The bytes of a packet that are asked for join those that are there.
    #[tactic(auto, unfolding(crate::specs::Readings::wanted))]
    fn keep(&mut self, at: u64, packet: &Packet) -> Result<(), AllocError>
        ensures ok { IfOk result (λ _. self.new ≡ kept self.old at packet.now) }
        ensures err { OnErr result (self.new ≡ self.old) }
    {
        let body: &[u8] = &packet.body;
        let skipped = self.offset.saturating_sub(at).min(body.len() as u64) as usize;
        let (_, rest) = body.split_at(skipped);
        let missing = self.len.saturating_sub(self.bytes.len() as u64);
        let (kept, _) = rest.split_at(missing.min(rest.len() as u64) as usize);
        self.bytes.extend_from_slice(kept)
    }
}

/// The rule of the sums in an answer that is SUCCESS.
fn accepted(response: Response) -> Result<SumRule, ReadFault>
    ensures { result ≡ accepted response }
{
    if !is_success(response.status) {
        return Err(ReadFault::Refused {
            message: response.message,
        });
    }
    let (kind, chunk, _) = response
        .sums_from
        .ok_or(ReadFault::Rule { kind: 0, chunk: 0 })?;
    rule_with(kind, chunk).ok_or(ReadFault::Rule { kind, chunk })
}

/// Whether a status is SUCCESS.
fn is_success(status: Status) -> bool
    ensures { result ≡ is_success status }
{
    matches!(status, Status::Success)
}

/// Tries whether a packet that begins here has all its sums, and none differs.
#[tactic(auto, unfolding(crate::specs::Readings::sums_check))]
fn check_sums(rule: SumRule, at: u64, packet: &Packet) -> Result<(), ReadFault>
    requires begins { nat_abs packet.now.offset ≡ at }
    requires short { at < 2 ^ 63 }
    ensures { result ≡ sums_check rule at packet.now }
{
    if !has_all_sums(rule, at, packet) {
        return Err(ReadFault::SumCount);
    }
    if let Some(bad) = bad_chunk(rule, packet) {
        return Err(ReadFault::BadSum {
            chunk: at / u64::from(rule.chunk()) + bad,
        });
    }
    Ok(())
}

/// Whether a packet that begins here has as many sums, of four bytes each, as its body has chunks under the rule.
fn has_all_sums(rule: SumRule, at: u64, packet: &Packet) -> bool
    ensures value { result ≡ has_all_sums rule at packet.now }
    ensures short { length packet.now.sums < 2 ^ 64 }
{
    let chunk = u64::from(rule.chunk());
    let count = piece_count(
        rule.kind(),
        packet.body.len() as u64,
        first_len(rule, at),
        chunk,
    );
    packet.sums.len() % 4 == 0 && packet.sums.len() as u64 / 4 == count
}
