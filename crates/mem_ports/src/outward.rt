//! The outward half of a connection's end in memory.

ghost use Rattle.std.specs.Prelude.{◌≡◌, ◌+◌, ◌≤◌, Some, None, [], false, IsNone, OnOk, drop, vec_len};
ghost use Rattle.hd_base.specs.Channels.{unflushed};
ghost use Rattle.mem_ports.specs.Schedules.{coming};
ghost use Rattle.mem_ports.specs.Pieces.{pieces_of, sent_of, fresh_count, lost_of, room_of};

use crate::schedules::FaultSchedule;
use hd_base::{LinkError, LinkOut};
use std::alloc::{AllocError, Global};
use std::mem;
use std::sync::Arc;

/// Keeps the pieces that were sent. The latest stands apart until there is memory to share it.
#[derive(Debug, Drop)]
pub struct MemOut {
    pub(crate) sent: Vec<Arc<Vec<u8>>>,
    pub(crate) fresh: Option<Vec<u8>>,
    /// Memory for the next piece.
    pub(crate) spare: Vec<u8>,
    /// How many pieces the roads have.
    pub(crate) flushed: usize,
    pub(crate) shut: bool,
    /// How many pieces were sent before it was shut.
    pub(crate) kept: usize,
    pub(crate) schedule: FaultSchedule,
    ghost empty: { vec_len spare ≡ 0 },
    ghost flushed_within: { flushed ≤ vec_len sent },
    ghost kept_within: { kept ≤ vec_len sent + fresh_count fresh },
}

impl MemOut {
    /// A half that has sent nothing.
    pub(crate) fn new(alloc: Global, schedule: FaultSchedule) -> MemOut
        ensures sent { result.sent.items ≡ [] }
        ensures fresh { result.fresh ≡ None }
        ensures flushed { result.flushed ≡ 0 }
        ensures shut { result.shut ≡ false }
        ensures schedule { result.schedule ≡ schedule }
    {
        MemOut {
            sent: Vec::new(alloc),
            fresh: None,
            spare: Vec::new(alloc),
            flushed: 0,
            shut: false,
            kept: 0,
            schedule,
        }
    }

    /// How many pieces were sent.
    fn count(&self) -> usize
        ensures { result ≡ vec_len self.now.sent + fresh_count self.now.fresh }
    {
        match &self.fresh {
            Some(_) => self.sent.len() + 1,
            None => self.sent.len(),
        }
    }

    /// The pieces that the roads don't have yet.
    pub(crate) fn unflushed(&self) -> &[Arc<Vec<u8>>]
        requires { IsNone self.now.fresh }
        ensures { pieces_of result.now ≡ drop self.now.flushed (sent_of self.now.sent.items self.now.fresh) }
    {
        self.sent.split_at(self.flushed).1
    }

    /// Of these, the pieces that were sent before it was shut.
    pub(crate) fn deliverable(&self) -> &[Arc<Vec<u8>>]
        requires { IsNone self.now.fresh }
        ensures { pieces_of result.now ≡ unflushed
            (sent_of self.now.sent.items self.now.fresh) self.now.flushed
            (lost_of self.now.shut self.now.kept (vec_len self.now.sent + fresh_count self.now.fresh)) }
    {
        let kept = if self.shut {
            self.kept
        } else {
            self.sent.len()
        };
        let before = self.sent.split_at(kept).0;
        before.split_at(self.flushed.min(kept)).1
    }

    /// Puts the latest piece to the others.
    pub(crate) fn settle(&mut self, alloc: Global) -> Result<(), AllocError>
        ensures settled { OnOk result (self.new.fresh ≡ None) }
        ensures sent { sent_of self.new.sent.items self.new.fresh ≡ sent_of self.old.sent.items self.old.fresh }
        ensures count { vec_len self.new.sent + fresh_count self.new.fresh
            ≡ vec_len self.old.sent + fresh_count self.old.fresh }
        ensures fresh { IsNone self.old.fresh → IsNone self.new.fresh }
        ensures spare { self.new.spare ≡ self.old.spare }
        ensures flushed { self.new.flushed ≡ self.old.flushed }
        ensures shut { self.new.shut ≡ self.old.shut }
        ensures kept { self.new.kept ≡ self.old.kept }
        ensures schedule { self.new.schedule ≡ self.old.schedule }
    {
        let Some(piece) = self.fresh.take() else {
            return Ok(());
        };
        if self.sent.reserve(1).is_err() {
            self.fresh = Some(piece);
            return Err(AllocError);
        }
        match Arc::new(alloc, piece) {
            Ok(piece) => {
                self.sent.push_reserved(piece);
                Ok(())
            }
            Err(refused) => {
                self.fresh = Some(refused.value);
                Err(AllocError)
            }
        }
    }
}

impl LinkOut for MemOut {
    ghost sent = { λ l. Some (sent_of l.sent.items l.fresh) };

    ghost flushed = { λ l. l.flushed };

    ghost lost = { λ l. lost_of l.shut l.kept (vec_len l.sent + fresh_count l.fresh) };

    ghost shut = { λ l. l.shut };

    ghost room = { λ l. room_of l.fresh l.spare };

    ghost faults = { λ l. l.schedule.faults };

    ghost schedule = { λ l. coming l.schedule };

    fn room(&mut self, alloc: Global, len: u64) -> Result<(), LinkError> {
        if self.settle(alloc).is_err() || self.spare.reserve(len as usize).is_err() {
            return Err(LinkError::Memory);
        }
        Ok(())
    }

    /// Takes the whole piece.
    fn send(&mut self, piece: &[u8]) -> Result<usize, LinkError> {
        if self.schedule.next() {
            return Err(LinkError::Failed);
        }
        if self.spare.extend_from_slice(piece).is_err() {
            unreachable!();
        }
        let empty = Vec::new(*self.spare.allocator());
        self.fresh = Some(mem::replace(&mut self.spare, empty));
        Ok(piece.len())
    }

    fn shut(&mut self) {
        if !self.shut {
            self.kept = self.count();
            self.shut = true;
        }
    }
}
