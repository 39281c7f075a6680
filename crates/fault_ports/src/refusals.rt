//! What files have done since they refuse the writes on data files.

ghost use Rattle.std.specs.Prelude.{◌≡◌, ◌++◌, [], ◌∷◌, ◌↔◌, true, None, is_some, IsTrue, IfOk};
ghost use Rattle.hd_base.specs.Calls.{Sync};
ghost use Rattle.file_calls.specs.FileCalls.{meant};
ghost use Rattle.fault_ports.specs.RefusedWrites.{calls_since, TakesSync, IsRefused};

use crate::refused_writes::RefusedWrite;
use file_calls::FileCall;
use hd_base::FileName;
use std::alloc::{AllocError, Global};

/// For how many syncs there are places.
const SYNC_PLACES: usize = 2;

/// What files have done since they refuse the writes on data files: the syncs that passed, and
/// behind them the first write that was refused.
#[derive(Debug, Drop)]
pub struct Refusal {
    synced: Vec<FileName>,
    write: Option<RefusedWrite>,
    /// The files' count of faults when they began to refuse.
    before: u64,
}

impl Refusal {
    /// Nothing was done yet, and so many faults were counted before.
    pub fn new(alloc: Global, before: u64) -> Result<Refusal, AllocError>
        ensures none { IfOk result (λ r. r.write ≡ None) }
        ensures calls { IfOk result (λ r. calls_since r ≡ []) }
        ensures before { IfOk result (λ r. r.before ≡ before) }
    {
        Ok(Refusal {
            synced: Vec::with_capacity(alloc, SYNC_PLACES)?,
            write: None,
            before,
        })
    }

    /// Whether a write was refused.
    pub fn has_refused(&self) -> bool
        ensures { result ≡ is_some self.now.write }
    {
        self.write.is_some()
    }

    /// The files' count of faults when they began to refuse.
    pub fn before(&self) -> u64
        ensures { result ≡ self.now.before }
    {
        self.before
    }

    /// Whether a sync may pass: no write was refused, and there is a place to keep it.
    pub fn takes_sync(&self) -> bool
        ensures { IsTrue result ↔ TakesSync self.now }
    {
        self.write.is_none() && self.synced.len() < self.synced.capacity()
    }

    /// Keeps a sync that passed.
    pub fn add_sync(&mut self, name: &FileName)
        requires { TakesSync self.old }
        ensures calls { calls_since self.new ≡ calls_since self.old ++ Sync name.now ∷ [] }
        ensures write { self.new.write ≡ None }
        ensures before { self.new.before ≡ self.old.before }
    {
        self.synced.push_reserved(name.duplicate());
    }

    /// Refuses a call, and keeps it where it is the first write on a data file.
    pub fn refuse(&mut self, call: &FileCall)
        ensures { IsRefused self.old self.new (meant call.now) }
    {
        if self.write.is_some() {
            return;
        }
        if let FileCall::Write(name, place, _) = call {
            if name.is_data() {
                self.write = Some(RefusedWrite {
                    name: name.duplicate(),
                    place: *place,
                });
            }
        }
    }
}
