//! Events that may cut bytes off, and those that don't.

ghost use Rattle.std.specs.Prelude.{◌≡◌, length, IfOk, IfSome};
ghost use Rattle.replica_core.specs.Transitions.{IsLawful};
ghost use Rattle.replica_calls.specs.Performed.{RoomCause};
ghost use Rattle.replica_files.specs.Events.{IsSettling, IsCutting};
ghost use Rattle.replica_files.specs.Books.{IsBookOf};
ghost use Rattle.replica_files.specs.Carried.{HasRoomToCut};
ghost use Rattle.replica_files.specs.Steps.{IsPrepared};
ghost use Rattle.replica_files.specs.Endings.{CallEnds};

use crate::book_state::{BookState, Taken, reserve_entry};
use crate::faults::BookFault;
use hd_base::{FileError, Files};
use replica_calls::FileNames;
use replica_core::Event;
use replica_model::{ReplicaEvent, sum_place};

/// How many bytes a sum has.
const SUM_LEN: u64 = 4;

impl<F: Files> BookState<F> {
    /// Takes an event that is no packet, makes no new replica and cuts no bytes off.
    pub(crate) fn keep(&mut self, event: Event) -> Result<Taken, BookFault>
        requires book { IsBookOf F.Files self.old }
        requires settling { IsSettling event }
        requires keeping { IsCutting event → ⊥ }
        requires lawful { IsLawful event }
        ensures book { IsBookOf F.Files self.new }
        ensures ends { CallEnds F.Files self.old self.new (ReplicaEvent.Other event) result }
    {
        reserve_entry(&mut self.history)?;
        self.settle(event, &mut [])
    }

    /// Takes an event that may cut bytes off.
    pub(crate) fn cut(&mut self, event: Event) -> Result<Taken, BookFault>
        requires book { IsBookOf F.Files self.old }
        requires cutting { IsCutting event }
        ensures book { IsBookOf F.Files self.new }
        ensures ends { CallEnds F.Files self.old self.new (ReplicaEvent.Other event) result }
    {
        reserve_entry(&mut self.history)?;
        if self.replica.is_broken() {
            return Err(self.refuse_broken(ReplicaEvent::Other(event)));
        }
        match self.prepare_cut() {
            Ok(mut buffer) => self.settle(event, &mut buffer),
            Err(FileError::Memory) => Err(BookFault::Memory),
            Err(_) => Err(self.fail(ReplicaEvent::Other(event))),
        }
    }

    /// Takes room for the sum of a last chunk that a cut makes short, and a buffer for its bytes.
    fn prepare_cut(&mut self) -> Result<Vec<u8>, FileError>
        ensures prepared { IsPrepared F.Files self.old self.new }
        ensures history { self.new.history ≡ self.old.history }
        ensures room { IfOk result (λ buffer. IfSome self.new.replica.info (λ h.
            HasRoomToCut (F.room self.new.drawer) self.new.block h (length buffer.items))) }
        ensures cause { RoomCause (F.faults self.old.drawer) (F.faults self.new.drawer) result }
    {
        let alloc = *self.history.entries.allocator();
        let Some(held) = self.replica.info() else {
            return Ok(Vec::new(alloc));
        };
        let buffer = vec![in alloc; 0; held.sums.chunk() as usize]?;
        let names = FileNames::of(self.block, &held);
        let len = sum_place(held.sums, held.written) + SUM_LEN;
        self.drawer.room(alloc, &names.meta, len)?;
        Ok(buffer)
    }
}
