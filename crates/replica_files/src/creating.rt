//! Events that make a new replica.

ghost use Rattle.std.specs.Prelude.{◌≡◌, IfOk, IfSome, None};
ghost use Rattle.hd_base.specs.SumRules.{IsChunkSize};
ghost use Rattle.replica_core.specs.Sound.{IsConsistent};
ghost use Rattle.replica_calls.specs.Performed.{RoomCause};
ghost use Rattle.replica_files.specs.Entries.{HasSpare};
ghost use Rattle.replica_files.specs.Events.{IsMaking, IsMadeBy};
ghost use Rattle.replica_files.specs.Books.{IsBookOf};
ghost use Rattle.replica_files.specs.Carried.{IsToMake, Makes};
ghost use Rattle.replica_files.specs.Steps.{IsPrepared, IsAmidMaking};
ghost use Rattle.replica_files.specs.Endings.{CallEnds, TakenEnds};

use crate::book_state::{BookState, Prior, Taken, reserve_entry};
use crate::faults::BookFault;
use hd_base::{BlockId, FileError, FileName, Files, ReplicaState};
use replica_calls::{FileNames, create, secure};
use replica_core::{Answer, Event, ReplicaInfo};
use replica_model::ReplicaEvent;

/// How many bytes the header of a metadata file has.
const HEADER_LEN: u64 = 7;

/// What a replica holds that this event makes.
fn made_info(event: &Event) -> ReplicaInfo
    requires { IsMaking event.now }
    ensures by { IsMadeBy event.now result }
    ensures size { IsChunkSize result.sums.chunk }
{
    match *event {
        Event::Create { stamp, sums, .. } => {
            ReplicaInfo::settled_at(ReplicaState::Rbw, stamp, sums, 0)
        }
        Event::Temporary { stamp, sums, .. } => {
            ReplicaInfo::settled_at(ReplicaState::Temporary, stamp, sums, 0)
        }
        _ => unreachable!(),
    }
}

/// Makes the files of what is to be held, and answers the sum of its last chunk, which has no bytes.
fn make_files<F: Files>(
    drawer: &mut F,
    block: BlockId,
    next: ReplicaInfo,
    strays: &[FileName],
) -> Result<u32, FileError>
    requires { IsToMake F.Files drawer.old block next strays.now }
    ensures { Makes F.Files drawer.old drawer.new block next strays.now result }
{
    let names = FileNames::of(block, &next);
    create(drawer, strays, &names, next.sums)?;
    Ok(0)
}

impl<F: Files> BookState<F> {
    /// Takes an event that makes a new replica. Other files of the block are removed first.
    pub(crate) fn make(&mut self, event: Event) -> Result<Taken, BookFault>
        requires book { IsBookOf F.Files self.old }
        requires making { IsMaking event }
        ensures book { IsBookOf F.Files self.new }
        ensures ends { CallEnds F.Files self.old self.new (ReplicaEvent.Other event) result }
    {
        reserve_entry(&mut self.history)?;
        if self.replica.is_broken() {
            return Err(self.refuse_broken(ReplicaEvent::Other(event)));
        }
        let next = made_info(&event);
        match self.prepare_new(&next) {
            Ok(strays) => self.make_prepared(event, next, &strays),
            Err(FileError::Memory) => Err(BookFault::Memory),
            Err(_) => Err(self.fail(ReplicaEvent::Other(event))),
        }
    }

    /// Takes room for the files of what is to be held, and answers the names of the files that are there,
    /// where the replica is absent.
    fn prepare_new(&mut self, next: &ReplicaInfo) -> Result<Vec<FileName>, FileError>
        requires size { IsChunkSize next.now.sums.chunk }
        ensures prepared { IsPrepared F.Files self.old self.new }
        ensures history { self.new.history ≡ self.old.history }
        ensures ready { IfOk result (λ strays. self.new.replica.info ≡ None
            → IsToMake F.Files self.new.drawer self.new.block next.now strays.items) }
        ensures cause { RoomCause (F.faults self.old.drawer) (F.faults self.new.drawer) result }
    {
        let alloc = *self.history.entries.allocator();
        if self.replica.info().is_some() {
            return Ok(Vec::new(alloc));
        }
        let names = FileNames::of(self.block, next);
        let strays = self.drawer.names(alloc)?;
        secure(alloc, &mut self.drawer, &names, 0, HEADER_LEN)?;
        Ok(strays)
    }

    /// Takes the event, for which there is room.
    fn make_prepared(
        &mut self,
        event: Event,
        next: ReplicaInfo,
        strays: &[FileName],
    ) -> Result<Taken, BookFault>
        requires book { IsBookOf F.Files self.old }
        requires spare { HasSpare self.old.history }
        requires made { IsMadeBy event next }
        requires ready { self.old.replica.info ≡ None
            → IsToMake F.Files self.old.drawer self.old.block next strays.now }
        ensures book { IsBookOf F.Files self.new }
        ensures ends { CallEnds F.Files self.old self.new (ReplicaEvent.Other event) result }
    {
        let prior = self.prior();
        let event = ReplicaEvent::Other(event);
        match self.step(&event) {
            Err(refusal) => Err(self.refuse(event, refusal)),
            Ok(answer) => self.make_taken(event, &prior, answer, next, strays),
        }
    }

    /// Makes the calls of an event that was taken, and adds its entry.
    fn make_taken(
        &mut self,
        event: ReplicaEvent,
        prior: &Prior,
        answer: Answer,
        next: ReplicaInfo,
        strays: &[FileName],
    ) -> Result<Taken, BookFault>
        requires spare { HasSpare self.old.history }
        requires consistent { IfSome prior.now.info IsConsistent }
        requires amid { IsAmidMaking F.Files self.old event prior.now answer next strays.now }
        ensures book { IsBookOf F.Files self.new }
        ensures ends { TakenEnds F.Files self.old self.new event result }
    {
        let made = make_files(&mut self.drawer, self.block, next, strays);
        self.finish(event, prior, answer, made)
    }
}
