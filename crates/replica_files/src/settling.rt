//! Events that are no packets and make no new replica.

ghost use Rattle.std.specs.Prelude.{◌≡◌, ℕ, ◌≤◌, List, length, take, false, true, IfOk, IfSome, Err, IsErr};
ghost use Rattle.hd_base.specs.Faults.{HasCause};
ghost use Rattle.replica_calls.specs.LastSums.{IsLastSum};
ghost use Rattle.replica_calls.specs.Performed.{KeepsAll};
ghost use Rattle.replica_core.specs.Transitions.{IsLawful};
ghost use Rattle.replica_core.specs.Sound.{IsConsistent};
ghost use Rattle.replica_files.specs.Entries.{HasSpare};
ghost use Rattle.replica_files.specs.Events.{IsSettling};
ghost use Rattle.replica_files.specs.Books.{IsBookOf};
ghost use Rattle.replica_files.specs.Steps.{IsAmid};
ghost use Rattle.replica_files.specs.Endings.{CallEnds, TakenEnds};
ghost use Rattle.replica_files.specs.Carried.{HasRoomFor, Holding, IsToSettle, Settles, IsAmidSettling, CarriesOut};

use crate::book_state::{BookState, Prior, Taken};
use crate::faults::BookFault;
use hd_base::{BlockId, FileError, FileName, Files};
use replica_calls::{FileNames, settle, sum_to};
use replica_core::{Answer, Event, ReplicaInfo};
use replica_model::ReplicaEvent;

/// The sum of the last chunk of what is held next, whose bytes are read where they are cut.
fn sum_after<F: Files>(
    drawer: &mut F,
    block: BlockId,
    held: &ReplicaInfo,
    next: &ReplicaInfo,
    last_sum: u32,
    buffer: &mut [u8],
) -> Result<u32, FileError>
    requires { IsToSettle F.Files drawer.old block held.now next.now last_sum (length buffer.old) }
    ensures value { IfOk result (λ sum. (bytes : List ℕ)
        → Holding (F.files drawer.old) block held.now last_sum bytes
        → IfSome (F.files drawer.old) (λ _. IsLastSum held.now.sums sum (take next.now.written bytes))) }
    ensures kept { KeepsAll F.Files drawer.old drawer.new }
    ensures cause { HasCause (F.faults drawer.old) (F.faults drawer.new) result }
{
    if next.written == held.written {
        return Ok(last_sum);
    }
    let names = FileNames::of(block, held);
    sum_to(drawer, &names.data, held.sums, next.written, buffer)
}

/// Makes of the files of what is held those of what is held next, and answers the sum of the last chunk
/// then.
fn settle_files<F: Files>(
    drawer: &mut F,
    block: BlockId,
    held: ReplicaInfo,
    next: ReplicaInfo,
    last_sum: u32,
    buffer: &mut [u8],
) -> Result<u32, FileError>
    requires { IsToSettle F.Files drawer.old block held next last_sum (length buffer.old) }
    ensures { (bytes : List ℕ) → Holding (F.files drawer.old) block held last_sum bytes
        → Settles F.Files drawer.old drawer.new block held next bytes result }
{
    let before = FileNames::of(block, &held);
    let after = FileNames::of(block, &next);
    let sum = sum_after(drawer, block, &held, &next, last_sum, buffer)?;
    settle(drawer, &before, &after, &held, &next, sum)?;
    Ok(sum)
}

/// Makes the calls of an event that was taken, by what was held before and what is held next. The files of
/// a broken replica are left alone.
pub(crate) fn settle_info<F: Files>(
    drawer: &mut F,
    block: BlockId,
    prior: &Prior,
    next: Option<ReplicaInfo>,
    last_sum: u32,
    buffer: &mut [u8],
) -> Result<u32, FileError>
    requires { IsAmidSettling F.Files drawer.old block prior.now next last_sum (length buffer.old) }
    ensures whole { IsErr result → prior.now.is_broken ≡ false }
    ensures alone { prior.now.is_broken ≡ true → drawer.new ≡ drawer.old }
    ensures carried { (a : IsAmidSettling F.Files drawer.old block prior.now next last_sum (length buffer.old))
        → CarriesOut F.Files drawer.old drawer.new block a.r (ReplicaEvent.Other a.e) result }
{
    if prior.is_broken {
        return Ok(last_sum);
    }
    let (Some(held), Some(next)) = (prior.info, next) else {
        return Ok(last_sum);
    };
    settle_files(drawer, block, held, next, last_sum, buffer)
}

impl<F: Files> BookState<F> {
    /// Takes an event that is no packet and makes no new replica. `buffer` is for the bytes of a last chunk
    /// that is cut.
    pub(crate) fn settle(&mut self, event: Event, buffer: &mut [u8]) -> Result<Taken, BookFault>
        requires book { IsBookOf F.Files self.old }
        requires spare { HasSpare self.old.history }
        requires settling { IsSettling event }
        requires lawful { IsLawful event }
        requires room { HasRoomFor
            (F.room self.old.drawer) self.old.block event self.old.replica.info (length buffer.old) }
        ensures book { IsBookOf F.Files self.new }
        ensures ends { CallEnds F.Files self.old self.new (ReplicaEvent.Other event) result }
    {
        let prior = self.prior();
        let event = ReplicaEvent::Other(event);
        match self.step(&event) {
            Err(refusal) => Err(self.refuse(event, refusal)),
            Ok(answer) => self.settle_taken(event, &prior, answer, buffer),
        }
    }

    /// Makes the calls of an event that was taken, and adds its entry.
    fn settle_taken(
        &mut self,
        event: ReplicaEvent,
        prior: &Prior,
        answer: Answer,
        buffer: &mut [u8],
    ) -> Result<Taken, BookFault>
        requires spare { HasSpare self.old.history }
        requires consistent { IfSome prior.now.info IsConsistent }
        requires amid { IsAmid F.Files self.old event prior.now answer (length buffer.old) }
        ensures book { IsBookOf F.Files self.new }
        ensures ends { TakenEnds F.Files self.old self.new event result }
    {
        let block = self.block;
        let next = self.replica.info();
        let made = settle_info(&mut self.drawer, block, prior, next, self.last_sum, buffer);
        self.finish(event, prior, answer, made)
    }
}
