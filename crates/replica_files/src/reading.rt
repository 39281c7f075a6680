//! Events that ask for bytes.

ghost use Rattle.std.specs.Prelude.{◌≡◌, ◌≤◌, ℕ, List, length, take, drop, Some, Err, OnOk, OnErr, IfOk, IfErr, IfSome, IsSome};
ghost use Rattle.hd_base.specs.Faults.{HasCause};
ghost use Rattle.hd_base.specs.FileMaps.{FileMap};
ghost use Rattle.replica_core.specs.Sound.{IsConsistent};
ghost use Rattle.replica_calls.specs.Performed.{KeepsAll};
ghost use Rattle.replica_files.specs.Entries.{HasSpare};
ghost use Rattle.replica_files.specs.Books.{IsBookOf, replica_of};
ghost use Rattle.replica_files.specs.Steps.{IsPrepared};
ghost use Rattle.replica_files.specs.Reads.{IsReading, ReadsBytes, IsAmidReading, ReadsOut, IsAmidRead, IsReadyToRead};
ghost use Rattle.replica_files.specs.Endings.{CallEnds, TakenEnds, StaysBook};

use crate::book_state::{BookState, Prior, Taken, reserve_entry};
use crate::faults::BookFault;
use hd_base::{BlockId, FileError, FileName, Files};
use replica_calls::FileNames;
use replica_core::{Answer, Event};
use replica_model::ReplicaEvent;

/// Reads from a place of a file as many bytes as the buffer has, or as there are.
fn read_bytes<F: Files>(
    drawer: &mut F,
    name: &FileName,
    offset: u64,
    buffer: &mut Vec<u8>,
) -> Result<(), FileError>
    requires there { IfSome (F.files drawer.old) (λ m. IsSome (m name.now)) }
    ensures value { OnOk result ((m : FileMap) (bytes : List ℕ) → F.files drawer.old ≡ Some m
        → m name.now ≡ Some bytes → buffer.new.items ≡ take (length buffer.old.items) (drop offset bytes)) }
    ensures kept { KeepsAll F.Files drawer.old drawer.new }
    ensures cause { HasCause (F.faults drawer.old) (F.faults drawer.new) result }
{
    let count = drawer.read_at(name, offset, buffer)?;
    buffer.truncate(count);
    Ok(())
}

/// Reads the bytes of what was held, from a place on; the sum of the last chunk stays.
fn read_info<F: Files>(
    drawer: &mut F,
    block: BlockId,
    prior: &Prior,
    offset: u64,
    buffer: &mut Vec<u8>,
    last_sum: u32,
) -> Result<u32, FileError>
    requires { IsAmidReading F.Files drawer.old block prior.now last_sum offset (length buffer.old.items) }
    ensures reads { (a : IsAmidReading F.Files drawer.old block prior.now last_sum offset (length buffer.old.items))
        → ReadsOut F.Files drawer.old drawer.new block a.r a.e offset a.count buffer.new.items result }
    ensures kept { KeepsAll F.Files drawer.old drawer.new }
    ensures never_falls { F.faults drawer.old ≤ F.faults drawer.new }
{
    let Some(held) = prior.info else {
        return Ok(last_sum);
    };
    let names = FileNames::of(block, &held);
    read_bytes(drawer, &names.data, offset, buffer)?;
    Ok(last_sum)
}

impl<F: Files> BookState<F> {
    /// Takes an event that asks for bytes, and gives them to `into` in place of what that held; of an event
    /// that isn't taken, `into` stays as it was.
    pub(crate) fn read(
        &mut self,
        event: Event,
        offset: u64,
        count: u64,
        into: &mut Vec<u8>,
    ) -> Result<Taken, BookFault>
        requires book { IsBookOf F.Files self.old }
        requires reading { IsReading event offset count }
        ensures book { IsBookOf F.Files self.new }
        ensures ends { CallEnds F.Files self.old self.new (ReplicaEvent.Other event) result }
        ensures bytes { IfOk result (λ _.
            ReadsBytes (F.files self.old.drawer) (replica_of self.old) offset count into.new.items) }
        ensures kept { OnErr result (into.new.items ≡ into.old.items) }
    {
        let bytes = self.read_ahead(&event, offset, count)?;
        let taken = self.keep(event)?;
        *into = bytes;
        Ok(taken)
    }

    /// The bytes that an event asks for, which has no entry yet. It has one where it isn't taken, or a call on the files
    /// failed.
    pub(crate) fn read_ahead(
        &mut self,
        event: &Event,
        offset: u64,
        count: u64,
    ) -> Result<Vec<u8>, BookFault>
        requires book { IsBookOf F.Files self.old }
        requires reading { IsReading event.now offset count }
        ensures book { IsBookOf F.Files self.new }
        ensures prepared { OnOk result (IsPrepared F.Files self.old self.new) }
        ensures stays { OnOk result (StaysBook F.Files self.old self.new) }
        ensures ends { IfErr result (λ why.
            CallEnds F.Files self.old self.new (ReplicaEvent.Other event.now) (Err why)) }
        ensures bytes { IfOk result (λ bytes.
            ReadsBytes (F.files self.old.drawer) (replica_of self.old) offset count bytes.items) }
    {
        reserve_entry(&mut self.history)?;
        let alloc = *self.history.entries.allocator();
        let room = count.min(self.replica.written()) as usize;
        let mut buffer = vec![in alloc; 0; room]?;
        self.read_prepared(*event, offset, &mut buffer)?;
        Ok(buffer)
    }

    /// Reads the bytes of an event, for which the buffer has room.
    fn read_prepared(
        &mut self,
        event: Event,
        offset: u64,
        buffer: &mut Vec<u8>,
    ) -> Result<(), BookFault>
        requires book { IsBookOf F.Files self.old }
        requires spare { HasSpare self.old.history }
        requires ready { IsReadyToRead self.old event offset (length buffer.old.items) }
        ensures book { IsBookOf F.Files self.new }
        ensures prepared { OnOk result (IsPrepared F.Files self.old self.new) }
        ensures ends { IfErr result (λ why.
            CallEnds F.Files self.old self.new (ReplicaEvent.Other event) (Err why)) }
        ensures bytes { (a : IsReadyToRead self.old event offset (length buffer.old.items)) → IfOk result (λ _.
            ReadsBytes (F.files self.old.drawer) (replica_of self.old) offset a.count buffer.new.items) }
    {
        let prior = self.prior();
        let event = ReplicaEvent::Other(event);
        match self.step(&event) {
            Err(refusal) => Err(self.refuse(event, refusal)),
            Ok(answer) => self.read_taken(event, &prior, answer, offset, buffer),
        }
    }

    /// Reads the bytes of an event that was taken. Where that fails, it adds its entry.
    fn read_taken(
        &mut self,
        event: ReplicaEvent,
        prior: &Prior,
        answer: Answer,
        offset: u64,
        buffer: &mut Vec<u8>,
    ) -> Result<(), BookFault>
        requires spare { HasSpare self.old.history }
        requires consistent { IfSome prior.now.info IsConsistent }
        requires amid { IsAmidRead F.Files self.old event prior.now answer offset (length buffer.old.items) }
        ensures prepared { OnOk result (IsPrepared F.Files self.old self.new) }
        ensures book { IfErr result (λ _. IsBookOf F.Files self.new) }
        ensures ends { IfErr result (λ why. TakenEnds F.Files self.old self.new event (Err why)) }
        ensures bytes { (a : IsAmidRead F.Files self.old event prior.now answer offset (length buffer.old.items))
            → IfOk result (λ _.
            ReadsBytes (F.files self.old.drawer) (replica_of self.old) offset a.count buffer.new.items) }
    {
        let block = self.block;
        let made = read_info(
            &mut self.drawer,
            block,
            prior,
            offset,
            buffer,
            self.last_sum,
        );
        match made {
            Ok(_) => Ok(()),
            Err(error) => {
                self.finish(event, prior, answer, Err(error))?;
                unreachable!()
            }
        }
    }
}
