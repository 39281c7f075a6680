//! What a book keeps, and how it takes an event.

ghost use Rattle.std.specs.Prelude.{◌≡◌, false, true, OnOk, IfSome, Err};
ghost use Rattle.replica_core.specs.Transitions.{transition, IsLawful};
ghost use Rattle.replica_core.specs.Sound.{IsConsistent};
ghost use Rattle.replica_model.specs.Rows.{event_at, record_event, IsWithBytes};
ghost use Rattle.replica_files.specs.Entries.{HasSpare, IsSame, HasEntry};
ghost use Rattle.replica_files.specs.Events.{NeedsWhole};
ghost use Rattle.replica_files.specs.Books.{IsBookOf, replica_of};
ghost use Rattle.replica_files.specs.Steps.{IsLawfulEvent, IsFit, KeepsFiles, IsStepped, IsToNote};
ghost use Rattle.replica_files.specs.Endings.{Notes, Finishes, Fails, IsRefusal};

use crate::faults::BookFault;
use hd_base::{BlockId, FileError, Files, Receipt, SumRule};
use replica_core::{Answer, Event, MAX_PENDING, Refusal, Replica, ReplicaInfo};
use replica_model::{Entry, History, ReplicaEvent, packet_event};
use std::alloc::AllocError;

/// What a book keeps: its block, the files, the replica, the sum of the bytes in its last chunk, the history,
/// and whether the files are known to hold a broken replica as it was before it broke.
#[derive(Drop)]
pub struct BookState<F: Files> {
    pub block: BlockId,
    pub drawer: F,
    pub replica: Replica,
    pub last_sum: u32,
    pub history: History,
    pub whole: bool,
}

/// An event that was taken: the replica's answer, and the receipt of its entry.
#[derive(Clone, Copy)]
pub struct Taken {
    pub answer: Answer,
    pub receipt: Receipt,
}

/// What a replica was before an event.
#[derive(Clone, Copy)]
pub(crate) struct Prior {
    /// Whether it was broken.
    pub is_broken: bool,
    /// What it held.
    pub info: Option<ReplicaInfo>,
}

/// Makes room for one more entry.
pub(crate) fn reserve_entry(history: &mut History) -> Result<(), AllocError>
    ensures spare { OnOk result (HasSpare history.new) }
    ensures same { IsSame history.old history.new }
{
    history.entries.reserve(1)
}

/// Adds the entry of an event, and answers its place.
fn add_entry(history: &mut History, event: ReplicaEvent, failed: bool) -> u64
    requires { HasSpare history.old }
    ensures { HasEntry history.old history.new event failed result }
{
    let index = history.entries.len() as u64;
    match history.entries.push(Entry { event, failed }) {
        Ok(()) => index,
        Err(_) => unreachable!(),
    }
}

/// What an event is to the replica's state machine under this rule.
fn core_event(rule: Option<SumRule>, event: &ReplicaEvent) -> Event
    requires { IsLawfulEvent event.now }
    ensures value { result ≡ record_event rule event.now }
    ensures lawful { IsLawful result }
{
    match event {
        ReplicaEvent::Packet { conn, packet } => packet_event(rule, *conn, packet),
        ReplicaEvent::Other(event) => *event,
    }
}

impl<F: Files> BookState<F> {
    /// Adds the entry of an event.
    fn note(&mut self, event: ReplicaEvent, failed: bool) -> Receipt
        requires { HasSpare self.old.history }
        ensures noted { Notes self.old self.new event failed result }
        ensures kept { KeepsFiles self.old self.new }
    {
        Receipt {
            block: self.block,
            index: add_entry(&mut self.history, event, failed),
        }
    }

    /// Gives the replica an event, which has no entry yet.
    pub(crate) fn step(&mut self, event: &ReplicaEvent) -> Result<Answer, Refusal>
        requires book { IsBookOf F.Files self.old }
        requires fit { IsFit self.old.replica event.now }
        ensures { IsStepped self.old self.new event.now result }
    {
        let event = core_event(self.replica.rule(), event);
        match self.replica.step(&event) {
            Answer::Refused(refusal) => Err(refusal),
            answer => Ok(answer),
        }
    }

    /// Adds the entry of an event that was refused.
    pub(crate) fn refuse(&mut self, event: ReplicaEvent, refusal: Refusal) -> BookFault
        requires book { IsBookOf F.Files self.old }
        requires spare { HasSpare self.old.history }
        requires refused { transition (replica_of self.old).known (event_at (replica_of self.old) event) ≡ Err refusal }
        ensures book { IsBookOf F.Files self.new }
        ensures ends { IsRefusal F.Files self.old self.new event result }
    {
        BookFault::Refused(refusal, self.note(event, false))
    }

    /// Adds the entry of an event that is refused since the replica is broken.
    pub(crate) fn refuse_broken(&mut self, event: ReplicaEvent) -> BookFault
        requires book { IsBookOf F.Files self.old }
        requires spare { HasSpare self.old.history }
        requires broken { self.old.replica.is_broken ≡ true }
        requires barred { NeedsWhole event }
        ensures book { IsBookOf F.Files self.new }
        ensures ends { IsRefusal F.Files self.old self.new event result }
    {
        self.refuse(event, Refusal::Broken)
    }

    /// Adds the entry of an event that was taken and whose calls on the files were made, or one of them failed,
    /// which breaks the replica.
    pub(crate) fn finish(
        &mut self,
        event: ReplicaEvent,
        prior: &Prior,
        answer: Answer,
        made: Result<u32, FileError>,
    ) -> Result<Taken, BookFault>
        requires spare { HasSpare self.old.history }
        requires consistent { IfSome prior.now.info IsConsistent }
        requires fit { IsWithBytes event }
        requires to_note { IsToNote F.Files self.old event prior.now.info made }
        ensures book { IsBookOf F.Files self.new }
        ensures drawer { self.new.drawer ≡ self.old.drawer }
        ensures finishes { Finishes self.old self.new event answer made result }
    {
        match made {
            Ok(last_sum) => {
                self.last_sum = last_sum;
                let receipt = self.note(event, false);
                Ok(Taken { answer, receipt })
            }
            Err(_) => {
                self.replica.break_from(prior.info);
                self.whole = false;
                Err(BookFault::File(self.note(event, true)))
            }
        }
    }

    /// What the replica is before an event.
    pub(crate) fn prior(&self) -> Prior
        ensures broken { result.is_broken ≡ self.now.replica.is_broken }
        ensures info { result.info ≡ self.now.replica.info }
        ensures consistent { IfSome result.info IsConsistent }
    {
        Prior {
            is_broken: self.replica.is_broken(),
            info: self.replica.info(),
        }
    }

    /// Adds the entry of an event for which something failed before any of its calls, which breaks the
    /// replica. Its files stay as they are.
    pub(crate) fn fail(&mut self, event: ReplicaEvent) -> BookFault
        requires book { IsBookOf F.Files self.old }
        requires spare { HasSpare self.old.history }
        requires unbroken { self.old.replica.is_broken ≡ false }
        ensures book { IsBookOf F.Files self.new }
        ensures fails { Fails F.Files self.old self.new event result }
    {
        let held = self.replica.info();
        self.replica.break_from(held);
        self.whole = true;
        BookFault::File(self.note(event, true))
    }
}
