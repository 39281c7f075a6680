//! A replica's book.

ghost use Rattle.std.specs.Prelude.{◌≡◌, ◌⊎◌, ◌<◌, ◌≤◌, false, true, [], length, option_map, Err, IfOk, IfErr, OnOk, OnErr};
ghost use Rattle.hd_base.specs.Faults.{FaultsIncreased};
ghost use Rattle.hd_base.specs.FileMaps.{OnlyOf};
ghost use Rattle.replica_core.specs.declared.ack_queue.TheConstants.{MAX_PENDING};
ghost use Rattle.replica_model.specs.declared.events.ReplicaEvent.TheVariants as ReplicaEvent;
ghost use Rattle.replica_files.specs.Events.{IsSetup};
ghost use Rattle.replica_files.specs.Breaks.{HoldsWhole};
ghost use Rattle.replica_files.specs.Books.{IsBookOf, replica_of};
ghost use Rattle.replica_files.specs.Finding.{HoldsFound, IsFound, GivesBack};
ghost use Rattle.replica_files.specs.Reads.{ReadsBytes};
ghost use Rattle.replica_files.specs.Steps.{KeepsRest, KeepsReplica};
ghost use Rattle.replica_files.specs.Summing.{SumsWritten, LeavesBook, SumsFor};
ghost use Rattle.replica_files.specs.Endings.{BookEnds, StaysBook, InitEnds, IsReceiptOf, IsNew};

use crate::book_state::{BookState, Taken};
use crate::faults::{BookFault, FoundFault, SumFault};
use crate::finding::read_found;
use hd_base::{BlockId, ConnId, Files, Receipt, ReplicaState, Stamp, SumRule};
use packet_codec::Packet;
use refusing_files::Refusing;
use replica_calls::FileNames;
use replica_core::{Answer, Event, Replica};
use replica_model::{History, Start, folder_of};
use std::alloc::{AllocError, Global};
use std::marker::Model;

/// One replica of a block with its two files and its history, as one value. The replica is always the one
/// that the history leads to, and the files hold it unless it is absent or broken. Each call for an event takes
/// its memory first; one that doesn't end in `Memory` adds an entry, which its receipt names.
#[derive(Drop)]
pub struct ReplicaBook<F: Files> {
    state: BookState<F>,
}

impl<F: Files> Model for ReplicaBook<F> {
    ghost use Rattle.replica_files.specs.declared.book_state.BookState.{BookState};
    ghost use Rattle.replica_files.specs.Books.{IsBookOf};

    ghost Value = { BookState F };

    ghost view = { λ b. b.state };

    ghost invariant = { λ b. IsBookOf F.Files b.state };
}

/// The receipt of an event that was taken.
fn receipt_of(taken: Result<Taken, BookFault>) -> Result<Receipt, BookFault>
    ensures { IsReceiptOf taken result }
{
    match taken {
        Ok(taken) => Ok(taken.receipt),
        Err(fault) => Err(fault),
    }
}

impl<F: Files> ReplicaBook<F> {
    /// The book of an absent replica. Want of memory gives the drawer back.
    pub fn new(alloc: Global, block: BlockId, drawer: F) -> Result<ReplicaBook<F>, (AllocError, F)>
        requires { OnlyOf block.0 (F.files drawer) }
        ensures made { IfOk result (λ book. IsNew book block drawer) }
        ensures given_back { IfErr result (λ e. e.1 ≡ drawer) }
    {
        let replica = match Replica::new(alloc, block) {
            Ok(replica) => replica,
            Err(error) => return Err((error, drawer)),
        };
        let history = History {
            start: Start::Absent,
            entries: Vec::new(alloc),
        };
        let state = BookState {
            block,
            drawer,
            replica,
            last_sum: 0,
            history,
            whole: false,
        };
        Ok(ReplicaBook { state })
    }

    /// The book of a replica that a restart found, FINALIZED or RWR under this stamp and rule: its data file
    /// is read to its end. A failure gives the drawer back, whose files are as they were.
    pub fn found(
        alloc: Global,
        block: BlockId,
        state: ReplicaState,
        stamp: Stamp,
        sums: SumRule,
        mut drawer: F,
    ) -> Result<ReplicaBook<F>, (FoundFault, F)>
        requires settled { (state ≡ ReplicaState.Finalized) ⊎ (state ≡ ReplicaState.Rwr) }
        requires held { HoldsFound (F.files drawer) block state stamp sums }
        ensures made { IfOk result (λ book. IsFound F.Files book block state stamp sums drawer) }
        ensures given_back { IfErr result (λ e. GivesBack F.Files drawer e.1 e.0) }
    {
        let names = FileNames::new(block, folder_of(state), stamp);
        let (bytes, last_sum) = match read_found(alloc, &mut drawer, &names, sums) {
            Ok(found) => found,
            Err(fault) => return Err((fault, drawer)),
        };
        let len = bytes.len() as u64;
        let replica = match Replica::found(alloc, block, state, stamp, sums, len) {
            Ok(replica) => replica,
            Err(_) => return Err((FoundFault::Memory, drawer)),
        };
        let start = Start::Found {
            state,
            stamp,
            sums,
            bytes,
        };
        let history = History {
            start,
            entries: Vec::new(alloc),
        };
        let state = BookState {
            block,
            drawer,
            replica,
            last_sum,
            history,
            whole: false,
        };
        Ok(ReplicaBook { state })
    }

    /// The write request of a connection, which sets the replica up: a create, a transfer's temporary
    /// replica, an append or a recovery.
    pub fn setup(&mut self, event: &Event) -> Result<Receipt, BookFault>
        requires { IsSetup event.now }
        ensures { BookEnds F.Files self.old self.new (ReplicaEvent.Other event.now) result }
    {
        let taken = match event {
            Event::Create { .. } | Event::Temporary { .. } => self.state.make(*event),
            Event::StreamRecovery { .. } => self.state.cut(*event),
            _ => self.state.keep(*event),
        };
        receipt_of(taken)
    }

    /// A packet of a connection.
    pub fn packet(&mut self, conn: ConnId, packet: &Packet) -> Result<Receipt, BookFault>
        requires { length self.old.replica.pending < MAX_PENDING }
        ensures { BookEnds F.Files self.old self.new (ReplicaEvent.Packet conn packet.now) result }
    {
        receipt_of(self.state.packet(conn, packet))
    }

    /// The ack of the oldest pending packet, good where all below acked it.
    pub fn ack(&mut self, conn: ConnId, seqno: i64, good: bool) -> Result<Receipt, BookFault>
        ensures { BookEnds F.Files self.old self.new (ReplicaEvent.Other (Event.Ack conn seqno good)) result }
    {
        receipt_of(self.state.keep(Event::Ack { conn, seqno, good }))
    }

    /// The end of a connection, which is never refused.
    pub fn ended(&mut self, conn: ConnId) -> Result<Receipt, BookFault>
        ensures { BookEnds F.Files self.old self.new (ReplicaEvent.Other (Event.Ended conn)) result }
    {
        receipt_of(self.state.keep(Event::Ended { conn }))
    }

    /// The beginning of a block recovery, which learns the original state, the stamp and the length.
    pub fn init(
        &mut self,
        named: Stamp,
        recovery: Stamp,
    ) -> Result<((ReplicaState, Stamp, u64), Receipt), BookFault>
        requires { 1 ≤ recovery.0 }
        ensures { InitEnds F.Files self.old self.new (ReplicaEvent.Other (Event.Init named recovery)) result }
    {
        let taken = self.state.keep(Event::Init { named, recovery })?;
        match taken.answer {
            Answer::Info {
                state,
                stamp,
                length,
            } => Ok(((state, stamp, length), taken.receipt)),
            _ => unreachable!(),
        }
    }

    /// The end of a block recovery, which settles the length.
    pub fn update(&mut self, recovery: Stamp, length: u64) -> Result<Receipt, BookFault>
        ensures { BookEnds F.Files self.old self.new (ReplicaEvent.Other (Event.Update recovery length)) result }
    {
        receipt_of(self.state.cut(Event::Update { recovery, length }))
    }

    /// A read of which only the entry is made: its bytes are asked for afterwards, piece by piece, or `read_ahead` gave
    /// them.
    pub fn admit_read(
        &mut self,
        named: Stamp,
        offset: u64,
        length: u64,
    ) -> Result<Receipt, BookFault>
        ensures { BookEnds F.Files self.old self.new
            (ReplicaEvent.Other (Event.Read named offset length)) result }
    {
        receipt_of(
            self.state.keep(Event::Read {
                named,
                offset,
                length,
            }),
        )
    }

    /// The bytes that a read asks for, of which no entry is made yet: `admit_read` makes it, once what is to be done with
    /// them has its memory. A read that the replica refuses, or that failed at its files, has its entry at once.
    pub fn read_ahead(
        &mut self,
        named: Stamp,
        offset: u64,
        length: u64,
    ) -> Result<Vec<u8>, BookFault>
        ensures stays { OnOk result (StaysBook F.Files self.old self.new) }
        ensures ends { IfErr result (λ why. BookEnds F.Files self.old self.new
            (ReplicaEvent.Other (Event.Read named offset length)) (Err why)) }
        ensures bytes { IfOk result (λ bytes.
            ReadsBytes (F.files self.old.drawer) (replica_of self.old) offset length bytes.items) }
    {
        let event = Event::Read {
            named,
            offset,
            length,
        };
        self.state.read_ahead(&event, offset, length)
    }

    /// A read: gives `into` the bytes that it asks for, in place of what that held. `into` stays as it was
    /// where the read isn't answered.
    pub fn read(
        &mut self,
        named: Stamp,
        offset: u64,
        length: u64,
        into: &mut Vec<u8>,
    ) -> Result<Receipt, BookFault>
        ensures ends { BookEnds F.Files self.old self.new
            (ReplicaEvent.Other (Event.Read named offset length)) result }
        ensures bytes { IfOk result (λ _.
            ReadsBytes (F.files self.old.drawer) (replica_of self.old) offset length into.new.items) }
        ensures kept { OnErr result (into.new.items ≡ into.old.items) }
    {
        let event = Event::Read {
            named,
            offset,
            length,
        };
        receipt_of(self.state.read(event, offset, length, into))
    }

    /// What a transfer is given of a replica being written under just this stamp, as `read`.
    pub fn give(
        &mut self,
        named: Stamp,
        offset: u64,
        length: u64,
        into: &mut Vec<u8>,
    ) -> Result<Receipt, BookFault>
        ensures ends { BookEnds F.Files self.old self.new
            (ReplicaEvent.Other (Event.Give named offset length)) result }
        ensures bytes { IfOk result (λ _.
            ReadsBytes (F.files self.old.drawer) (replica_of self.old) offset length into.new.items) }
        ensures kept { OnErr result (into.new.items ≡ into.old.items) }
    {
        let event = Event::Give {
            named,
            offset,
            length,
        };
        receipt_of(self.state.read(event, offset, length, into))
    }

    /// The CRC32C of all written bytes, which are read from the data file piece by piece; none where the replica
    /// is absent or broken. The book stays as it was, without an entry more, and so do its files.
    pub fn written_sum(&mut self, alloc: Global) -> Result<Option<u32>, SumFault>
        ensures sum { IfOk result (SumsWritten (F.files self.old.drawer) (replica_of self.old)) }
        ensures kept { LeavesBook F.Files self.old self.new }
        ensures cause { SumsFor (F.faults self.old.drawer) (F.faults self.new.drawer) result }
    {
        self.state.written_sum(alloc)
    }

    /// The replica.
    pub fn replica(&self) -> &Replica
        ensures replica { result.now ≡ self.now.replica }
        ensures kept { IsBookOf F.Files self.now }
    {
        &self.state.replica
    }

    /// How many entries the history has.
    pub fn entries(&self) -> u64
        ensures { result ≡ length self.now.history.entries.items }
    {
        self.state.history.entries.len() as u64
    }

    /// Whether the files hold the replica as it was before it broke, or it isn't broken.
    pub fn has_whole_files(&self) -> bool
        ensures whole { result ≡ true → HoldsWhole (F.files self.now.drawer) (replica_of self.now) }
        ensures cause { result ≡ false → FaultsIncreased 0 (F.faults self.now.drawer) }
    {
        !self.state.replica.is_broken() || self.state.whole
    }

    /// The drawer and the history. Takes no memory.
    pub fn close_book(self) -> (F, History)
        ensures drawer { result.0 ≡ self.drawer }
        ensures history { result.1 ≡ self.history }
        ensures kept { IsBookOf F.Files self }
    {
        (self.state.drawer, self.state.history)
    }
}

impl<F: Refusing> ReplicaBook<F> {
    /// From now on writes on the data file are refused. Want of memory changes nothing that is observable.
    pub fn refuse_writes(&mut self, alloc: Global) -> Result<(), AllocError>
        ensures begins { OnOk result (F.log self.new.drawer
            ≡ option_map (λ m. record { start = m; calls = [] }) (F.files self.old.drawer)) }
        ensures none { OnOk result (F.refused self.new.drawer ≡ false) }
        ensures files { F.files self.new.drawer ≡ F.files self.old.drawer }
        ensures faults { F.faults self.new.drawer ≡ F.faults self.old.drawer }
        ensures kept { KeepsRest self.old self.new }
    {
        self.state.drawer.refuse_writes(alloc)
    }

    /// From now on they are made. Answers whether one was refused.
    pub fn take_writes(&mut self) -> bool
        ensures refused { result ≡ F.refused self.old.drawer }
        ensures files { F.files self.new.drawer ≡ F.files self.old.drawer }
        ensures faults { F.refused self.old.drawer ≡ false → F.faults self.new.drawer ≡ F.faults self.old.drawer }
        ensures kept { KeepsReplica self.old self.new }
    {
        let refused = self.state.drawer.take_writes();
        // A call that was refused left the files as they were.
        if refused {
            self.state.whole = true;
        }
        refused
    }
}
