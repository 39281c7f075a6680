//! Reads of bytes for which an hflush, hsync or close was answered.

ghost use Rattle.std.specs.Prelude.{◌≡◌, ◌≤◌, IfOk, OnErr};
ghost use Rattle.replica_core.specs.declared.events.Event.TheVariants as Event;
ghost use Rattle.replica_model.specs.declared.events.ReplicaEvent.TheVariants as ReplicaEvent;
ghost use Rattle.replica_files.specs.Books.{replica_of};
ghost use Rattle.replica_files.specs.Endings.{BookEnds};
ghost use Rattle.replica_files.specs.Reads.{ReadsBytes};
ghost use Rattle.world.specs.Worlds.{start};
ghost use Rattle.world.specs.Events.{run};
ghost use Rattle.world_reads.specs.Reading.{StaysReadable, ReadsAnswered};

use hd_base::{Files, Receipt, Stamp};
use replica_files::{BookFault, ReplicaBook};
use world::Schedule;
use world_writers::kept_law;

/// Bytes for which an hflush, hsync or close was answered stay readable at each member that is steady since the stamp
/// of the answer: its replica takes a read of them that names no later stamp, and has there what the writer wrote.
pub fn answered_bytes_stay_readable(schedule: &Schedule)
    requires low { 1 ≤ schedule.now.nodes }
    requires high { schedule.now.nodes ≤ 16 }
    ensures { StaysReadable (run (start schedule.now.nodes) schedule.now.events) }
{
    kept_law(schedule);
}

/// One read of a book. At the book of a member that is steady since an answer's stamp, where the read names no later
/// stamp and ends at or below the answered length, it gives what the writer wrote, where files are observable; or a
/// call on the files failed, or memory ran out. It isn't refused.
pub fn read_answered<F: Files>(
    schedule: &Schedule,
    book: &mut ReplicaBook<F>,
    named: Stamp,
    offset: u64,
    length: u64,
    into: &mut Vec<u8>,
) -> Result<Receipt, BookFault>
    requires low { 1 ≤ schedule.now.nodes }
    requires high { schedule.now.nodes ≤ 16 }
    ensures ends { BookEnds F.Files book.old book.new (ReplicaEvent.Other (Event.Read named offset length)) result }
    ensures bytes { IfOk result (λ _.
        ReadsBytes (F.files book.old.drawer) (replica_of book.old) offset length into.new.items) }
    ensures kept { OnErr result (into.new.items ≡ into.old.items) }
    ensures readable { ReadsAnswered F.Files (run (start schedule.now.nodes) schedule.now.events)
        book.old book.new named offset length into.new.items result }
{
    answered_bytes_stay_readable(schedule);
    book.read(named, offset, length, into)
}
