//! Packets.

ghost use Rattle.std.specs.Prelude.{◌≡◌, ℕ, ◌<◌, ◌≤◌, List, drop, length, IfOk, IfSome};
ghost use Rattle.hd_base.specs.Bytes.{IsBytes};
ghost use Rattle.replica_core.specs.Sound.{IsConsistent};
ghost use Rattle.replica_calls.specs.LastSums.{IsGrowing};
ghost use Rattle.replica_calls.specs.Performed.{RoomCause};
ghost use Rattle.replica_files.specs.Entries.{HasSpare};
ghost use Rattle.replica_files.specs.Books.{IsBookOf};
ghost use Rattle.replica_files.specs.Carried.{AreSumsOf, HoldsGrowing, IsToGrow, GrowsFiles, CarriesOut};
ghost use Rattle.replica_files.specs.Packets.{brought_by, IsReadyToGrow, IsAmidGrowing, IsAmidPacket};
ghost use Rattle.replica_files.specs.Steps.{IsPrepared};
ghost use Rattle.replica_core.specs.declared.ack_queue.TheConstants.{MAX_PENDING};
ghost use Rattle.replica_files.specs.Endings.{CallEnds, TakenEnds};

use crate::book_state::{BookState, Prior, Taken, reserve_entry};
use crate::faults::BookFault;
use hd_base::{BlockId, ConnId, FileError, Files, SumRule};
use packet_codec::Packet;
use replica_calls::{FileNames, GrownSums, grow, grown_sums, secure};
use replica_core::{Answer, ReplicaInfo};
use replica_model::{ReplicaEvent, sum_place};
use std::alloc::{AllocError, Global};

/// What a packet brings to a replica that is there.
#[derive(Drop)]
pub(crate) struct Growth {
    /// How many of the packet's first bytes are written already.
    from: usize,
    /// The sums once those behind them are written too.
    sums: GrownSums,
}

/// How many bytes there are.
fn len_of(bytes: &[u8]) -> usize
    ensures len { result ≡ length bytes.now }
    ensures bytes { IsBytes bytes.now }
{
    bytes.len()
}

/// How many of a packet's first bytes are written already, where so many of the block are.
fn overlap(written: u64, packet: &Packet) -> usize
    ensures brought { drop result packet.now.body ≡ brought_by written packet.now }
    ensures within { result ≤ length packet.now.body }
    ensures bytes { IsBytes packet.now.body }
{
    let behind = written.saturating_sub(packet.offset.unsigned_abs());
    let len = len_of(&packet.body);
    if behind < len as u64 {
        behind as usize
    } else {
        len
    }
}

/// The sums where `more` is written behind `written` bytes, also where that is nothing.
fn sums_after(
    alloc: Global,
    rule: SumRule,
    written: u64,
    last_sum: u32,
    more: &[u8],
) -> Result<GrownSums, AllocError>
    ensures { IfOk result (λ grown. (bytes : List ℕ) → IsGrowing rule written last_sum bytes
        → AreSumsOf rule bytes more.now grown) }
{
    if more.is_empty() {
        return Ok(GrownSums {
            sums: Vec::new(alloc),
            last: last_sum,
        });
    }
    grown_sums(alloc, rule, written, last_sum, more)
}

/// Makes the files of what is held grow, and answers the sum of the last chunk then.
fn grow_files<F: Files>(
    drawer: &mut F,
    block: BlockId,
    held: ReplicaInfo,
    more: &[u8],
    grown: &GrownSums,
    sync: bool,
) -> Result<u32, FileError>
    requires { IsToGrow F.Files drawer.old block held more.now grown.now }
    ensures { (bytes : List ℕ) → HoldsGrowing (F.files drawer.old) block held bytes more.now grown.now
        → GrowsFiles F.Files drawer.old drawer.new block held bytes more.now sync result }
{
    let names = FileNames::of(block, &held);
    grow(
        drawer,
        &names,
        held.sums,
        held.written,
        more,
        &grown.sums,
        sync,
    )?;
    Ok(grown.last)
}

/// Makes the calls of a packet that was taken, by what was held before.
fn grow_info<F: Files>(
    drawer: &mut F,
    block: BlockId,
    prior: &Prior,
    packet: &Packet,
    growth: Option<Growth>,
    last_sum: u32,
) -> Result<u32, FileError>
    requires { IsAmidGrowing F.Files drawer.old block prior.now packet.now growth last_sum }
    ensures { (a : IsAmidGrowing F.Files drawer.old block prior.now packet.now growth last_sum)
        → CarriesOut F.Files drawer.old drawer.new block a.r (ReplicaEvent.Packet a.conn packet.now) result }
{
    let Some(held) = prior.info else {
        return Ok(last_sum);
    };
    let Some(growth) = growth else {
        return Ok(last_sum);
    };
    let more = &packet.body[growth.from..];
    grow_files(drawer, block, held, more, &growth.sums, packet.sync)
}

impl<F: Files> BookState<F> {
    /// Takes a packet.
    pub(crate) fn packet(&mut self, conn: ConnId, packet: &Packet) -> Result<Taken, BookFault>
        requires book { IsBookOf F.Files self.old }
        requires place { length self.old.replica.pending < MAX_PENDING }
        ensures book { IsBookOf F.Files self.new }
        ensures ends { CallEnds F.Files self.old self.new (ReplicaEvent.Packet conn packet.now) result }
    {
        reserve_entry(&mut self.history)?;
        let kept = packet.clone()?;
        if self.replica.is_broken() {
            return Err(self.refuse_broken(ReplicaEvent::Packet { conn, packet: kept }));
        }
        match self.prepare_growth(packet) {
            Ok(growth) => self.grow_prepared(conn, kept, packet, growth),
            Err(FileError::Memory) => Err(BookFault::Memory),
            Err(_) => Err(self.fail(ReplicaEvent::Packet { conn, packet: kept })),
        }
    }

    /// Computes the sums that a packet brings, and takes room for its bytes and for them; `None` where the
    /// replica is absent.
    fn prepare_growth(&mut self, packet: &Packet) -> Result<Option<Growth>, FileError>
        requires book { IsBookOf F.Files self.old }
        ensures prepared { IsPrepared F.Files self.old self.new }
        ensures history { self.new.history ≡ self.old.history }
        ensures ready { IfOk result (λ growth. IsReadyToGrow F.Files self.new self.new.replica.info packet.now growth) }
        ensures cause { RoomCause (F.faults self.old.drawer) (F.faults self.new.drawer) result }
    {
        let Some(held) = self.replica.info() else {
            return Ok(None);
        };
        let alloc = *self.history.entries.allocator();
        let from = overlap(held.written, packet);
        let more = &packet.body[from..];
        let sums = sums_after(alloc, held.sums, held.written, self.last_sum, more)?;
        let names = FileNames::of(self.block, &held);
        let end = held.written.saturating_add(more.len() as u64);
        let sums_end = sum_place(held.sums, held.written) + sums.sums.len() as u64;
        secure(alloc, &mut self.drawer, &names, end, sums_end)?;
        Ok(Some(Growth { from, sums }))
    }

    /// Takes the packet, for which there is room.
    fn grow_prepared(
        &mut self,
        conn: ConnId,
        kept: Packet,
        packet: &Packet,
        growth: Option<Growth>,
    ) -> Result<Taken, BookFault>
        requires book { IsBookOf F.Files self.old }
        requires spare { HasSpare self.old.history }
        requires place { length self.old.replica.pending < MAX_PENDING }
        requires same { kept ≡ packet.now }
        requires ready { IsReadyToGrow F.Files self.old self.old.replica.info packet.now growth }
        ensures book { IsBookOf F.Files self.new }
        ensures ends { CallEnds F.Files self.old self.new (ReplicaEvent.Packet conn packet.now) result }
    {
        let prior = self.prior();
        let event = ReplicaEvent::Packet { conn, packet: kept };
        match self.step(&event) {
            Err(refusal) => Err(self.refuse(event, refusal)),
            Ok(answer) => self.grow_taken(event, &prior, answer, packet, growth),
        }
    }

    /// Makes the calls of a packet that was taken, and adds its entry.
    fn grow_taken(
        &mut self,
        event: ReplicaEvent,
        prior: &Prior,
        answer: Answer,
        packet: &Packet,
        growth: Option<Growth>,
    ) -> Result<Taken, BookFault>
        requires spare { HasSpare self.old.history }
        requires consistent { IfSome prior.now.info IsConsistent }
        requires amid { IsAmidPacket F.Files self.old event prior.now answer packet.now growth }
        ensures book { IsBookOf F.Files self.new }
        ensures ends { TakenEnds F.Files self.old self.new event result }
    {
        let block = self.block;
        let made = grow_info(
            &mut self.drawer,
            block,
            prior,
            packet,
            growth,
            self.last_sum,
        );
        self.finish(event, prior, answer, made)
    }
}
