//! Roads in memory.

ghost use Rattle.std.specs.Prelude.{◌≡◌, ◌↔◌, ◌==◌, ◌+◌, ◌<◌, ◌≤◌, ◌&&◌, ◌||◌, ◌∷◌, ◌++◌, ℕ, not, IsTrue, nat_lt, true, false, Some, None, [], length, drop, IfSome, IfOk, OnOk, OnErr, if◌then◌else◌, vec_len};
ghost use Rattle.std.specs.List.{position_from};
ghost use Rattle.hd_base.specs.Faults.{KeepsSchedule};
ghost use Rattle.hd_base.specs.Lists.{joined};
ghost use Rattle.hd_base.specs.Channels.{Carries, nothing_carried, carry, unflushed, with_flushed, with_given};
ghost use Rattle.hd_base.specs.RoadCauses.{OnlyMemory};
ghost use Rattle.hd_base.specs.Ends.{CarriesOf, Flushes, KeepsConnections, IsKnown, has_failed};
ghost use Rattle.mem_ports.specs.Ends.{sent_by, lost_by, room_by};
ghost use Rattle.mem_ports.specs.Failing.{schedule_of};
ghost use Rattle.mem_ports.specs.Schedules.{coming};
ghost use Rattle.mem_ports.specs.Duplexes.{channels_of};
ghost use Rattle.mem_ports.specs.Traces.{carried_of, trace_below};
ghost use Rattle.mem_ports.specs.Roads.{listening_of, waiting_at, waiting_with, plain_of, nothing_held, risen_of, dials_below};

use crate::dials::{Dial, find_dial};
use crate::duplexes::DuplexChannel;
use crate::inward::MemIn;
use crate::outward::MemOut;
use crate::schedules::FaultSchedule;
use crate::trace::{TraceEntry, all_below, bytes_carried, carry_on, share_pieces};
use hd_base::{
    Conn, ConnId, FIRST_PORT, LinkIn, LinkOut, MAX_NODES, NodeId, RoadError, Roads, Standing,
};
use std::alloc::{AllocError, Global};
use std::collections::VecDeque;

/// How many nodes there may be.
const NODES: usize = MAX_NODES as usize;

/// Roads over plain memory, which fail at the calls of their list. What an end gives out counts
/// on from the call that gave it.
#[derive(Debug, Drop)]
pub struct MemRoads {
    /// Which nodes listen.
    listening: [bool; NODES],
    dials: Vec<Dial>,
    duplexes: Vec<DuplexChannel>,
    trace: Vec<TraceEntry>,
    /// The connections an end of which had failed.
    risen: Vec<u64>,
    /// The faults of the shares that came back.
    pub(crate) brought: u64,
    pub(crate) schedule: FaultSchedule,
    ghost dials_known: { dials_below (vec_len duplexes) dials.items ≡ true },
    ghost trace_known: { trace_below (vec_len duplexes) trace.items ≡ true },
}

impl MemRoads {
    ghost use Rattle.mem_ports.specs.RoadStates.{carried_with, channels_with};

    /// Roads on which nothing was dialled, which fail at the calls with these numbers, counting
    /// from 1.
    pub fn new(alloc: Global, failing: &[u64]) -> Result<MemRoads, AllocError>
        ensures carried { IfOk result (λ r. ⟦<MemRoads as Roads>⟧.carried r ≡ Some nothing_carried) }
        ensures plain { IfOk result (λ r. ⟦<MemRoads as Roads>⟧.plain r ≡ Some nothing_held) }
        ensures risen { IfOk result (λ r. (conn : ℕ) → ⟦<MemRoads as Roads>⟧.risen r conn ≡ false) }
        ensures sound { IfOk result (λ r. ⟦<MemRoads as Roads>⟧.faults r ≡ 0) }
        ensures schedule { IfOk result (λ r. ⟦<MemRoads as Roads>⟧.schedule r ≡ Some (schedule_of failing.now)) }
    {
        Ok(MemRoads {
            listening: [false; NODES],
            dials: Vec::new(alloc),
            duplexes: Vec::new(alloc),
            trace: Vec::new(alloc),
            risen: Vec::new(alloc),
            brought: 0,
            schedule: FaultSchedule::new(alloc, failing)?,
        })
    }

    /// The bytes that a connection's direction has carried, in the order sent, in one list.
    pub fn carried_bytes(
        &self,
        alloc: Global,
        conn: ConnId,
        down: bool,
    ) -> Result<Vec<u8>, AllocError>
        ensures { IfOk result (λ bytes. IfSome (⟦<MemRoads as Roads>⟧.carried self.now) (λ carried.
            bytes.items ≡ carried conn.0 down)) }
    {
        bytes_carried(alloc, &self.trace, conn, down)
    }

    /// Whether the connection was dialled on these roads, so that its ends can be exchanged and brought back.
    pub fn knows(&self, conn: ConnId) -> bool
        ensures { IsTrue result ↔ IsKnown (⟦<MemRoads as Roads>⟧.plain self.now) conn.0 }
    {
        conn.0 < self.duplexes.len() as u64
    }

    /// Whether somebody listens on the port.
    fn is_listening(&self, port: u16) -> bool
        ensures { result ≡ listening_of self.now.listening port }
    {
        if port < FIRST_PORT {
            return false;
        }
        let node = usize::from(port - FIRST_PORT);
        node < NODES && self.listening[node]
    }

    /// The place of the oldest dial at a port.
    fn find(&self, port: u16) -> Option<usize>
        ensures place { result ≡ position_from (λ d. d.port == port) 0 self.now.dials.items }
        ensures within { IfSome result (λ i. i < vec_len self.now.dials) }
    {
        find_dial(&self.dials, port)
    }

    /// A fresh end of a connection.
    fn end(&self, alloc: Global, id: ConnId, lower: bool) -> Result<Conn<MemIn, MemOut>, AllocError>
        ensures id { IfOk result (λ c. (c.id ≡ id) × (c.lower ≡ lower)) }
        ensures held { IfOk result (λ c. (c.inward.piece ≡ None) × (c.inward.ended ≡ false)) }
        ensures sent { IfOk result (λ c.
            (c.outward.sent.items ≡ []) × (c.outward.fresh ≡ None) × (c.outward.flushed ≡ 0)) }
        ensures open { IfOk result (λ c. (c.inward.shut ≡ false) × (c.outward.shut ≡ false)) }
        ensures sound { IfOk result (λ c. (c.inward.schedule.faults ≡ 0) × (c.outward.schedule.faults ≡ 0)) }
        ensures in_schedule { IfOk result (λ c.
            c.inward.schedule.coming.items ≡ self.now.schedule.coming.items) }
        ensures out_schedule { IfOk result (λ c.
            c.outward.schedule.coming.items ≡ self.now.schedule.coming.items) }
    {
        Ok(Conn {
            id,
            lower,
            inward: MemIn::new(self.schedule.renewed(alloc)?),
            outward: MemOut::new(alloc, self.schedule.renewed(alloc)?),
        })
    }

    /// Makes a connection, whose upper end is given and whose lower one waits at the port.
    fn connect(&mut self, alloc: Global, port: u16) -> Result<Conn<MemIn, MemOut>, AllocError>
        ensures upper { IfOk result (λ c. (c.lower ≡ false) × (c.id.0 ≡ length self.old.duplexes.items)) }
        ensures held { IfOk result (λ c. (c.inward.piece ≡ None) × (c.inward.ended ≡ false)) }
        ensures sent { IfOk result (λ c.
            (c.outward.sent.items ≡ []) × (c.outward.fresh ≡ None) × (c.outward.flushed ≡ 0)) }
        ensures open { IfOk result (λ c. (c.inward.shut ≡ false) × (c.outward.shut ≡ false)) }
        ensures sound { IfOk result (λ c. (c.inward.schedule.faults ≡ 0) × (c.outward.schedule.faults ≡ 0)) }
        ensures in_schedule { IfOk result (λ c.
            c.inward.schedule.coming.items ≡ self.old.schedule.coming.items) }
        ensures out_schedule { IfOk result (λ c.
            c.outward.schedule.coming.items ≡ self.old.schedule.coming.items) }
        ensures duplexes { OnOk result (length self.new.duplexes.items ≡ length self.old.duplexes.items + 1) }
        ensures channels { channels_of self.new.duplexes.items ≡ channels_of self.old.duplexes.items }
        ensures dials { OnOk result (waiting_at self.new.dials.items
            ≡ waiting_with (waiting_at self.old.dials.items) port (length self.old.duplexes.items)) }
        ensures err_duplexes { OnErr result (length self.new.duplexes.items ≡ length self.old.duplexes.items) }
        ensures err_dials { OnErr result (waiting_at self.new.dials.items ≡ waiting_at self.old.dials.items) }
        ensures listening { self.new.listening ≡ self.old.listening }
        ensures trace { self.new.trace ≡ self.old.trace }
        ensures risen { self.new.risen ≡ self.old.risen }
        ensures brought { self.new.brought ≡ self.old.brought }
        ensures schedule { self.new.schedule ≡ self.old.schedule }
    {
        let conn = ConnId(self.duplexes.len() as u64);
        let end = self.end(alloc, conn, false)?;
        self.dials.reserve(1)?;
        self.duplexes.reserve(1)?;
        self.duplexes.push_reserved(DuplexChannel::new(alloc));
        self.dials.push_reserved(Dial { port, conn });
        Ok(end)
    }

    /// Takes over what an end sent since it was flushed last, and its shut. After an error nothing
    /// has changed.
    fn take_over(&mut self, alloc: Global, end: &mut Conn<MemIn, MemOut>) -> Result<(), AllocError>
        requires { end.old.id.0 < length self.old.duplexes.items }
        ensures flushed { OnOk result (end.new.outward.flushed ≡ length (sent_by end.old.outward)) }
        ensures carried { OnOk result (
            carried_of self.new.trace.items ≡ carried_with (carried_of self.old.trace.items) end.old) }
        ensures channels { OnOk result (
            channels_of self.new.duplexes.items ≡ channels_with (channels_of self.old.duplexes.items) end.old) }
        ensures err_flushed { OnErr result (end.new.outward.flushed ≡ end.old.outward.flushed) }
        ensures err_carried { OnErr result (carried_of self.new.trace.items ≡ carried_of self.old.trace.items) }
        ensures err_channels { OnErr result (
            channels_of self.new.duplexes.items ≡ channels_of self.old.duplexes.items) }
        ensures duplexes { length self.new.duplexes.items ≡ length self.old.duplexes.items }
        ensures listening { self.new.listening ≡ self.old.listening }
        ensures dials { self.new.dials ≡ self.old.dials }
        ensures risen { self.new.risen ≡ self.old.risen }
        ensures brought { self.new.brought ≡ self.old.brought }
        ensures schedule { self.new.schedule ≡ self.old.schedule }
        ensures end { (end.new.id ≡ end.old.id) × (end.new.lower ≡ end.old.lower) }
        ensures inward { end.new.inward ≡ end.old.inward }
        ensures sent { sent_by end.new.outward ≡ sent_by end.old.outward }
        ensures lost { lost_by end.new.outward ≡ lost_by end.old.outward }
        ensures room { room_by end.old.outward ≤ room_by end.new.outward }
        ensures shut { end.new.outward.shut ≡ end.old.outward.shut }
        ensures out_schedule { end.new.outward.schedule ≡ end.old.outward.schedule }
    {
        let place = end.id.0 as usize;
        let down = !end.lower;
        let shut = is_shut(end);
        end.outward.settle(alloc)?;
        let entry = share_pieces(alloc, end.outward.unflushed())?;
        let mut given = VecDeque::from_vec(share_pieces(alloc, end.outward.deliverable())?);
        self.trace.reserve(1)?;
        let duplex = &mut self.duplexes[place];
        duplex.give(down, &mut given, shut)?;
        carry_on(&mut self.trace, end.id, down, entry);
        end.outward.flushed = end.outward.sent.len();
        Ok(())
    }

    /// Puts a share's trace entries and risen connections to the others. After an error nothing has
    /// changed.
    fn join(&mut self, mut trace: Vec<TraceEntry>, mut risen: Vec<u64>) -> Result<(), AllocError>
        requires { trace_below (vec_len self.old.duplexes) trace.items ≡ true }
        ensures trace { OnOk result (self.new.trace.items ≡ self.old.trace.items ++ trace.items) }
        ensures risen { OnOk result (self.new.risen.items ≡ self.old.risen.items ++ risen.items) }
        ensures err_trace { OnErr result (self.new.trace.items ≡ self.old.trace.items) }
        ensures err_risen { OnErr result (self.new.risen.items ≡ self.old.risen.items) }
        ensures listening { self.new.listening ≡ self.old.listening }
        ensures dials { self.new.dials ≡ self.old.dials }
        ensures duplexes { self.new.duplexes ≡ self.old.duplexes }
        ensures brought { self.new.brought ≡ self.old.brought }
        ensures schedule { self.new.schedule ≡ self.old.schedule }
    {
        self.risen.reserve(risen.len())?;
        self.trace.append(&mut trace)?;
        self.risen.append(&mut risen)
    }
}

/// Whether one of an end's halves was shut.
fn is_shut(end: &Conn<MemIn, MemOut>) -> bool
    ensures { result ≡ (end.now.inward.shut || end.now.outward.shut) }
{
    end.inward.shut || end.outward.shut
}

impl Roads for MemRoads {
    ghost use Rattle.mem_ports.specs.RoadStates.{carried_by, plain_shown, faults_of};

    type Inward = MemIn;

    type Outward = MemOut;

    ghost carried = { λ r. Some (carried_of r.trace.items) };

    ghost plain = { λ r. Some (plain_of r.listening r.dials.items r.duplexes.items) };

    ghost risen = { λ r. risen_of r.risen.items };

    ghost faults = { λ r. r.schedule.faults + r.brought };

    ghost schedule = { λ r. coming r.schedule };

    /// These roads can't be shared: the call is counted and answers `Memory`, or `Failed` where it
    /// was to fail.
    fn share(&mut self, _alloc: Global) -> Result<MemRoads, RoadError> {
        if self.schedule.next() {
            return Err(RoadError::Failed);
        }
        Err(RoadError::Memory)
    }

    fn listen(&mut self, _alloc: Global, node: NodeId) -> Result<u16, RoadError> {
        if self.schedule.next() {
            return Err(RoadError::Failed);
        }
        self.listening[node.0 as usize] = true;
        Ok(FIRST_PORT + node.0 as u16)
    }

    fn dial(&mut self, alloc: Global, port: u16) -> Result<Conn<MemIn, MemOut>, RoadError> {
        let due = self.schedule.next();
        if !self.is_listening(port) {
            return Err(RoadError::NotListening);
        }
        if due {
            return Err(RoadError::Failed);
        }
        let Ok(end) = self.connect(alloc, port) else {
            return Err(RoadError::Memory);
        };
        Ok(end)
    }

    fn accept(
        &mut self,
        alloc: Global,
        port: u16,
    ) -> Result<Option<Conn<MemIn, MemOut>>, RoadError> {
        if self.schedule.next() {
            return Err(RoadError::Failed);
        }
        let Some(place) = self.find(port) else {
            return Ok(None);
        };
        let Ok(end) = self.end(alloc, self.dials[place].conn, true) else {
            return Err(RoadError::Memory);
        };
        self.dials.remove(place);
        Ok(Some(end))
    }

    fn hang_up(&mut self, port: u16) {
        if port >= FIRST_PORT {
            let node = usize::from(port - FIRST_PORT);
            if node < NODES {
                self.listening[node] = false;
            }
        }
    }

    fn standing(&mut self, conn: ConnId, down: bool) -> Standing {
        let place = conn.0 as usize;
        if place < self.duplexes.len() {
            self.duplexes[place].standing(down)
        } else {
            Standing::Nothing
        }
    }

    fn exchange(
        &mut self,
        alloc: Global,
        end: &mut Conn<MemIn, MemOut>,
        take: bool,
    ) -> Result<(), RoadError> {
        if self.schedule.next() {
            return Err(RoadError::Failed);
        }
        let place = end.id.0 as usize;
        let lower = end.lower;
        let Ok(()) = self.take_over(alloc, end) else {
            return Err(RoadError::Memory);
        };
        if take {
            let duplex = &mut self.duplexes[place];
            duplex.feed(lower, &mut end.inward);
        }
        Ok(())
    }

    fn bring(&mut self, alloc: Global, mut end: Conn<MemIn, MemOut>) -> Result<(), RoadError>
        requires { IsKnown (plain_shown self.old) end.id.0 }
        ensures carried { OnOk result (CarriesOf
            ⟦<MemOut as LinkOut>⟧ end (carried_by self.old) (carried_by self.new)) }
        ensures plain { OnOk result (Flushes
            ⟦<MemIn as LinkIn>⟧ ⟦<MemOut as LinkOut>⟧ end (plain_shown self.old) (plain_shown self.new)) }
        ensures connections { KeepsConnections (plain_shown self.old) (plain_shown self.new) }
        ensures risen { OnOk result ((c : ℕ) → risen_of self.new.risen.items c
            ≡ (risen_of self.old.risen.items c
            || ((end.id.0 == c) && has_failed ⟦<MemIn as LinkIn>⟧ ⟦<MemOut as LinkOut>⟧ end))) }
        ensures err_carried { OnErr result (carried_by self.new ≡ carried_by self.old) }
        ensures err_plain { OnErr result (plain_shown self.new ≡ plain_shown self.old) }
        ensures err_risen { OnErr result (risen_of self.new.risen.items ≡ risen_of self.old.risen.items) }
        ensures cause { OnlyMemory (faults_of self.old) (faults_of self.new) result }
        ensures schedule { KeepsSchedule
            (coming self.old.schedule) (coming self.new.schedule) (faults_of self.old) (faults_of self.new) }
    {
        let failed = end.inward.schedule.faults > 0 || end.outward.schedule.faults > 0;
        if self.risen.reserve(1).is_err() || self.take_over(alloc, &mut end).is_err() {
            return Err(RoadError::Memory);
        }
        if failed {
            self.risen.push_reserved(end.id.0);
        }
        Ok(())
    }

    fn risen(&self, conn: ConnId) -> bool {
        self.risen.contains(&conn.0)
    }

    /// A share of other roads, which carried on connections that were never made on these, is
    /// refused with `Memory`.
    fn gather(&mut self, _alloc: Global, share: MemRoads) -> Result<(), RoadError> {
        let MemRoads {
            listening: _,
            dials: _,
            duplexes: _,
            trace,
            risen,
            brought,
            schedule,
        } = share;
        if !all_below(&trace, self.duplexes.len() as u64) {
            return Err(RoadError::Memory);
        }
        let Ok(()) = self.join(trace, risen) else {
            return Err(RoadError::Memory);
        };
        self.brought = self
            .brought
            .saturating_add(schedule.faults)
            .saturating_add(brought);
        Ok(())
    }
}
