//! A new reader asks a node.

ghost use Rattle.std.specs.Prelude.{◌≡◌, true, is_some, IfOk};
ghost use Rattle.hd_base.specs.Ends.{IsKnown};
ghost use Rattle.visible_read.specs.Talking.{FitsRequest};
ghost use Rattle.client_events.specs.MemberEvents.Roads.{RoadsPass};
ghost use Rattle.reader_events.specs.Asking.{
  AskShows,
  AskedIsKnown,
  AskedIsOpen,
  node_port,
  IsAsked,
  IsBegun,
  IsSent,
  IsFlushed,
  Accepts,
};

use crate::faults::{ReaderFault, road_fault};
use crate::hearing::given_back;
use hd_base::{Conn, FIRST_PORT, LinkIn, LinkOut, NodeId, RoadError, Roads};
use op_headers::ReadOp;
use std::alloc::Global;
use visible_read::{ReadStep, Reading};
use world_settling::MAX_PORT;

/// How a new reader asked a node.
#[derive(Drop)]
pub enum Asked<I, O> {
    /// The node was asked.
    Reading {
        /// The read, whose request was sent.
        reading: Reading<I, O>,
        /// The lower end of its connection.
        lower: Conn<I, O>,
    },
    /// Nobody listens at the node's port: its dial wasn't answered, and the read has ended.
    Unanswered,
}

/// A new reader dials a node and sends its request, on the next connection, whose lower end is accepted at the node's
/// port. The request's message has at most 65,536 bytes: `visible_read::fits_request` tests this.
pub fn ask<I: LinkIn, O: LinkOut, R: Roads<Inward = I, Outward = O>>(
    alloc: Global,
    roads: &mut R,
    op: ReadOp,
    node: NodeId,
) -> Result<Asked<I, O>, ReaderFault>
    requires { FitsRequest op }
    ensures shows { AskShows R.Roads I.LinkIn O.LinkOut op node roads.old roads.new result }
    ensures open { IfOk result AskedIsOpen }
    ensures pass { RoadsPass R.Roads roads.old roads.new }
    ensures known { IfOk result (AskedIsKnown (R.plain roads.new)) }
{
    let port = node_port(node);
    match roads.dial(alloc, port) {
        Ok(end) => reached(alloc, roads, port, op, end),
        Err(RoadError::NotListening) => Ok(Asked::Unanswered),
        Err(RoadError::Failed) => Err(ReaderFault::RoadsFailed),
        Err(RoadError::Memory) => Err(ReaderFault::Memory),
    }
}

/// The port of a node, and the last port where that is none.
fn node_port(node: NodeId) -> u16
    ensures { result ≡ node_port node }
{
    u32::from(FIRST_PORT).saturating_add(node.0).min(MAX_PORT) as u16
}

/// Sends the request on an end that was dialled, and accepts the dial at the port.
fn reached<I: LinkIn, O: LinkOut, R: Roads<Inward = I, Outward = O>>(
    alloc: Global,
    roads: &mut R,
    port: u16,
    op: ReadOp,
    end: Conn<I, O>,
) -> Result<Asked<I, O>, ReaderFault>
    requires fits { FitsRequest op }
    requires known { IsKnown (R.plain roads.old) end.id.0 }
    ensures asks { IsAsked R.Roads I.LinkIn O.LinkOut port op end roads.old roads.new result }
    ensures open { IfOk result AskedIsOpen }
    ensures passes { RoadsPass R.Roads roads.old roads.new }
    ensures known { IfOk result (AskedIsKnown (R.plain roads.new)) }
{
    let fresh = begun(alloc, op, end)?;
    let asking = sent(alloc, roads, fresh)?;
    let waiting = flushed(alloc, roads, asking)?;
    accepted(alloc, roads, port, waiting)
}

/// A read of which nothing was done, over this end.
fn begun<I: LinkIn, O: LinkOut>(
    alloc: Global,
    op: ReadOp,
    end: Conn<I, O>,
) -> Result<Reading<I, O>, ReaderFault>
    requires { FitsRequest op }
    ensures { IsBegun op end result }
{
    match Reading::new(alloc, end, op) {
        Ok(reading) => Ok(reading),
        Err(_) => Err(ReaderFault::Memory),
    }
}

/// A read whose request was sent; where the link failed its end is brought back.
fn sent<I: LinkIn, O: LinkOut, R: Roads<Inward = I, Outward = O>>(
    alloc: Global,
    roads: &mut R,
    reading: Reading<I, O>,
) -> Result<Reading<I, O>, ReaderFault>
    requires open { is_some reading.talk.core ≡ true }
    requires known { IsKnown (R.plain roads.old) reading.end.id.0 }
    ensures sends { IsSent R.Roads I.LinkIn O.LinkOut reading roads.old roads.new result }
    ensures passes { RoadsPass R.Roads roads.old roads.new }
{
    let mut reading = reading;
    match reading.step(alloc) {
        ReadStep::Moved | ReadStep::Waiting => Ok(reading),
        ReadStep::Ended(ended) => match given_back(alloc, roads, reading, ended) {
            Ok(_) => Err(ReaderFault::Memory),
            Err(fault) => Err(fault),
        },
    }
}

/// A read whose end was exchanged, and took nothing there.
fn flushed<I: LinkIn, O: LinkOut, R: Roads<Inward = I, Outward = O>>(
    alloc: Global,
    roads: &mut R,
    reading: Reading<I, O>,
) -> Result<Reading<I, O>, ReaderFault>
    requires { IsKnown (R.plain roads.old) reading.end.id.0 }
    ensures flushes { IsFlushed R.Roads I.LinkIn O.LinkOut reading roads.old roads.new result }
    ensures passes { RoadsPass R.Roads roads.old roads.new }
{
    let mut reading = reading;
    match reading.exchange(alloc, roads, None) {
        Ok(()) => Ok(reading),
        Err(error) => Err(road_fault(error)),
    }
}

/// A read, and the lower end of its connection, which is accepted at this port.
fn accepted<I: LinkIn, O: LinkOut, R: Roads<Inward = I, Outward = O>>(
    alloc: Global,
    roads: &mut R,
    port: u16,
    reading: Reading<I, O>,
) -> Result<Asked<I, O>, ReaderFault>
    requires { IsKnown (R.plain roads.old) reading.end.id.0 }
    ensures accepts { Accepts R.Roads I.LinkIn O.LinkOut port reading roads.old roads.new result }
    ensures passes { RoadsPass R.Roads roads.old roads.new }
    ensures known { IfOk result (AskedIsKnown (R.plain roads.new)) }
{
    match roads.accept(alloc, port) {
        Ok(Some(lower)) => Ok(Asked::Reading { reading, lower }),
        Ok(None) => Err(ReaderFault::RoadsFailed),
        Err(error) => Err(road_fault(error)),
    }
}
