//! What a reader takes from its connection.

ghost use Rattle.std.specs.Prelude.{◌≡◌, true, is_some, IfOk};
ghost use Rattle.hd_base.specs.Ends.{IsKnown};
ghost use Rattle.client_events.specs.MemberEvents.Roads.{RoadsPass};
ghost use Rattle.reader_events.specs.Hearing.{
  HearShows,
  HeardIsKnown,
  HeardIsOpen,
  TakesStanding,
  IsHeard,
  IsGivenBack,
  node_fault,
  malformed_as,
  read_of,
};

use crate::faults::{ReaderFault, road_fault};
use frame_feed::FeedFault;
use hd_base::{ByteList, LinkIn, LinkOut, Roads};
use packet_codec::PacketFault;
use read_core::ReadFault;
use std::alloc::Global;
use visible_read::{ReadFault as ReadingFault, ReadStep, Reading};

/// What a reader has that took something.
#[derive(Drop)]
pub enum Heard<I, O> {
    /// Its read goes on.
    Reading(Reading<I, O>),
    /// It has its result: the bytes, or why the read failed.
    Read(Result<Vec<u8>, ReadFault>),
}

/// A reader takes what stands next on its connection: the answer to its request, a packet, or the end. Where it has its
/// result then, its end is shut, behind CHECKSUM_OK where all bytes are there, and brought back.
pub fn hear<I: LinkIn, O: LinkOut, R: Roads<Inward = I, Outward = O>>(
    alloc: Global,
    roads: &mut R,
    reading: Reading<I, O>,
) -> Result<Heard<I, O>, ReaderFault>
    requires open { is_some reading.talk.core ≡ true }
    requires known { IsKnown (R.plain roads.old) reading.end.id.0 }
    ensures shows { HearShows R.Roads I.LinkIn O.LinkOut reading roads.old roads.new result }
    ensures open { IfOk result HeardIsOpen }
    ensures pass { RoadsPass R.Roads roads.old roads.new }
    ensures known { IfOk result (HeardIsKnown (R.plain roads.new)) }
{
    let mut reading = taken(alloc, roads, reading)?;
    let step = reading.step(alloc);
    after_step(alloc, roads, reading, step)
}

/// A reading whose end was exchanged, and took what stands next there.
fn taken<I: LinkIn, O: LinkOut, R: Roads<Inward = I, Outward = O>>(
    alloc: Global,
    roads: &mut R,
    reading: Reading<I, O>,
) -> Result<Reading<I, O>, ReaderFault>
    requires { IsKnown (R.plain roads.old) reading.end.id.0 }
    ensures takes { TakesStanding R.Roads I.LinkIn O.LinkOut reading roads.old roads.new result }
    ensures passes { RoadsPass R.Roads roads.old roads.new }
{
    let conn = reading.conn();
    let mut reading = reading;
    match reading.exchange(alloc, roads, Some(conn)) {
        Ok(()) => Ok(reading),
        Err(error) => Err(road_fault(error)),
    }
}

/// What a reader has after this step.
fn after_step<I: LinkIn, O: LinkOut, R: Roads<Inward = I, Outward = O>>(
    alloc: Global,
    roads: &mut R,
    reading: Reading<I, O>,
    step: ReadStep,
) -> Result<Heard<I, O>, ReaderFault>
    requires { IsKnown (R.plain roads.old) reading.end.id.0 }
    ensures hears { IsHeard R.Roads I.LinkIn O.LinkOut reading step roads.old roads.new result }
    ensures passes { RoadsPass R.Roads roads.old roads.new }
{
    match step {
        ReadStep::Moved | ReadStep::Waiting => Ok(Heard::Reading(reading)),
        ReadStep::Ended(ended) => {
            let read = given_back(alloc, roads, reading, ended)?;
            Ok(Heard::Read(read))
        }
    }
}

/// Brings the end of a reading back that has ended so, and tells what was read.
pub(crate) fn given_back<I: LinkIn, O: LinkOut, R: Roads<Inward = I, Outward = O>>(
    alloc: Global,
    roads: &mut R,
    reading: Reading<I, O>,
    ended: Result<Vec<u8>, ReadingFault>,
) -> Result<Result<Vec<u8>, ReadFault>, ReaderFault>
    requires { IsKnown (R.plain roads.old) reading.end.id.0 }
    ensures gives { IsGivenBack R.Roads I.LinkIn O.LinkOut reading.end ended roads.old roads.new result }
    ensures passes { RoadsPass R.Roads roads.old roads.new }
{
    match reading.retire(alloc, roads) {
        Ok(()) => read_of(ended),
        Err(_) => Err(ReaderFault::Memory),
    }
}

/// What was read, as the world has it, or why the event isn't done.
fn read_of(ended: Result<Vec<u8>, ReadingFault>) -> Result<Result<Vec<u8>, ReadFault>, ReaderFault>
    ensures { result ≡ read_of ended }
{
    match ended {
        Ok(bytes) => Ok(Ok(bytes)),
        Err(fault) => Ok(Err(node_fault(fault)?)),
    }
}

/// Why a read failed by what the node sent or didn't send, as the world has it, or why the event isn't done.
fn node_fault(fault: ReadingFault) -> Result<ReadFault, ReaderFault>
    ensures { result ≡ node_fault fault }
{
    match fault {
        ReadingFault::Refused { message } => Ok(ReadFault::Refused {
            message: ByteList::from_vec(message),
        }),
        ReadingFault::BadSum { chunk } => Ok(ReadFault::BadSum { chunk }),
        ReadingFault::Malformed(fault) => Ok(malformed_as(fault)),
        ReadingFault::OutOfPlace { want, got } => Ok(ReadFault::OutOfPlace { want, got }),
        ReadingFault::Rule { kind, chunk } => Ok(ReadFault::Rule { kind, chunk }),
        ReadingFault::Ended => Ok(ReadFault::Ended),
        ReadingFault::LinkFailed => Err(ReaderFault::LinkFailed),
        ReadingFault::Memory => Err(ReaderFault::Memory),
    }
}

/// What the world has for a message that is malformed.
fn malformed_as(fault: FeedFault) -> ReadFault
    ensures { result ≡ malformed_as fault }
{
    match fault {
        FeedFault::Packet(PacketFault::SumCount { .. }) => ReadFault::SumCount,
        _ => ReadFault::Unreadable,
    }
}
