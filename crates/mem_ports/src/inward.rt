//! The inward half of a connection's end in memory.

ghost use Rattle.std.specs.Prelude.{◌≡◌, Some, None, false};
ghost use Rattle.hd_base.specs.Channels.{is_hungry};
ghost use Rattle.mem_ports.specs.Schedules.{coming};
ghost use Rattle.mem_ports.specs.Pieces.{rest_of, inbox_of};

use crate::copies::copy_front;
use crate::schedules::FaultSchedule;
use hd_base::{Got, LinkError, LinkIn};
use std::sync::Arc;

/// Holds a piece that the roads gave, or what is left of it.
#[derive(Debug, Drop)]
pub struct MemIn {
    pub(crate) piece: Option<Arc<Vec<u8>>>,
    pub(crate) taken: usize,
    pub(crate) ended: bool,
    pub(crate) shut: bool,
    pub(crate) schedule: FaultSchedule,
}

impl MemIn {
    /// A half that holds nothing.
    pub(crate) fn new(schedule: FaultSchedule) -> MemIn
        ensures piece { result.piece ≡ None }
        ensures ended { result.ended ≡ false }
        ensures shut { result.shut ≡ false }
        ensures schedule { result.schedule ≡ schedule }
    {
        MemIn {
            piece: None,
            taken: 0,
            ended: false,
            shut: false,
            schedule,
        }
    }

    /// The bytes that are held.
    fn rest(&self) -> &[u8]
        ensures { result.now ≡ rest_of self.now.piece self.now.taken }
    {
        match &self.piece {
            Some(piece) => &piece[self.taken.min(piece.len())..],
            None => &[],
        }
    }

    /// Whether nothing is held, and no end.
    pub(crate) fn is_hungry(&self) -> bool
        ensures { result ≡ is_hungry (inbox_of self.now.piece self.now.taken self.now.ended) }
    {
        self.rest().is_empty() && !self.ended
    }
}

impl LinkIn for MemIn {
    ghost held = { λ l. Some (inbox_of l.piece l.taken l.ended) };

    ghost shut = { λ l. l.shut };

    ghost faults = { λ l. l.schedule.faults };

    ghost schedule = { λ l. coming l.schedule };

    fn recv(&mut self, into: &mut [u8]) -> Result<Got, LinkError> {
        if self.schedule.next() {
            return Err(LinkError::Failed);
        }
        let rest = self.rest();
        if rest.is_empty() {
            return Ok(if self.ended { Got::End } else { Got::NotYet });
        }
        let count = copy_front(rest, into);
        self.taken += count;
        Ok(Got::Bytes(count))
    }

    fn shut(&mut self) {
        self.shut = true;
    }
}
