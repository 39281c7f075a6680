//! The halves of an end whose connection may be cut.

ghost use Rattle.std.specs.Prelude.{◌≡◌, ◌+◌, ◌≤◌, ◌<◌, ◌||◌, Some, None, false, IsSome, option_map, option_and_then, length};
ghost use Rattle.std.proofs.Props.{props};
ghost use Rattle.fault_ports.specs.Halves.{number_of, test_of, held_behind, PendingIs};

use hd_base::{Got, LinkError, LinkIn, LinkOut};
use std::alloc::Global;

/// The inward half of an end whose connection may be cut.
#[derive(Debug, Drop)]
pub struct CutIn<I> {
    /// The half itself, but in an exchange.
    pub(crate) inner: Option<I>,
    /// A byte that was received in advance.
    pub(crate) first: Option<u8>,
    /// Whether the end stands behind nothing.
    pub(crate) ended: bool,
    pub(crate) faults: u64,
    ghost present: { IsSome inner },
}

impl<I> CutIn<I> {
    /// The half as the roads gave it.
    pub(crate) fn new(inner: I) -> CutIn<I>
        ensures inner { result.inner ≡ Some inner }
        ensures first { result.first ≡ None }
        ensures ended { result.ended ≡ false }
        ensures sound { result.faults ≡ 0 }
    {
        CutIn {
            inner: Some(inner),
            first: None,
            ended: false,
            faults: 0,
        }
    }
}

impl<I: LinkIn> LinkIn for CutIn<I> {
    ghost held = { λ l. held_behind I.held l.inner l.first l.ended };

    ghost shut = { λ l. test_of I.shut l.inner };

    ghost faults = { λ l. l.faults };

    ghost schedule = { λ _. None };

    fn recv(&mut self, into: &mut [u8]) -> Result<Got, LinkError> {
        if let Some(byte) = self.first.take() {
            into[0] = byte;
            self.ended = false;
            return Ok(Got::Bytes(1));
        }
        let Some(inner) = &mut self.inner else {
            unreachable!();
        };
        match inner.recv(into) {
            Ok(Got::Bytes(count)) => {
                self.ended = false;
                Ok(Got::Bytes(count))
            }
            Ok(Got::NotYet) if self.ended => Ok(Got::End),
            Ok(got) => Ok(got),
            Err(error) => {
                self.faults = self.faults.saturating_add(1);
                Err(error)
            }
        }
    }

    fn shut(&mut self) {
        let Some(inner) = &mut self.inner else {
            unreachable!();
        };
        inner.shut();
    }
}

/// The outward half of an end whose connection may be cut.
#[derive(Debug, Drop)]
pub struct CutOut<O: LinkOut> {
    /// The half itself, but in an exchange.
    pub(crate) inner: Option<O>,
    /// How many pieces that aren't lost were sent and not yet flushed.
    pub(crate) pending: u64,
    pub(crate) shut: bool,
    pub(crate) faults: u64,
    ghost present: { IsSome inner },
    ghost shut_seen: { shut ≡ test_of O.shut inner },
    ghost counted: { PendingIs pending (option_and_then O.sent inner)
        (number_of O.flushed inner) (number_of O.lost inner) shut } by { Prim.hlevel props },
}

impl<O: LinkOut> CutOut<O> {
    ghost use Rattle.std.specs.Prelude.{◌≡◌, Some, false};
    ghost use Rattle.hd_base.specs.Links.{SentNothing};

    /// The half as the roads gave it: it has sent nothing.
    pub(crate) fn new(inner: O) -> CutOut<O>
        requires nothing { SentNothing (O.sent inner) }
        requires unflushed { O.flushed inner ≡ 0 }
        requires none_lost { O.lost inner ≡ 0 }
        requires open { O.shut inner ≡ false }
        ensures inner { result.inner ≡ Some inner }
        ensures sound { result.faults ≡ 0 }
    {
        CutOut {
            inner: Some(inner),
            pending: 0,
            shut: false,
            faults: 0,
        }
    }
}

impl<O: LinkOut> LinkOut for CutOut<O> {
    ghost sent = { λ l. option_and_then O.sent l.inner };

    ghost flushed = { λ l. number_of O.flushed l.inner };

    ghost lost = { λ l. number_of O.lost l.inner };

    ghost shut = { λ l. test_of O.shut l.inner };

    ghost room = { λ l. number_of O.room l.inner };

    ghost faults = { λ l. l.faults };

    ghost schedule = { λ _. None };

    fn room(&mut self, alloc: Global, len: u64) -> Result<(), LinkError> {
        let Some(inner) = &mut self.inner else {
            unreachable!();
        };
        inner.room(alloc, len)
    }

    /// Fails where more pieces than a `u64` counts wait to be flushed.
    fn send(&mut self, piece: &[u8]) -> Result<usize, LinkError> {
        let Some(inner) = &mut self.inner else {
            unreachable!();
        };
        let more = if self.shut { 0 } else { 1 };
        let Some(pending) = self.pending.checked_add(more) else {
            self.faults = self.faults.saturating_add(1);
            return Err(LinkError::Failed);
        };
        match inner.send(piece) {
            Ok(count) => {
                self.pending = pending;
                Ok(count)
            }
            Err(error) => {
                self.faults = self.faults.saturating_add(1);
                Err(error)
            }
        }
    }

    fn shut(&mut self) {
        let Some(inner) = &mut self.inner else {
            unreachable!();
        };
        inner.shut();
        self.shut = true;
    }
}
