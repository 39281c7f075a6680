//! Roads whose ends hold the answers of a member ready, and show nothing of it.

ghost use Rattle.std.specs.Prelude.{◌^◌, None, false};

use hd_base::{Conn, ConnId, Got, LinkError, LinkIn, LinkOut, NodeId, RoadError, Roads, Standing};
use std::alloc::Global;

/// SUCCESS to the INIT, with a replica that is being written, under the stamp 1001, of 9 bytes; and SUCCESS to the UPDATE.
const ANSWERS: &[u8] = b"\x09\x08\x00\x18\x01\x20\xe9\x07\x28\x09\x02\x08\x00";

/// The inward half of an end that was dialled: the answers, and then the end.
#[derive(Drop)]
pub(crate) struct ReadyIn {
    rest: &'static [u8],
    shut: bool,
}

impl LinkIn for ReadyIn {
    ghost held = { λ _. None };

    ghost shut = { λ l. l.shut };

    ghost faults = { λ _. 0 };

    ghost schedule = { λ _. None };

    fn recv(&mut self, into: &mut [u8]) -> Result<Got, LinkError> {
        let count = self.rest.len().min(into.len());
        if count == 0 {
            return Ok(Got::End);
        }
        let (front, rest) = self.rest.split_at(count);
        into[..count].copy_from_slice(front);
        self.rest = rest;
        Ok(Got::Bytes(count))
    }

    fn shut(&mut self) {
        self.shut = true;
    }
}

/// The outward half: it counts the pieces that it takes.
#[derive(Drop)]
pub(crate) struct ReadyOut {
    pieces: u64,
    shut: bool,
}

impl LinkOut for ReadyOut {
    ghost sent = { λ _. None };

    ghost flushed = { λ _. 0 };

    ghost lost = { λ _. 0 };

    ghost shut = { λ l. l.shut };

    ghost room = { λ _. 2 ^ 65 };

    ghost faults = { λ _. 0 };

    ghost schedule = { λ _. None };

    fn room(&mut self, _alloc: Global, _len: u64) -> Result<(), LinkError> {
        Ok(())
    }

    fn send(&mut self, piece: &[u8]) -> Result<usize, LinkError> {
        self.pieces = self.pieces.saturating_add(1);
        Ok(piece.len())
    }

    fn shut(&mut self) {
        self.shut = true;
    }
}

/// The roads: every dial is answered, and nobody waits at a port.
#[derive(Drop)]
pub(crate) struct ReadyRoads {
    /// How many connections were made.
    pub(crate) dialled: u64,
    /// How many ends were brought back.
    pub(crate) back: u64,
    /// How many pieces were sent on these.
    pub(crate) pieces: u64,
}

impl Roads for ReadyRoads {
    ghost use Rattle.std.specs.Prelude.{◌≡◌, ◌==◌, ◌||◌, ◌&&◌, ℕ, Bool, Option, None, false, OnOk, OnErr};
    ghost use Rattle.hd_base.specs.Channels.{Carried, Plain};
    ghost use Rattle.hd_base.specs.Ends.{IsKnown, CarriesOf, Flushes, KeepsConnections, has_failed};
    ghost use Rattle.hd_base.specs.Faults.{KeepsSchedule};
    ghost use Rattle.hd_base.specs.RoadCauses.{OnlyMemory};

    type Inward = ReadyIn;

    type Outward = ReadyOut;

    ghost carried = { λ _. None };

    ghost plain = { λ _. None };

    ghost risen = { λ _ _. false };

    ghost faults = { λ _. 0 };

    ghost schedule = { λ _. None };

    fn share(&mut self, _alloc: Global) -> Result<ReadyRoads, RoadError> {
        Err(RoadError::Memory)
    }

    fn listen(&mut self, _alloc: Global, _node: NodeId) -> Result<u16, RoadError> {
        Err(RoadError::Memory)
    }

    fn dial(&mut self, _alloc: Global, _port: u16) -> Result<Conn<ReadyIn, ReadyOut>, RoadError> {
        let id = ConnId(self.dialled);
        self.dialled = self.dialled.saturating_add(1);
        Ok(Conn {
            id,
            lower: false,
            inward: ReadyIn {
                rest: ANSWERS,
                shut: false,
            },
            outward: ReadyOut {
                pieces: 0,
                shut: false,
            },
        })
    }

    fn accept(
        &mut self,
        _alloc: Global,
        _port: u16,
    ) -> Result<Option<Conn<ReadyIn, ReadyOut>>, RoadError> {
        Ok(None)
    }

    fn hang_up(&mut self, _port: u16) {}

    fn standing(&mut self, _conn: ConnId, _down: bool) -> Standing {
        Standing::Nothing
    }

    fn exchange(
        &mut self,
        _alloc: Global,
        _end: &mut Conn<ReadyIn, ReadyOut>,
        _take: bool,
    ) -> Result<(), RoadError> {
        Ok(())
    }

    fn bring(&mut self, _alloc: Global, end: Conn<ReadyIn, ReadyOut>) -> Result<(), RoadError>
        requires { IsKnown None end.id.0 }
        ensures carried { OnOk result (CarriesOf ⟦<ReadyOut as LinkOut>⟧ end None None) }
        ensures plain { OnOk result (Flushes ⟦<ReadyIn as LinkIn>⟧ ⟦<ReadyOut as LinkOut>⟧ end None None) }
        ensures connections { KeepsConnections None None }
        ensures risen { OnOk result ((c : ℕ) → false
            ≡ (false || ((end.id.0 == c) && has_failed ⟦<ReadyIn as LinkIn>⟧ ⟦<ReadyOut as LinkOut>⟧ end))) }
        ensures err_carried { let carried : Option Carried = None in OnErr result (carried ≡ carried) }
        ensures err_plain { let plain : Option Plain = None in OnErr result (plain ≡ plain) }
        ensures err_risen { let risen : ℕ → Bool = λ _. false in OnErr result (risen ≡ risen) }
        ensures cause { OnlyMemory 0 0 result }
        ensures schedule { KeepsSchedule None None 0 0 }
    {
        self.back = self.back.saturating_add(1);
        self.pieces = self.pieces.saturating_add(end.outward.pieces);
        Ok(())
    }

    fn risen(&self, _conn: ConnId) -> bool {
        false
    }

    fn gather(&mut self, _alloc: Global, _share: ReadyRoads) -> Result<(), RoadError> {
        Ok(())
    }
}
