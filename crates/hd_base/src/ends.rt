//! The ends of connections, what stands next on one, and why a call on roads fails.

ghost use Rattle.std.specs.Prelude.{◌≡◌};

use crate::numbers::ConnId;
use std::alloc::AllocError;
use thiserror::Error;

/// One end of a connection, with its two halves. The lower end is the one that `accept` made; the
/// end that dialled sends down, the lower one up.
#[derive(Drop)]
pub struct Conn<I, O> {
    pub id: ConnId,
    pub lower: bool,
    pub inward: I,
    pub outward: O,
}

/// What stands next on one direction of a connection.
#[derive(Clone, Copy, Debug, PartialEq, Eq)]
pub enum Standing {
    /// A piece.
    Piece,
    /// The end.
    End,
    /// Nothing yet, or the roads can't tell.
    Nothing,
}

/// Why a call on roads failed.
#[derive(Clone, Copy, Debug, PartialEq, Eq, Error)]
pub enum RoadError {
    /// Nobody listens on that port.
    #[error("nobody listens on that port")]
    NotListening,
    /// The call failed, and the roads' count of faults rose.
    #[error("the roads failed")]
    Failed,
    /// Memory ran out; nothing changed.
    #[error("out of memory")]
    Memory,
}

impl From<AllocError> for RoadError {
    ghost use Rattle.hd_base.specs.declared.ends.RoadError.TheVariants as road_error;

    ghost from_gives = { λ _ e. e ≡ road_error.Memory };

    fn from(_: AllocError) -> RoadError {
        RoadError::Memory
    }
}
