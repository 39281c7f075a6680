//! Why an event of a reader isn't done.

ghost use Rattle.std.specs.Prelude.{◌≡◌};
ghost use Rattle.reader_events.specs.Faults.{road_fault};

use hd_base::RoadError;
use thiserror::Error;

/// Why an event of a reader isn't done.
#[derive(Clone, Copy, Debug, PartialEq, Eq, Error)]
pub enum ReaderFault {
    /// The link of the reader failed, and the count of its end rose. The end was brought back.
    #[error("the link of a reader failed")]
    LinkFailed,
    /// The roads failed, and their count rose.
    #[error("the roads failed")]
    RoadsFailed,
    /// Memory ran out.
    #[error("out of memory")]
    Memory,
}

/// Why a call on the roads failed.
pub(crate) fn road_fault(error: RoadError) -> ReaderFault
    ensures { result ≡ road_fault error }
{
    match error {
        RoadError::Memory => ReaderFault::Memory,
        RoadError::Failed | RoadError::NotListening => ReaderFault::RoadsFailed,
    }
}
