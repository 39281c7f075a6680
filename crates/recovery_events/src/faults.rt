//! Why an event of a recovery isn't done.

ghost use Rattle.std.specs.Prelude.{◌≡◌};
ghost use Rattle.recovery_events.specs.Faults.{road_fault};

use hd_base::RoadError;
use thiserror::Error;

/// Why an event of a recovery isn't done.
#[derive(Clone, Copy, Debug, PartialEq, Eq, Error)]
pub enum RecoveryFault {
    /// The link of the end failed, and the count of the end rose. The end was brought back.
    #[error("a link of a block recovery failed")]
    LinkFailed,
    /// The roads failed, and their count rose.
    #[error("the roads failed")]
    RoadsFailed,
    /// Memory ran out.
    #[error("out of memory")]
    Memory,
}

/// Why an exchange with the roads failed.
pub(crate) fn road_fault(error: RoadError) -> RecoveryFault
    ensures { result ≡ road_fault error }
{
    match error {
        RoadError::Memory => RecoveryFault::Memory,
        RoadError::Failed | RoadError::NotListening => RecoveryFault::RoadsFailed,
    }
}
