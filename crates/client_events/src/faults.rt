//! Why an event of a writer isn't done.

ghost use Rattle.std.specs.Prelude.{◌≡◌};
ghost use Rattle.client_events.specs.Faults.{road_fault};

use hd_base::RoadError;
use thiserror::Error;

/// Why an event of a writer isn't done.
#[derive(Clone, Copy, Debug, PartialEq, Eq, Error)]
pub enum ClientFault {
    /// The link of the writer failed, and the count of its end rose. The end was brought back.
    #[error("the link of a writer failed")]
    LinkFailed,
    /// The roads failed, and their count rose.
    #[error("the roads failed")]
    RoadsFailed,
    /// Memory ran out.
    #[error("out of memory")]
    Memory,
}

/// Why an exchange with the roads failed.
pub(crate) fn road_fault(error: RoadError) -> ClientFault
    ensures { result ≡ road_fault error }
{
    match error {
        RoadError::Memory => ClientFault::Memory,
        RoadError::Failed | RoadError::NotListening => ClientFault::RoadsFailed,
    }
}
