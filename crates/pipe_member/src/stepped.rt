//! How an event of a member ended.

ghost use Rattle.std.specs.Prelude.{◌≡◌};
ghost use Rattle.pipe_member.specs.Steps.{receipt_of, stepped_of, after_failure, closed_step};

use crate::stages::{Looked, Stage};
use hd_base::Receipt;
use pipe_setup::Shuts;
use pipe_turns::Done;

/// How an event of a member ended. A receipt names the entry of the book, where something was booked.
#[derive(Clone, Copy, Debug, PartialEq, Eq)]
pub enum Stepped {
    /// The event was done.
    Moved { receipt: Option<Receipt> },
    /// The event isn't enabled, and the member isn't shut.
    NotReady,
    /// The event was done, and the member shut in it; or the member was shut before, and nothing was booked.
    Shut { receipt: Option<Receipt> },
    /// The connection from above failed, and a count of its faults rose.
    LinkFailed { receipt: Option<Receipt> },
    /// A call on the replica's files failed, and the drawer's count of faults rose. The member is shut.
    File(Receipt),
    /// Memory ran out.
    Memory,
}

/// How the event of a turn ended, by how the turn did and what was shut in it.
pub(crate) fn stepped_of(done: Done, shuts: Shuts) -> Stepped
    ensures { result ≡ stepped_of done shuts }
{
    match done {
        Done::LinkFailed { receipt } => Stepped::LinkFailed { receipt },
        Done::File(receipt) => Stepped::File(receipt),
        Done::Memory => Stepped::Memory,
        Done::Taken { .. } | Done::Refused(..) | Done::MirrorFailed(_) => {
            let receipt = receipt_of(done);
            match shuts {
                Shuts::Nothing => Stepped::Moved { receipt },
                Shuts::Mirror | Shuts::Both => Stepped::Shut { receipt },
            }
        }
    }
}

/// The receipt of a turn, if something was booked.
fn receipt_of(done: Done) -> Option<Receipt>
    ensures { result ≡ receipt_of done }
{
    match done {
        Done::Taken { receipt } | Done::LinkFailed { receipt } => receipt,
        Done::Refused(_, receipt) | Done::File(receipt) | Done::MirrorFailed(receipt) => Some(
            receipt,
        ),
        Done::Memory => None,
    }
}

/// How an event ended before which the connection from above failed, or didn't.
pub(crate) fn after_failure(looked: Looked, stepped: Stepped) -> Stepped
    ensures { result ≡ after_failure looked stepped }
{
    match (looked, stepped) {
        (Looked::Failed, Stepped::Moved { receipt } | Stepped::Shut { receipt }) => {
            Stepped::LinkFailed { receipt }
        }
        (Looked::Failed, Stepped::NotReady) => Stepped::LinkFailed { receipt: None },
        _ => stepped,
    }
}

/// How an event ends of a member that isn't open.
pub(crate) fn closed_step(stage: Stage) -> Stepped
    ensures { result ≡ closed_step stage }
{
    match stage {
        Stage::Shut => Stepped::Shut { receipt: None },
        Stage::New | Stage::Booked { .. } | Stage::Open(_) => Stepped::NotReady,
    }
}
