//! Where a member is, and what it looks at and takes in an event.

ghost use Rattle.std.specs.Prelude.{◌≡◌};
ghost use Rattle.pipe_member.specs.Looks.{looked_of};
ghost use Rattle.pipe_member.specs.Steps.{stage_after};

use hd_base::Receipt;
use link_messages::Next;
use pipe_setup::{Member as Core, Shuts};

/// Where a member is.
#[derive(Clone, Copy, Debug)]
pub enum Stage {
    /// Its request waits to be set up.
    New,
    /// Its request was booked, and its mirror couldn't be reached for want of memory. These are its rules once
    /// the mirror is asked, or can't be.
    Booked {
        receipt: Receipt,
        asked: Core,
        unasked: Core,
    },
    /// It takes and sends, by these rules.
    Open(Core),
    /// It is shut.
    Shut,
}

/// What a member found that looked for what stands next on a connection.
#[derive(Clone, Copy, Debug, PartialEq, Eq)]
pub enum Looked {
    /// What stands next is known, or nothing stands there yet.
    Known,
    /// The link failed, and so the end stands next.
    Failed,
    /// Memory ran out.
    Memory,
}

/// Which connection a member takes something from in an event.
#[derive(Clone, Copy, Debug, PartialEq, Eq)]
pub enum Took {
    /// The one from above.
    Above,
    /// The one to its mirror.
    Below,
    /// None.
    Nothing,
}

/// Where a member is after a turn that shuts this.
pub(crate) fn stage_after(core: Core, shuts: Shuts) -> Stage
    ensures { result ≡ stage_after core shuts }
{
    match shuts {
        Shuts::Nothing => Stage::Open(core),
        Shuts::Mirror | Shuts::Both => Stage::Shut,
    }
}

/// What was found where this came next.
pub(crate) fn looked_of<M: Drop>(came: &Next<M>) -> Looked
    ensures { result ≡ looked_of came.now }
{
    match came {
        Next::Failed => Looked::Failed,
        Next::Memory => Looked::Memory,
        Next::Message(_) | Next::Unreadable | Next::End | Next::NotYet => Looked::Known,
    }
}
