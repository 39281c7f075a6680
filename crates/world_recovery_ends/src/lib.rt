//! What block recoveries come to in the world: as long as a primary's node lives on, something can happen until the
//! primary has its result; and only where the node stops the primary gets none. Each function has an empty body; its
//! clause says what holds after every list of events.
#![tactic(auto)]

ghost use Rattle.world_recovery_ends.specs.Beginning.{AllMayBegin};
ghost use Rattle.world_recovery_ends.specs.Going.{AllGoOn};
ghost use Rattle.world_recovery_ends.specs.Stopping.{AllHaveStopped};

/// A primary that the office has told may begin at each node that runs.
pub fn told_primaries_begin()
    ensures { AllMayBegin }
{}

/// A primary that leads at a node that lives on may take what stands next on a connection to a member; or that member's
/// node may take the request or the end there; or the primary's own step is next, or the office's answer.
pub fn primaries_go_on()
    ensures { AllGoOn }
{}

/// Where a primary leads, and its node no longer runs in that life, the node stopped while the primary led.
pub fn primaries_end_where_nodes_stop()
    ensures { AllHaveStopped }
{}
