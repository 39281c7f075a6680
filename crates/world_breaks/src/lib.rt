//! No replica is broken after events in which no call on files fails, and the files of each are whole after events in
//! which only writes that make a replica grow fail.
//! Each function has an empty body; its clause says what holds after every list of events.
#![tactic(auto)]

ghost use Rattle.world_breaks.specs.Breaks.{UnbrokenWithoutFaults, WholeIsFound, WholeAfterRefusedWrites};

/// After events in which no call on files fails no replica is broken, and each that is absent is as it was in the
/// beginning.
pub fn replicas_are_unbroken_without_faults()
    ensures { UnbrokenWithoutFaults }
{}

/// Of a replica that isn't broken a restart finds all, where nothing is said of it.
pub fn whole_replicas_are_found()
    ensures { WholeIsFound }
{}

/// After events in which no call on files fails but writes that make a replica grow, each replica is unbroken, or a restart
/// finds all of it.
pub fn refused_writes_leave_replicas_whole()
    ensures { WholeAfterRefusedWrites }
{}

pub use world_laws::the_past_only_grows;
