//! Laws of the world: what holds of it after every list of events. Each function has an empty body; its clauses say
//! what holds.
#![tactic(auto)]

ghost use Rattle.world.specs.Events.{run};
ghost use Rattle.world.specs.Safe.{Prefix};
ghost use Rattle.world.specs.Worlds.{start};
ghost use Rattle.world_laws.specs.Carrying.{AllCarried};
ghost use Rattle.world_laws.specs.Facts.{IdleChangesNothing, RunsEnd, RunsJoin};
ghost use Rattle.world_laws.specs.Filling.{AllFilled};
ghost use Rattle.world_laws.specs.Finding.{FindsExactly, FindsWhatMayBe};
ghost use Rattle.world_laws.specs.Fronts.{AllHoldFronts, LengthsAreWritten, PacketsArePieces};
ghost use Rattle.world_laws.specs.Growing.{PastGrows};
ghost use Rattle.world_laws.specs.Joining.{AllSetUp, AnsweredReach};
ghost use Rattle.world_laws.specs.Placing.{AllPlaced, OnlyDialledCarry};
ghost use Rattle.world_laws.specs.Sessions.{OfficeAndWriterAgree, StampsKeepSessions, UnusedAreEmpty};
ghost use Rattle.world_laws.specs.Stamping.{AllRecorded};
ghost use Rattle.world_laws.specs.Testing.{AllTested};

/// An event that isn't enabled changes nothing.
pub fn idle_events_change_nothing()
    ensures { IdleChangesNothing }
{}

/// Deliveries, own steps of writers and primaries, and questions to the office are enabled just where the tests of what
/// takes part in them say so.
pub fn enabled_events_are_tested()
    ensures { AllTested }
{}

/// Lists of events join: the events of the first happen, and then those of the second; an event at the end happens
/// last.
pub fn runs_join()
    ensures joined { RunsJoin }
    ensures ended { RunsEnd }
{}

/// Whatever happens, the past only grows: what was written, sent, recorded or answered stays, with more behind it, and
/// connections stay what they were.
pub fn the_past_only_grows()
    ensures { PastGrows }
{}

/// Nothing is sent on a connection that wasn't dialled, nothing is taken from it, and its lower end does nothing.
pub fn only_dialled_connections_carry()
    ensures { OnlyDialledCarry }
{}

/// Every index is in range: nodes that run, both ends of each connection, the mirrors of members, and the connections
/// of writers, readers and primaries.
pub fn indices_are_in_range()
    ensures { AllPlaced }
{}

/// Office and writer agree on what was answered: where no recovery of a block has begun, the stamp that the office has
/// committed is the one that the block's writer knows, once it has taken the answer that waits for it.
pub fn office_and_writer_agree()
    ensures { OfficeAndWriterAgree }
{}

/// A stamp that was given has one session: it stays in the one in which it was given.
pub fn stamps_keep_their_sessions()
    ensures { StampsKeepSessions }
{}

/// A session that hasn't begun has no bytes.
pub fn unused_sessions_are_empty()
    ensures { UnusedAreEmpty }
{}

/// A restart makes of each replica one that it may find, and the test of that is exact.
pub fn restarts_find_what_they_may()
    ensures tested { FindsExactly }
    ensures found { FindsWhatMayBe }
{}

/// Every replica is sound, is one of its block, and has just the bytes that it has written; so it was before it broke.
pub fn replicas_have_their_bytes()
    ensures { AllFilled }
{}

/// Each stamp that the office gave is of one block and one session, and office and writers hold of each block only stamps
/// that fit: a closed block has none above its committed one, and between the committed stamp and the newest there are
/// only those of the sessions that may follow.
pub fn stamps_are_recorded()
    ensures { AllRecorded }
{}

/// Bytes stand only where they may: packets on their way are pieces of what their session's writer has written, writers
/// stream it, replicas have fronts of it, and recoveries and the office only lengths within it.
pub fn bytes_are_carried()
    ensures { AllCarried }
{}

/// Each packet that was ever sent is a piece of what was written in its connection's session.
pub fn packets_are_pieces()
    ensures { PacketsArePieces }
{}

/// The length of a closed block lies within what was written in its session.
pub fn lengths_are_written()
    ensures { LengthsAreWritten }
{}

/// Every replica, of a stopped node and a broken one too, holds a front of what was written in its stamp's session.
pub fn replicas_hold_fronts()
    ensures { AllHoldFronts }
{}

/// After whatever happens, each replica of a running node holds a front of what the writer of its stamp's session has
/// written.
pub fn prefix_law(schedule: &Schedule)
    ensures { Prefix (run (start schedule.now.nodes) schedule.now.events) }
{}

/// A node whose replica was set up under a stamp has one with at least that stamp from then on; and an RBW replica that
/// isn't broken, of a node that runs, was set up under its stamp since the node started.
pub fn setups_are_kept()
    ensures { AllSetUp }
{}

/// A node that is steady since the stamp of a length that was answered has a replica with at least that stamp.
pub fn answered_nodes_reach(schedule: &Schedule)
    ensures { AnsweredReach (run (start schedule.now.nodes) schedule.now.events) }
{}

pub use world::{BlockRef, POOL, ReadOp, Schedule};
