//! What a play takes of the world for the clients and the nodes in it. The clause of each function says what holds
//! after every list of events.
#![tactic(auto)]

ghost use Rattle.play_laws.specs.Early.{NothingEarly};
ghost use Rattle.play_laws.specs.Intakes.{OwnStepsKeepIntakes, HearingKeepsIntakes};
ghost use Rattle.play_laws.specs.Members.{MembersAre, TargetsAre};
ghost use Rattle.play_laws.specs.Nodes.{AllRun, OnlyNodesRun, RunningStays};
ghost use Rattle.play_laws.specs.Pipelines.{AllArePiped};
ghost use Rattle.play_laws.specs.Stamps.{StampsAreFew};
ghost use Rattle.play_laws.specs.Taking.{CommandsTaken, CreatesFirst, UnmadeAreFresh};
ghost use Rattle.play_laws.specs.Untold.{StaysQuiet};
ghost use Rattle.play_laws.specs.Writers.{AllRest, WritersOpen};

use world_acks::acks_tell_of_all_below;

/// Between two steps a writer has taken each command that it was given, isn't about to go on with an answer of the
/// office, has members where a pipeline is wanted, set up or stands, and a connection just where its phase has one.
pub fn writers_rest()
    ensures { AllRest }
{}

/// A writer hasn't taken the end of the connection that it has.
pub fn writers_are_open()
    ensures { WritersOpen }
{}

/// Where a writer's request was accepted, and it has sent no packet yet, no message stands next for it.
pub fn nothing_comes_early()
    ensures { NothingEarly }
{}

/// Where no event stops a node or starts one again, all nodes run in their first life.
pub fn nodes_run()
    ensures { AllRun }
{}

/// An event that stops no node and starts none again leaves it as it is whether each node runs.
pub fn running_stays()
    ensures { RunningStays }
{}

/// As many nodes as there are from the start stay, and nothing else ever runs.
pub fn only_nodes_run()
    ensures { OnlyNodesRun }
{}

/// Where each command that a writer takes names only nodes of the world, so are the members of each writer.
pub fn members_are_nodes()
    ensures { MembersAre }
{}

/// So are the targets of each request to write: each is told as that node itself tells where it is.
pub fn targets_are_nodes()
    ensures { TargetsAre }
{}

/// A writer that has nothing else to do takes a command that fits those before it, and keeps its connection.
pub fn commands_are_taken()
    ensures { CommandsTaken }
{}

/// Only a writer that was given nothing may be given a create.
pub fn creates_come_first()
    ensures { CreatesFirst }
{}

/// A writer whose block wasn't made was given nothing.
pub fn unmade_writers_are_fresh()
    ensures { UnmadeAreFresh }
{}

/// Where no answer of the office waits for a writer before the events of what is due, none waits after them.
pub fn plays_stay_quiet()
    ensures { StaysQuiet }
{}

/// Where a writer takes no command, but has something to do or hears something, what it was given stays.
pub fn intakes_stay()
    ensures own { OwnStepsKeepIntakes }
    ensures heard { HearingKeepsIntakes }
{}

/// The office has given no more stamps than there are events.
pub fn stamps_are_few()
    ensures { StampsAreFew }
{}

/// Whoever dialled a mirror has its request on a connection of a pipeline.
pub fn members_are_piped()
    ensures { AllArePiped }
{
    acks_tell_of_all_below();
    messages_come_in_order();
}

pub use world_acks::recoveries_fit;
pub use world_orders::{messages_are_taken_in_order, messages_come_in_order, takers_are_open};
pub use world_settling::messages_are_written;
