//! A writer's own steps keep a play without failures as it should be. Each function has an empty body; its clause says what
//! holds.
#![tactic(auto)]

ghost use Rattle.completing_writers.specs.Steps.{OwnStepsKeep, AllOwnStepsKeep, OthersKeep, OpenedAreWell, CommandsJoinWell};

/// Where a play without failures is as it should be, and so are the commands of its blocks, it stays so after an own step of
/// a writer that asks the office for nothing: it takes the command that is queued first, answers one, or sends the packet
/// that is next.
pub fn own_steps_keep_plays()
    ensures { OwnStepsKeep }
{}

/// So it does after any own step: also where the office gives the stamp of a pipeline, whose first member is dialled, commits
/// it, or closes the block.
pub fn all_own_steps_keep_plays()
    ensures { AllOwnStepsKeep }
{}

/// Where something else is due, what members or readers do or what a writer hears, and `Played` holds after it, the
/// play stays as it should be.
pub fn other_dues_keep_the_rest()
    ensures { OthersKeep }
{}

/// A play of at most 16 nodes that was only opened is as it should be, and stays so where a command joins a queue that fits
/// those before it, and leaves the commands of its block as they should be.
pub fn opened_plays_are_well()
    ensures opened { OpenedAreWell }
    ensures joined { CommandsJoinWell }
{}

pub use play_completeness::plays_are_safe;
