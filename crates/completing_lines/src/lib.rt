//! The lines of a script in plays without failures. Each function has an empty body; its clauses say what holds.
#![tactic(auto)]

ghost use Rattle.completing_writers.specs.PlayCompleteness.Complete.{PlaysComplete};
ghost use Rattle.completing_lines.specs.Following.{OpenedFollows, CommandsFollow, OwnStepsFollow, OthersFollow};

/// Each line of a script that gives a command, and fits the lines before it, gives its block's writer one that fits those
/// before it: a play that is as it should be, and stands behind those lines, does so behind this one, too.
pub fn lines_give_commands_that_fit()
    ensures opened { OpenedFollows }
    ensures command { CommandsFollow }
{}

/// What is due leaves a play behind the same lines: a writer's own step, and what else is due, where the play is as it
/// should be after it.
pub fn dues_stay_behind_lines()
    ensures own { OwnStepsFollow }
    ensures other { OthersFollow }
{}

/// A play without failures completes: of a script that fits, has no cut, fault, stop, start or recovery, and in which
/// each append names the members of its block's create in the same order, each command is answered well, and each block
/// whose last command is a close is whole at all members of its create.
pub fn plays_complete()
    ensures { PlaysComplete }
{}

pub use completing_writers::plays_are_safe;
pub use play_lines::{LiveConns, PlayFault, Playing, open_player};
