//! At the end of a play each of its block recoveries has a result, but where the node that was to lead it stopped, or
//! didn't run. The function has an empty body; its clause says what holds of the model's play of a script.
#![tactic(auto)]

ghost use Rattle.play_recovery_ends.specs.Endings.{PlaysEndTheirRecoveries};

/// At an end of the model's play of a script that fits, the primary of each line that recovers has a result; or the
/// line's node has stopped since, while the primary led; or the primary never began, and then the node didn't run when
/// the line was taken, or has stopped since.
pub fn plays_end_their_recoveries()
    ensures { PlaysEndTheirRecoveries }
{}
