//! At the end of a play each of its reads has a result. The function has an empty body; its clause says what holds of the
//! model's play of a script.
#![tactic(auto)]

ghost use Rattle.play_readings.specs.Endings.{PlaysEndTheirReads};

/// At an end of the model's play of a script, the reader of each line that reads has a result: all bytes that it asked
/// for, the node's refusal, or the end, and this just where it has taken that, or where its dial wasn't answered.
pub fn plays_end_their_reads()
    ensures { PlaysEndTheirReads }
{}
