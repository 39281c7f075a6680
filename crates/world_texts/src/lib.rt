//! Each message on the connections of the world is spelled by its text: whoever reads the bytes reads what was sent.
//! Each function has an empty body; its clauses say what holds after every list of events.
#![tactic(auto)]

ghost use Rattle.world_texts.specs.Texts.{AllWritten};

/// Each message that was sent on a connection is spelled by the bytes as which it is written, as long as the blocks of
/// writers and primaries have numbers of 64 bits, the requests of readers can be written, and the office has given only
/// stamps of 64 bits.
pub fn messages_are_written()
    ensures { AllWritten }
{}

pub use world_nets::starts_are_nets;
