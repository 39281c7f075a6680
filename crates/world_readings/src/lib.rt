//! What readers come to: each has the bytes that it asked for, was refused, or has ended, and as long as it has no result
//! something can happen on its connection. Each function has an empty body; its clauses say what holds after every list
//! of events.
#![tactic(auto)]

ghost use Rattle.world_readings.specs.Going.{AllGoOn};
ghost use Rattle.world_readings.specs.Lengths.{AllLimited};
ghost use Rattle.world_readings.specs.Origins.{AllHeld};
ghost use Rattle.world_readings.specs.Results.{AllComeTo, AllEnd};

/// No replica has more bytes than a block may have.
pub fn replicas_are_limited()
    ensures { AllLimited }
{}

/// A reader that has a result has all bytes that it asked for, as the node sent them; or the node refused the read; or the
/// dial wasn't answered, or the reader has taken the connection's end, and where either is so there is no other result. No
/// packet that it takes stands out of place or has another sum than its bytes have.
pub fn readers_come_to_results()
    ensures come { AllComeTo }
    ensures ended { AllEnd }
{}

/// Each packet that was sent on the connection of a reader brings bytes that the node's replica of the block had at that
/// place after some of the events.
pub fn packets_were_held()
    ensures { AllHeld }
{}

/// A reader that reads over a connection may take what stands next there, or else the node takes the request, or sends.
pub fn readers_go_on()
    ensures { AllGoOn }
{}
