//! Plays come to an end: what is due makes less to be done. Each function has an empty body; its clause says what holds
//! of the world of a play.
#![tactic(auto)]

ghost use Rattle.play_settling.specs.Failing.{WritesMayFail};
ghost use Rattle.play_settling.specs.Settling.{ActOrAsk, DuesLower, PlaysLower};

/// Where no answer of the office waits for a writer, its next step does something, asks the office or waits: it dials
/// only in the step in which it has the office's answer.
pub fn writers_act_or_ask()
    ensures { ActOrAsk }
{}

/// What is due makes less to be done, whether dials in it are answered or not: what is to be delivered, what the
/// writers and primaries have to do, the commands that are queued for them and the reads and recoveries that haven't
/// begun are together less than before.
pub fn dues_lower()
    ensures { DuesLower }
{}

/// So it is in a play: each thing that is due and befalls makes less to be done, where a write fails in it, too.
pub fn plays_lower()
    ensures { PlaysLower }
{}

/// Where a member's replica grows as it takes what stands next from above, the write that makes it grow may fail.
pub fn writes_may_fail()
    ensures { WritesMayFail }
{}
