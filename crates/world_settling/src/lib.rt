//! Deliveries and own steps come to an end. Each function has an empty body; its clause says what holds of the world.
#![tactic(auto)]

ghost use Rattle.world_settling.specs.Draws.{
  WritersStay,
  PrimariesStay,
  ReadersGoOn,
  DrawsLower,
  DrawsAnswer,
  DrawsEnd,
  RunsEnd,
};
ghost use Rattle.world_settling.specs.Leading.{
  ReadersLower,
  RecoveriesLower,
  PrimariesLower,
  PrimariesHear,
  TellingKeeps,
  BeginningLowers,
  CommittingLowers,
};
ghost use Rattle.world_settling.specs.Measure.{StepsPay, AnswersLower, OwnStepsLower, AskingLowers};
ghost use Rattle.world_settling.specs.Traffic.{DeliveriesLower, OuterKeep};

/// An answer of the office, a loss, a stop or a restart makes no more to be delivered.
pub fn outer_events_keep()
    ensures { OuterKeep }
{}

/// Each delivery that is enabled makes less to be delivered.
pub fn deliveries_lower()
    ensures { DeliveriesLower }
{}

/// A writer's own step lowers its weight by more than what it sends weighs.
pub fn steps_pay()
    ensures { StepsPay }
{}

/// Where a writer takes what stands next on its connection, what is to be delivered and what the writer has to do are
/// together less than before.
pub fn answers_lower()
    ensures { AnswersLower }
{}

/// So they are, with what the command weighs that is taken, in each own step of a writer in which it asks nothing of the
/// office.
pub fn own_steps_lower()
    ensures { OwnStepsLower }
{}

/// So they are where a writer asks the office, and goes on with the answer in its next own step.
pub fn asking_lowers()
    ensures { AskingLowers }
{}

/// A reader's own step, in which it dials and sends its request, brings less to be delivered than the read weighs.
pub fn readers_lower()
    ensures { ReadersLower }
{}

/// In a primary's first step, in which it dials the members and sends each an INIT, what is to be delivered and what the
/// primary has to do become together less than before, with what the recovery weighs.
pub fn recoveries_lower()
    ensures { RecoveriesLower }
{}

/// So they do, with nothing given, in each further step of a primary: it chooses and sends each UPDATE, or ends, also
/// with the office's answer to its commit.
pub fn primaries_lower()
    ensures { PrimariesLower }
{}

/// So they do where a primary takes what stands next on the connection of a member.
pub fn primaries_hear()
    ensures { PrimariesHear }
{}

/// An answer of the office to a primary makes no more to be delivered and done.
pub fn telling_keeps()
    ensures { TellingKeeps }
{}

/// Where a primary asks to begin a recovery and goes on with the answer in its first step, what is to be delivered and
/// what the primary has to do become together less than before, with what the recovery weighs.
pub fn beginning_lowers()
    ensures { BeginningLowers }
{}

/// So they do, with nothing given, where a primary asks to commit and ends with the answer in its next own step.
pub fn committing_lowers()
    ensures { CommittingLowers }
{}

/// An event in which no writer acts leaves all writers as they are.
pub fn writers_stay()
    ensures { WritersStay }
{}

/// An event in which no primary acts leaves all primaries as they are.
pub fn primaries_stay()
    ensures { PrimariesStay }
{}

/// A reader that has begun stays so in every event.
pub fn readers_go_on()
    ensures { ReadersGoOn }
{}

/// Each draw, of a delivery, an own step, or a question to the office with the step that goes on with its answer, makes
/// less to be delivered and done, with what the draw brings: a command, a read or a recovery.
pub fn draws_lower()
    ensures { DrawsLower }
{}

/// A draw leaves no answer of the office behind that waits for a writer.
pub fn draws_answer()
    ensures { DrawsAnswer }
{}

/// Draws come to an end: there are no more than all weighs that was to be delivered and done, with what they bring,
/// whatever is lost, stops and restarts between them.
pub fn draws_end()
    ensures { DrawsEnd }
{}

/// So a whole run has at most as many draws as what they bring weighs: the commands, reads and recoveries that it is
/// given.
pub fn runs_end()
    ensures { RunsEnd }
{}

pub use member_core::MAX_PORT;
pub use world_texts::messages_are_written;
