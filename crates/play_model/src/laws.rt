//! Laws of plays.

ghost use Rattle.play_model.specs.Laws.{HaveOneEnd, AreEnabledWhereListed, ListedAreDue};

/// A script is played to one end: the events, the queues and the generator are settled by its lines alone.
pub fn plays_have_one_end()
    ensures { HaveOneEnd }
{}

/// What is listed to be drawn can happen: where no answer of the office waits, each event of it is enabled where it stands,
/// unless it is a writer's step that takes a command. The members of a recovery are at most 16, and distinct.
pub fn drawn_events_are_enabled()
    ensures { AreEnabledWhereListed }
{}

/// What is listed to be drawn is due. A writer that takes a step in it is of one of the play's blocks, and a reader
/// asks what a line of the play has asked.
pub fn listed_dues_are_due()
    ensures { ListedAreDue }
{}
