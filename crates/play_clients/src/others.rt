//! What the events of one writer leave of the others. Each function has an empty body; its clause says what holds of
//! every world.

ghost use Rattle.play_clients.specs.Others.{OwnStepsKeep, HearingKeeps};
ghost use Rattle.play_clients.specs.Staying.{ClientsStay};

use hd_base::{LinkIn, LinkOut};

/// The own step of a writer, with the office's answer where it asks, leaves the other writers and their answers as they
/// are, and takes from no connection.
pub fn own_steps_keep_others()
    ensures { OwnStepsKeep }
{}

/// What a writer hears leaves the other writers and their answers as they are, and is taken from its connection alone.
pub fn hearing_keeps_others()
    ensures { HearingKeeps }
{}

/// A client that shows a world shows also the world after an event that leaves its writer, its answers and its connection
/// as they are.
pub fn clients_stay<I: LinkIn, O: LinkOut>()
    ensures { ClientsStay I.LinkIn O.LinkOut }
{}
