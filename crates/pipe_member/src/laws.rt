//! Laws of running members.

ghost use Rattle.pipe_member.specs.Stepping.{TurnsAreSteps};
ghost use Rattle.pipe_member.specs.EventSteps.{DownsAreSteps, ReadiesAreSteps, UpsAreSteps};
ghost use Rattle.pipe_member.specs.SetupSteps.{SetupsAreSteps, RefusalsAreSteps, ResumptionsAreSteps};

use hd_base::{Files, LinkIn, LinkOut, Roads};

/// Each turn of a running member is the step of its rules over its book's replica: the member and the replica are where
/// the step leads, its message was sent up and its packet to the mirror, each as one piece, unless that link failed and
/// its count of faults rose. So what members do over links that tell is what the rules say, event by event.
pub fn turns_are_steps<F: Files, I: Drop, O: LinkOut>()
    ensures { TurnsAreSteps F I O F.Files O.LinkOut }
{}

/// Each `down` of an open member is the step of its rules over its book's replica for what it took, or nothing was to be
/// taken and nothing was done. The member holds an end to its mirror then only where it has a mirror by its rules.
pub fn downs_are_steps<F: Files, I: LinkIn, O: LinkOut>()
    ensures { DownsAreSteps F I O F.Files I.LinkIn O.LinkOut }
{}

/// The same of each `ready`.
pub fn readies_are_steps<F: Files, I: Drop, O: LinkOut>()
    ensures { ReadiesAreSteps F I O F.Files O.LinkOut }
{}

/// The same of each `up`.
pub fn ups_are_steps<F: Files, I: LinkIn, O: LinkOut>()
    ensures { UpsAreSteps F I O F.Files I.LinkIn O.LinkOut }
{}

/// Each setup of a member whose request is an event of its replica is the request's step: the member and the replica are
/// where the step leads, and its answer was sent, if it has one. The member holds an end to its mirror then only where it
/// has a mirror by its rules.
pub fn setups_are_steps<F: Files, R: Roads>()
    ensures { SetupsAreSteps F R R.Inward R.Outward F.Files R.Roads R.Inward.LinkIn R.Outward.LinkOut }
{}

/// So is each setup of a member whose request is refused before the replica is asked.
pub fn refusals_are_steps<F: Files, I: Drop, O: LinkOut>()
    ensures { RefusalsAreSteps F I O O.LinkOut }
{}

/// So are the two calls of a setup that books its request, finds no memory for the dial, and goes on with it later.
pub fn resumptions_are_steps<F: Files, R: Roads>()
    ensures { ResumptionsAreSteps F R R.Inward R.Outward F.Files R.Roads R.Inward.LinkIn R.Outward.LinkOut }
{}
