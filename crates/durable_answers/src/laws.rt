//! The law of answers to hsyncs, and losses of power.

ghost use Rattle.std.specs.Prelude.{◌≤◌};
ghost use Rattle.hd_base.specs.declared.roads.TheConstants.{MAX_NODES};
ghost use Rattle.durable_answers.specs.Histories.{AnswersSurvive};

use hd_base::Files;
use world::Schedule;

/// Of each member that an answer to an hsync names, where it is steady since the stamp of the answer until a loss of
/// power: of a book that took the events of the member's history the scan of a restart lists the replica with at least
/// the whole chunks among the answered bytes, as they were written in the session of the answer.
pub fn answers_survive<F: Files>(schedule: &Schedule)
    requires few { schedule.now.nodes ≤ MAX_NODES }
    ensures { AnswersSurvive F.Files schedule.now.nodes schedule.now.events }
{}
