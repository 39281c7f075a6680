//! The writers of the world: they make the moves of their core, know their pipelines, and what is acked at them the
//! members of these show. Each function has an empty body; its clause says what holds after every list of events.
#![tactic(auto)]

ghost use Rattle.std.specs.Prelude.{◌≤◌};
ghost use Rattle.hd_base.specs.declared.roads.TheConstants.{MAX_NODES};
ghost use Rattle.world.specs.Worlds.{start};
ghost use Rattle.world.specs.Events.{run};
ghost use Rattle.world.specs.Safe.{Kept};
ghost use Rattle.world_writers.specs.Moving.{AllMove, AllReached};
ghost use Rattle.world_writers.specs.Piping.{AllPiped};
ghost use Rattle.world_writers.specs.Settling.{AllSit};
ghost use Rattle.world_writers.specs.Showing.{AllShow};
ghost use Rattle.world_writers.specs.Staying.{AnsweredStay, LatestStay};
ghost use Rattle.world_writers.specs.Taking.{AllJoin};

use world::Schedule;

/// Each block's writer is as the moves of a writer left it, from one that was given nothing; and until it was given a
/// command it is such a one.
pub fn writers_make_moves()
    ensures { AllMove }
{}

/// What a writer's next answer names is reached: so many bytes are acked, the stamp is the committed one, the members
/// are those of its pipeline, and a close has all that was written.
pub fn answers_name_what_is_acked()
    ensures { AllReached }
{}

/// Where a writer's phase has a connection, there is one: its request is of the writer's block and of the stamp of the
/// setup, its lower end is the writer's first member, and its targets are the others.
pub fn writers_know_their_pipeline()
    ensures { AllPiped }
{}

/// The bytes that are acked at a writer are shown by each member of its pipeline, as long as it runs in the life in
/// which it accepted the setup and its replica isn't broken, as far as later recoveries that updated it left them.
pub fn acked_bytes_are_shown()
    ensures { AllShow }
{}

/// Each member that an answer to a flush, a sync or a close names was asked to accept a setup of the answer's stamp,
/// and shows the answered bytes, as long as it runs in the life in which it accepted that and its replica isn't
/// broken, as far as later recoveries that updated it left them.
pub fn answered_members_show()
    ensures { AllSit }
{}

/// A node accepts the setup of a stamp once: of the requests under a stamp at most one waits to be taken, and it
/// reaches no node twice, and none that has accepted it.
pub fn setups_are_accepted_once()
    ensures { AllJoin }
{}

/// Bytes for which a flush, a sync or a close was answered stay at each member that is steady since the stamp of the
/// answer, where each later recovery that updated it in this life left it at least so many.
pub fn answered_bytes_stay(schedule: &Schedule)
    requires few { schedule.now.nodes ≤ MAX_NODES }
    ensures { AnsweredStay (run (start schedule.now.nodes) schedule.now.events) }
{}

/// Bytes of the latest session of a block for which a flush, a sync or a close was answered stay at each member that is
/// steady since the stamp of the answer: later recoveries that updated it in this life left it at least so many.
pub fn latest_answers_stay(schedule: &Schedule)
    requires few { schedule.now.nodes ≤ MAX_NODES }
    ensures { LatestStay (run (start schedule.now.nodes) schedule.now.events) }
{}

/// Part Kept of the headline: bytes for which an hflush, hsync or close was answered stay at each member that is steady
/// since the stamp of the answer, and each later recovery that updated it in this life left it at least so many.
pub fn kept_law(schedule: &Schedule)
    requires low { 1 ≤ schedule.now.nodes }
    requires high { schedule.now.nodes ≤ 16 }
    ensures { Kept (run (start schedule.now.nodes) schedule.now.events) }
{}
