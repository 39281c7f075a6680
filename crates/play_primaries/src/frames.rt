//! What the events of primaries leave of all others, and what the events of others leave of the primaries. Each
//! function has an empty body; its clause says what holds of every world.

ghost use Rattle.play_primaries.specs.Staying.{PrimaryClientsStay};
ghost use Rattle.play_primaries.specs.Frames.{
  OwnStepsKeepOthers,
  HearingKeepsOthers,
  OwnStepsKeepNodes,
  HearingKeepsNodes,
  WritingKeepsPrimaries,
  AcksKeepPrimaries,
  DownKeepsPrimaries,
  FaultKeepsPrimaries,
  ReadyKeepsPrimaries,
  MirrorKeepsPrimaries,
  AskingKeepsPrimaries,
  PiecesKeepPrimaries,
};

use hd_base::{LinkIn, LinkOut};

/// A client that shows a world shows also the world after an event that leaves its primary, the life of its node and
/// its connections as they are.
pub fn primary_clients_stay<I: LinkIn, O: LinkOut>()
    ensures { PrimaryClientsStay I.LinkIn O.LinkOut }
{}

/// The own step of a primary, with the office's answer where it asks, and what it hears, leave the other primaries, the
/// readers, and the writers and their answers as they are. The step takes from no connection, and the hearing from that
/// connection alone; it leaves the office, too.
pub fn primaries_keep_others()
    ensures owns { OwnStepsKeepOthers }
    ensures hears { HearingKeepsOthers }
{}

/// The own step of a primary, and what it hears, leave all that nodes have as it is. The step dials connections alone
/// whose lower ends are served then; what it hears dials none.
pub fn primaries_keep_nodes()
    ensures owns { OwnStepsKeepNodes }
    ensures hears { HearingKeepsNodes }
{}

/// The own step of a writer, with the office's answer where it asks, and what it hears, leave the primaries as they
/// are, and which ends they took.
pub fn writers_keep_primaries()
    ensures acts { WritingKeepsPrimaries }
    ensures hears { AcksKeepPrimaries }
{}

/// So does what the lower ends of connections take and do without a message, and what a member takes from its mirror.
pub fn members_keep_primaries()
    ensures downs { DownKeepsPrimaries }
    ensures faults { FaultKeepsPrimaries }
    ensures readies { ReadyKeepsPrimaries }
    ensures mirrors { MirrorKeepsPrimaries }
{}

/// So do the own step of a reader, and what it hears.
pub fn readers_keep_primaries()
    ensures asks { AskingKeepsPrimaries }
    ensures hears { PiecesKeepPrimaries }
{}
