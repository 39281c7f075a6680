//! What the events of writers, members and readers leave of the recoveries of a play. But for what they call, the
//! functions have empty bodies; their clauses say what holds of every world.

ghost use Rattle.play_recoveries.specs.Others.{
  OwnStepsKeepRecoveries,
  HearingKeepsRecoveries,
  DownKeepsRecoveries,
  FaultKeepsRecoveries,
  ReadyKeepsRecoveries,
  MirrorKeepsRecoveries,
  AskingKeepsRecoveries,
  ReadingKeepsRecoveries,
  ServingKeepsRecoveries,
  SendingKeepsRecoveries,
};

use hd_base::{LinkIn, LinkOut};
use play_nodes::{nodes_keep_elsewhere, writers_keep_elsewhere};
use play_primaries::{
    members_keep_primaries, readers_keep_nodes, readers_keep_primaries, writers_keep_primaries,
};

/// Own steps of writers, and what they hear, keep what recoveries show.
pub fn writers_keep_recoveries<I: LinkIn, O: LinkOut>()
    ensures own { OwnStepsKeepRecoveries I.LinkIn O.LinkOut }
    ensures hears { HearingKeepsRecoveries I.LinkIn O.LinkOut }
{
    writers_keep_elsewhere();
    writers_keep_primaries();
}

/// So do the events of members.
pub fn members_keep_recoveries<I: LinkIn, O: LinkOut>()
    ensures downs { DownKeepsRecoveries I.LinkIn O.LinkOut }
    ensures faults { FaultKeepsRecoveries I.LinkIn O.LinkOut }
    ensures readies { ReadyKeepsRecoveries I.LinkIn O.LinkOut }
    ensures mirrors { MirrorKeepsRecoveries I.LinkIn O.LinkOut }
{
    nodes_keep_elsewhere();
    members_keep_primaries();
}

/// So do the events of readers, and of the lower ends that they dialled.
pub fn readers_keep_recoveries<I: LinkIn, O: LinkOut>()
    ensures asks { AskingKeepsRecoveries I.LinkIn O.LinkOut }
    ensures hears { ReadingKeepsRecoveries I.LinkIn O.LinkOut }
    ensures serves { ServingKeepsRecoveries I.LinkIn O.LinkOut }
    ensures sends { SendingKeepsRecoveries I.LinkIn O.LinkOut }
{
    readers_keep_nodes();
    readers_keep_primaries();
    members_keep_primaries();
}
