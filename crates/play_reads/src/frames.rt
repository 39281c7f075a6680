//! What the events of others leave of the reads of a play. But for what they call, the functions have empty bodies;
//! their clauses say what holds of every world.

ghost use Rattle.play_reads.specs.Keeping.{
  ReadsStay,
  OwnStepsKeepReads,
  HearingKeepsReads,
  DownKeepsReads,
  FaultKeepsReads,
  ReadyKeepsReads,
  MirrorKeepsReads,
  LeadingKeepsReads,
  AnswersKeepReads,
  AnsweringKeepsReads,
  CutsKeepReads,
  StartsKeepReads,
};

use hd_base::{LinkIn, LinkOut};
use play_nodes::{nodes_keep_elsewhere, writers_keep_elsewhere};
use play_primaries::{
    cuts_are_losses, ends_stay_in_cuts, members_keep_readers, primaries_keep_nodes,
    primaries_keep_others, read_clients_stay, writers_keep_readers,
};

/// Reads that show a world show the world after an event that keeps what they show.
pub fn reads_stay<I: LinkIn, O: LinkOut>()
    ensures { ReadsStay I.LinkIn O.LinkOut }
{
    read_clients_stay::<I, O>();
}

/// The events of writers keep what the reads show.
pub fn writers_keep_reads<I: LinkIn, O: LinkOut>()
    ensures own { OwnStepsKeepReads I.LinkIn O.LinkOut }
    ensures hears { HearingKeepsReads I.LinkIn O.LinkOut }
{
    writers_keep_elsewhere();
    writers_keep_readers();
}

/// So do the events of members.
pub fn members_keep_reads<I: LinkIn, O: LinkOut>()
    ensures downs { DownKeepsReads I.LinkIn O.LinkOut }
    ensures faults { FaultKeepsReads I.LinkIn O.LinkOut }
    ensures readies { ReadyKeepsReads I.LinkIn O.LinkOut }
    ensures mirrors { MirrorKeepsReads I.LinkIn O.LinkOut }
{
    nodes_keep_elsewhere();
    members_keep_readers();
}

/// So do the events of primaries, and of the lower ends that they dialled.
pub fn primaries_keep_reads<I: LinkIn, O: LinkOut>()
    ensures leads { LeadingKeepsReads I.LinkIn O.LinkOut }
    ensures hears { AnswersKeepReads I.LinkIn O.LinkOut }
    ensures answers { AnsweringKeepsReads I.LinkIn O.LinkOut }
{
    primaries_keep_others();
    primaries_keep_nodes();
    members_keep_readers();
}

/// So do cuts.
pub fn cuts_keep_reads<I: LinkIn, O: LinkOut>()
    ensures { CutsKeepReads I.LinkIn O.LinkOut }
{
    cuts_are_losses();
    ends_stay_in_cuts::<I, O>();
}

/// So does the start of a node that didn't run: nothing was dialled to it in the life in which it runs then.
pub fn starts_keep_reads<I: LinkIn, O: LinkOut>()
    ensures { StartsKeepReads I.LinkIn O.LinkOut }
{
    read_clients_stay::<I, O>();
}
