//! What the events of readers leave of all others, and what the events of others leave of the readers. Each function
//! has an empty body; its clause says what holds of every world.

ghost use Rattle.play_readers.specs.Staying.{ReadClientsStay};
ghost use Rattle.play_readers.specs.Frames.{
  AskingKeepsOthers,
  HearingKeepsOthers,
  AskingKeepsNodes,
  HearingKeepsNodes,
  OwnStepsKeepReaders,
  HearingKeepsReaders,
  DownKeepsReaders,
  FaultKeepsReaders,
  ReadyKeepsReaders,
  MirrorKeepsReaders,
};

use hd_base::{LinkIn, LinkOut};

/// A reading client that shows a world shows also the world after an event that leaves its reader and its connection as
/// they are.
pub fn read_clients_stay<I: LinkIn, O: LinkOut>()
    ensures { ReadClientsStay I.LinkIn O.LinkOut }
{}

/// The own step of a reader, and what it hears, leave the other readers, the writers and their answers, the primaries
/// and the office as they are. The step takes from no connection, and the hearing from the reader's alone.
pub fn readers_keep_others()
    ensures asks { AskingKeepsOthers }
    ensures hears { HearingKeepsOthers }
{}

/// The own step of a reader, and what it hears, leave all that nodes have as it is. The step dials at most one
/// connection, whose lower end is served then; what it hears dials none.
pub fn readers_keep_nodes()
    ensures asks { AskingKeepsNodes }
    ensures hears { HearingKeepsNodes }
{}

/// The own step of a writer, with the office's answer where it asks, and what it hears, leave the readers as they are,
/// and which ends they took.
pub fn writers_keep_readers()
    ensures acts { OwnStepsKeepReaders }
    ensures hears { HearingKeepsReaders }
{}

/// So does what the lower ends of connections take and do without a message, and what a member takes from its mirror.
pub fn members_keep_readers()
    ensures downs { DownKeepsReaders }
    ensures faults { FaultKeepsReaders }
    ensures readies { ReadyKeepsReaders }
    ensures mirrors { MirrorKeepsReaders }
{}
