//! What the events of writers leave of the nodes, and what the events of the nodes leave of the writers.

ghost use Rattle.play_nodes.specs.Elsewhere.{NodesFollow, UpperEndsStay, DownLeaves, FaultLeaves, ReadyLeaves, MirrorLeaves, OwnLeaves, HeardLeaves};
ghost use Rattle.play_nodes.specs.Frames.{NodesEndsStay, NodesStay, OwnKeeps, HeardKeeps, DownKeeps, FaultKeeps, ReadyKeeps, MirrorKeeps};

use hd_base::{Files, LinkIn, LinkOut};

/// An event that leaves each end but the upper one of a writer's connection leaves the ends of the nodes.
pub fn nodes_ends_stay<I: LinkIn, O: LinkOut>()
    ensures { NodesEndsStay I.LinkIn O.LinkOut }
{}

/// Nodes that show a world show the world after an event that keeps what they show, and dials nothing.
pub fn nodes_stay<F: Files, I: LinkIn, O: LinkOut>()
    ensures { NodesStay F.Files I.LinkIn O.LinkOut }
{}

/// Nodes that show a world show the world after a lower end that is kept elsewhere acted, with books of its node.
pub fn nodes_follow<F: Files, I: LinkIn, O: LinkOut>()
    ensures { NodesFollow F.Files I.LinkIn O.LinkOut }
{}

/// No upper end takes the end in an event of a lower end.
pub fn upper_ends_stay()
    ensures { UpperEndsStay }
{}

/// The events of writers keep what the nodes show.
pub fn writers_keep_nodes()
    ensures own { OwnKeeps }
    ensures heard { HeardKeeps }
{}

/// The events of the nodes keep the office, the writers, and what they have answered.
pub fn nodes_keep_writers()
    ensures down { DownKeeps }
    ensures fault { FaultKeeps }
    ensures ready { ReadyKeeps }
    ensures up { MirrorKeeps }
{}

/// The events of the nodes keep readers, primaries, and connections that are none of a pipeline.
pub fn nodes_keep_elsewhere()
    ensures down { DownLeaves }
    ensures fault { FaultLeaves }
    ensures ready { ReadyLeaves }
    ensures up { MirrorLeaves }
{}

/// So do the events of writers.
pub fn writers_keep_elsewhere()
    ensures own { OwnLeaves }
    ensures heard { HeardLeaves }
{}
