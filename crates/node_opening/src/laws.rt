//! What nodes of a play are closed with.

ghost use Rattle.node_opening.specs.Laws.{OpenedClose, OpenedStand, StandingClose, ShownFit, FitEach};

use hd_base::{Files, LinkIn, LinkOut, Shelf};

/// The shelves of nodes that were opened lend their blocks, and their books are of the blocks at their places.
pub fn opened_nodes_close<S: Shelf, I: LinkIn, O: LinkOut>()
    ensures { OpenedClose S S.Drawer I O S.Shelf S.Drawer.Files }
{}

/// The shelves of nodes that were opened stand for them, and have lent all that they had.
pub fn opened_nodes_stand<S: Shelf, I: LinkIn, O: LinkOut>()
    ensures { OpenedStand S S.Drawer I O S.Shelf S.Drawer.Files }
{}

/// Nodes for which shelves stand can be closed. Then no shelf lends a block that it didn't before the play, and its count
/// of faults rose where it did during the play, or where a book of its node has failed.
pub fn standing_nodes_close<S: Shelf, I: LinkIn, O: LinkOut>()
    ensures { StandingClose S S.Drawer I O S.Shelf S.Drawer.Files }
{}

/// The books of nodes that show a world are of the blocks at their places.
pub fn shown_nodes_fit<F: Files, I: LinkIn, O: LinkOut>()
    ensures { ShownFit F I O I.LinkIn O.LinkOut }
{}

/// Where books fit, those of each node are of the blocks at their places, also without those past the blocks.
pub fn fitting_books_are_of_blocks<F: Files>()
    ensures { FitEach F }
{}
