//! What calls on ends and roads make of the connections that they show.

ghost use Rattle.road_traffic.specs.Laws.{ExchangesShow, LossesShow, BringsShow, DialsShow, KeptShow};
ghost use Rattle.road_traffic.specs.Laws.{SendsShow, QuietShow, ShutsShow, TakesShow};

use hd_base::{LinkIn, LinkOut, Roads};

/// An exchange flushes what an end sent, and its shut; the end takes what stands next, or doesn't. One that failed changes
/// nothing.
pub fn exchanges_show<R: Roads>()
    ensures { ExchangesShow R R.Inward R.Outward R.Roads R.Inward.LinkIn R.Outward.LinkOut }
{}

/// What an end sent that is given up arrives, and the connection has ended.
pub fn losses_show<R: Roads>()
    ensures { LossesShow R R.Inward R.Outward R.Roads R.Inward.LinkIn R.Outward.LinkOut }
{}

/// What an end sent that is brought back arrives, and where it was shut the connection has ended.
pub fn brings_show<R: Roads>()
    ensures { BringsShow R R.Inward R.Outward R.Roads R.Inward.LinkIn R.Outward.LinkOut }
{}

/// A dial that is answered is the next one.
pub fn dials_show<R: Roads>()
    ensures { DialsShow R R.Inward R.Outward R.Roads R.Inward.LinkIn R.Outward.LinkOut }
{}

/// Roads that keep all that is observable show the same connections.
pub fn kept_show<R: Roads>()
    ensures { KeptShow R R.Inward R.Outward R.Roads }
{}

/// An end has sent a piece more.
pub fn sends_show<I: LinkIn, O: LinkOut>()
    ensures { SendsShow I O I.LinkIn O.LinkOut }
{}

/// An end on which nothing was sent shows what it did.
pub fn quiet_show<I: LinkIn, O: LinkOut>()
    ensures { QuietShow I O I.LinkIn O.LinkOut }
{}

/// An end was shut.
pub fn shuts_show<I: LinkIn, O: LinkOut>()
    ensures { ShutsShow I O I.LinkIn O.LinkOut }
{}

/// An end of which something was taken holds what is left.
pub fn takes_show<I: LinkIn, O: LinkOut>()
    ensures { TakesShow I O I.LinkIn O.LinkOut }
{}
