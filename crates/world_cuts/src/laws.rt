//! What a cut makes of roads, ends and a world. Each function has an empty body.

ghost use Rattle.world_cuts.specs.Cutting.{CutsShow, CutsAreLosses, EndsStayInCuts};

use hd_base::{LinkIn, LinkOut, Roads};

/// Roads whose connection was cut show the connections of which it has ended so.
pub fn cuts_show<R: Roads>()
    ensures { CutsShow R R.Inward R.Outward R.Roads }
{}

/// The connections of which one was cut are those of the world in which what was on its way was lost, down and up.
pub fn cuts_are_losses()
    ensures { CutsAreLosses }
{}

/// Each end stays one of that world.
pub fn ends_stay_in_cuts<I: LinkIn, O: LinkOut>()
    ensures { EndsStayInCuts I.LinkIn O.LinkOut }
{}
