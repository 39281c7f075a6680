//! What may be handed in.

ghost use Rattle.whole_play.specs.Unused.{NewAreUnused};

use hd_base::Roads;

/// Roads over plain memory are unused as long as they hold nothing, have carried nothing, and no end's count has risen.
pub fn new_roads_are_unused<R: Roads>()
    ensures { NewAreUnused R.Roads }
{}
