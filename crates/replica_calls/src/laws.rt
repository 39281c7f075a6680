//! Laws of the calls on a replica's files.

ghost use Rattle.replica_calls.specs.Laws.{PacketsFollowPlans, SettlingFollowsPlans, CreatesFollowPlans};
ghost use Rattle.replica_calls.specs.Laws.{PacketsHaveRoom, SettlingHasRoom, CreatesHaveRoom, StraysAreRemoved};

/// The calls are just those that the plans of a replica's events say.
pub fn calls_follow_plans()
    ensures packets { PacketsFollowPlans }
    ensures settling { SettlingFollowsPlans }
    ensures creates { CreatesFollowPlans }
{}

/// What room the calls need.
pub fn calls_have_room()
    ensures packets { PacketsHaveRoom }
    ensures settling { SettlingHasRoom }
    ensures creates { CreatesHaveRoom }
{}

/// Where all files are strays, each is found, and none is left.
pub fn strays_are_removed()
    ensures { StraysAreRemoved }
{}
