//! The laws of served reads.

ghost use Rattle.visible_read.specs.Laws.{FollowsRead};

/// A packet that the replica takes is the read's next one at that replica; one that it refuses ends the read.
pub fn packets_follow_the_read()
    ensures { FollowsRead }
{}
