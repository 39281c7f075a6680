//! A law of taken packets.

ghost use Rattle.block_receiver.specs.Packets.{FollowsMember};

/// A packet is sent on just where the member's own rules say so, whatever member takes it: one that has a mirror sends on
/// what the book took, and nothing else.
pub fn packets_follow_the_member()
    ensures { FollowsMember }
{}
