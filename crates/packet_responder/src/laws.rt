//! A law of taken acks.

ghost use Rattle.member_core.specs.Members.{MemberState};
ghost use Rattle.packet_responder.specs.Acks.{FollowsMember};

/// What `take_ack` does is the turn of the member's own rules, whatever member takes it: of one whose mirror may still
/// answer, whose mirror has ended, or that has none, and of one that tells of a wrong sum.
pub fn acks_follow_the_member()
    ensures { (m : MemberState) → FollowsMember m }
{}
