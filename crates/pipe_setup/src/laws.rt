//! A law of answers.

ghost use Rattle.member_core.specs.Members.{MemberState};
ghost use Rattle.pipe_setup.specs.Answers.{FollowsMember};

/// `setup_above` is what the member's own rules send up, whatever member has asked its mirror.
pub fn answers_follow_the_member()
    ensures { (m : MemberState) → FollowsMember m }
{}
