//! What a member sends and shuts.

use ack_codec::Ack;
use hd_base::ByteList;
use request_refusals::RequestRefusal;

/// How a member answers a write request.
#[derive(Debug, Drop, PartialEq, Eq)]
pub enum SetupAnswer {
    /// The pipeline stands, from this member on.
    Success,
    /// No answer of the mirror could be had, or it named no first bad member: it is the mirror itself.
    Unreached,
    /// The mirror named this first bad member.
    Below { first_bad: ByteList },
    /// This member refuses.
    Refused(RequestRefusal),
}

/// What a member sends up.
#[derive(Debug, Drop, PartialEq, Eq)]
pub enum Upward {
    /// The answer to the write request.
    Answer(SetupAnswer),
    /// The ack of a packet.
    Ack(Ack),
}

/// Which connections a member shuts.
#[derive(Clone, Copy, Debug, PartialEq, Eq)]
pub enum Shuts {
    /// None.
    Nothing,
    /// The one to its mirror, after the end of the one from above.
    Mirror,
    /// The one from above, and the one to its mirror.
    Both,
}

/// What a member does to its connections in a turn.
#[derive(Debug, Drop, PartialEq, Eq)]
pub struct Effect {
    /// Whether the packet that was booked is sent to the mirror, unchanged.
    pub forwards: bool,
    /// What is sent up.
    pub sends: Option<Upward>,
    /// What is shut then.
    pub shuts: Shuts,
}

impl Effect {
    ghost use Rattle.std.specs.Prelude.{◌≡◌};
    ghost use Rattle.member_core.specs.Members.{no_effect, shut_both, sending};

    /// Nothing is sent, and nothing shut.
    pub fn nothing() -> Effect
        ensures { result ≡ no_effect }
    {
        Effect {
            forwards: false,
            sends: None,
            shuts: Shuts::Nothing,
        }
    }

    /// Nothing is sent, and both connections are shut.
    pub fn shut_both() -> Effect
        ensures { result ≡ shut_both }
    {
        Effect {
            forwards: false,
            sends: None,
            shuts: Shuts::Both,
        }
    }

    /// This is sent up, and both connections are shut where the turn is the last one.
    pub(crate) fn sending(message: Upward, is_over: bool) -> Effect
        ensures { result ≡ sending message is_over }
    {
        Effect {
            forwards: false,
            sends: Some(message),
            shuts: if is_over { Shuts::Both } else { Shuts::Nothing },
        }
    }
}
