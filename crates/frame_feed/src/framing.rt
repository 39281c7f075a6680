//! How the length of a message shows at its front.

ghost use Rattle.std.specs.Prelude.{◌≡◌, ◌<◌, ◌≤◌, length, IfSome};
ghost use Rattle.proto_fields.specs.Frames.{IsCutFrame};
ghost use Rattle.frame_feed.specs.Framings.{IsCut, size_at, prefixed_size};

use packet_codec::packet_length;
use proto_fields::read_varint;

/// How many bytes the version and the opcode at a request's front have.
const HEAD: usize = 3;

/// How the length of a message shows at its front.
#[derive(Clone, Copy, Debug, PartialEq, Eq)]
pub(crate) enum Framing {
    /// The lengths of payload and header in the first six bytes.
    Packet,
    /// The length behind version and opcode.
    Request,
    /// The length in front of the message.
    Prefixed,
}

impl Framing {
    /// How many bytes the message has in all that these bytes begin and don't end, once its length
    /// shows.
    pub fn size(self, front: &[u8]) -> Option<usize>
        requires { IsCut self front.now }
        ensures size { result ≡ size_at self front.now }
        ensures more { IfSome result (λ size. length front.now < size) }
    {
        match self {
            Framing::Packet => packet_length(front).ok(),
            Framing::Request if front.len() < HEAD => None,
            Framing::Request => {
                let size = prefixed_size_of(&front[HEAD..])?;
                Some(HEAD + size)
            }
            Framing::Prefixed => prefixed_size_of(front),
        }
    }
}

/// How many bytes the length at the front and the message behind it have together.
fn prefixed_size_of(front: &[u8]) -> Option<usize>
    requires { IsCutFrame front.now }
    ensures size { result ≡ prefixed_size front.now }
    ensures most { IfSome result (λ size. size ≤ 65546) }
{
    let (length, rest) = read_varint(front).ok()?;
    Some(front.len() - rest.len() + length as usize)
}
