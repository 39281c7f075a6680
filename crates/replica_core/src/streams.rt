//! The stream of packets that writes a replica.

ghost use Rattle.std.specs.Prelude.{◌≡◌};
ghost use Rattle.replica_core.specs.Extents.{fresh, wanted, follows, stream_after};

use crate::extents::PacketExtent;
use crate::refusals::{PieceRule, Refusal};
use hd_base::ConnId;

/// The stream of the connection that writes a replica.
#[derive(Clone, Copy, Debug, PartialEq, Eq)]
pub struct Stream {
    /// The connection.
    pub conn: ConnId,
    /// The seqno of the packet that was taken last, heartbeats apart.
    pub previous: Option<i64>,
    /// Whether the last packet was taken.
    pub is_over: bool,
}

impl Stream {
    /// A stream of which nothing was taken.
    pub fn new(conn: ConnId) -> Stream
        ensures { result ≡ fresh conn }
    {
        Stream {
            conn,
            previous: None,
            is_over: false,
        }
    }

    /// The stream after this packet, which isn't a heartbeat.
    #[tactic(auto, unfolding(crate::specs::Extents::stream_after))]
    pub fn after(&self, extent: &PacketExtent) -> Result<Stream, Refusal>
        ensures { result ≡ stream_after self.now extent.now }
    {
        if !self.is_followed_by(extent.seqno) {
            return Err(Refusal::Seqno {
                want: self.wanted(),
                got: extent.seqno,
            });
        }
        if self.is_over {
            return Err(Refusal::Piece {
                rule: PieceRule::AfterLast,
            });
        }
        Ok(Stream {
            conn: self.conn,
            previous: Some(extent.seqno),
            is_over: extent.last,
        })
    }

    /// The one seqno that is wanted: `None` before the first packet and after the greatest seqno.
    fn wanted(&self) -> Option<i64>
        ensures { result ≡ wanted self.now.previous }
    {
        match self.previous {
            Some(previous) if previous < i64::MAX => Some(previous + 1),
            _ => None,
        }
    }

    /// Whether a packet with this seqno may be next.
    fn is_followed_by(&self, seqno: i64) -> bool
        ensures { result ≡ follows self.now.previous seqno }
    {
        match self.previous {
            Some(_) => self.wanted().is_some_and(|wanted| wanted == seqno),
            None => seqno >= 0,
        }
    }
}
