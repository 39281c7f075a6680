//! The kinds of messages that are taken.

use ack_codec::{Ack, Response};
use frame_feed::{Feed, FeedFault, PacketFrame};
use op_headers::Op;
use packet_codec::Packet;

/// A message of a stream.
pub trait Streamed: Sized + Drop {
    ghost use Rattle.std.specs.Prelude.{[], IfErr};
    ghost use Rattle.frame_feed.specs.Framings.{IsCut};
    ghost use Rattle.frame_feed.specs.Faults.{IsAnswer};
    ghost use Rattle.frame_feed.specs.Feeds.{TakesNext};
    ghost use Rattle.frame_feed.specs.Kinds.{Kind, IsSound};

    // Which bytes spell one, and why bytes begin with none.
    ghost kind: { Kind Self };

    /// The message at the front of the feed.
    fn take(feed: &mut Feed) -> Result<Option<Self>, FeedFault>
        ensures takes { TakesNext kind feed.old result feed.new }
        ensures of_stream { IfErr result IsAnswer };

    // Reading finds what is spelled, and why nothing is.
    ghost sound: { IsSound kind };

    // No bytes are a front of a message.
    ghost empty: { IsCut kind.framing [] };
}

impl Streamed for Op {
    ghost use Rattle.frame_feed.specs.Kinds.{requests};
    ghost use Rattle.frame_feed.specs.KindLaws.{requests_sound};
    ghost use Rattle.link_messages.specs.Empties.{requests_empty};

    ghost kind = { requests };

    ghost sound = { requests_sound };

    ghost empty = { requests_empty };

    fn take(feed: &mut Feed) -> Result<Option<Op>, FeedFault> {
        feed.next_op()
    }
}

impl Streamed for Packet {
    ghost use Rattle.frame_feed.specs.Kinds.{packets};
    ghost use Rattle.frame_feed.specs.KindLaws.{packets_sound};
    ghost use Rattle.link_messages.specs.Empties.{packets_empty};

    ghost kind = { packets };

    ghost sound = { packets_sound };

    ghost empty = { packets_empty };

    fn take(feed: &mut Feed) -> Result<Option<Packet>, FeedFault> {
        feed.next_packet()
    }
}

impl Streamed for PacketFrame {
    ghost use Rattle.frame_feed.specs.Kinds.{packet_frames};
    ghost use Rattle.frame_feed.specs.KindLaws.{packet_frames_sound};
    ghost use Rattle.link_messages.specs.Empties.{packets_empty};

    ghost kind = { packet_frames };

    ghost sound = { packet_frames_sound };

    ghost empty = { packets_empty };

    fn take(feed: &mut Feed) -> Result<Option<PacketFrame>, FeedFault> {
        feed.next_packet_frame()
    }
}

impl Streamed for Ack {
    ghost use Rattle.frame_feed.specs.Kinds.{acks};
    ghost use Rattle.frame_feed.specs.KindLaws.{acks_sound};
    ghost use Rattle.link_messages.specs.Empties.{acks_empty};

    ghost kind = { acks };

    ghost sound = { acks_sound };

    ghost empty = { acks_empty };

    fn take(feed: &mut Feed) -> Result<Option<Ack>, FeedFault> {
        feed.next_ack()
    }
}

impl Streamed for Response {
    ghost use Rattle.frame_feed.specs.Kinds.{responses};
    ghost use Rattle.frame_feed.specs.KindLaws.{responses_sound};
    ghost use Rattle.link_messages.specs.Empties.{responses_empty};

    ghost kind = { responses };

    ghost sound = { responses_sound };

    ghost empty = { responses_empty };

    fn take(feed: &mut Feed) -> Result<Option<Response>, FeedFault> {
        feed.next_response()
    }
}
