//! The kinds of messages: how each is taken off the front of the bytes.

use crate::buffer::Buffer;
use crate::faults::NoMessage;
use crate::framing::Framing;
use crate::packet_frames::PacketFrame;
use ack_codec::{Ack, Response, decode_ack, decode_read_status, decode_response};
use hd_base::Status;
use op_headers::{Op, RecoveryAnswer, decode_answer, decode_op};
use packet_codec::{Packet, packet_parts};

/// A kind of message.
pub(crate) trait Kind: Sized + Drop {
    ghost use Rattle.std.specs.Prelude.{◌≡◌, [], Err};
    ghost use Rattle.frame_feed.specs.declared.faults.NoMessage.TheVariants.{Short};
    ghost use Rattle.frame_feed.specs.Buffers.{held, TakesAsRead};
    ghost use Rattle.frame_feed.specs.Kinds.{Kind as KindOf, IsSound};

    // Which bytes spell one, why bytes begin with none, how its length shows, and what reading gives.
    ghost kind: { KindOf Self };

    /// How the message's length shows at its front.
    fn framing() -> Framing
        ensures { result ≡ kind.framing };

    /// Takes the message off the front of the bytes, which are in one piece. Where there is none,
    /// they stay as they were.
    fn take(from: &mut Buffer) -> Result<Self, NoMessage>
        requires { from.old.front ≡ [] }
        ensures read { TakesAsRead kind.reads (held from.old) result (held from.new) }
        ensures joined { result ≡ Err Short → from.new.front ≡ [] };

    // Reading finds what is spelled, and why nothing is.
    ghost sound: { IsSound kind };
}

impl Kind for Op {
    ghost use Rattle.frame_feed.specs.Kinds.{requests};
    ghost use Rattle.frame_feed.specs.KindLaws.{requests_sound};

    ghost kind = { requests };

    ghost sound = { requests_sound };

    fn framing() -> Framing {
        Framing::Request
    }

    fn take(from: &mut Buffer) -> Result<Op, NoMessage> {
        let (op, size) = decode_op(from.allocator(), from.as_slice())?;
        from.advance(size);
        Ok(op)
    }
}

impl Kind for Packet {
    ghost use Rattle.frame_feed.specs.Kinds.{packets};
    ghost use Rattle.frame_feed.specs.KindLaws.{packets_sound};

    ghost kind = { packets };

    ghost sound = { packets_sound };

    fn framing() -> Framing {
        Framing::Packet
    }

    fn take(from: &mut Buffer) -> Result<Packet, NoMessage> {
        let parts = packet_parts(from.as_slice())?;
        let (_, sums, body) = from.cut(parts.size, parts.data_at, parts.sums)?;
        Ok(Packet::from_parts(parts.header, sums, body))
    }
}

impl Kind for PacketFrame {
    ghost use Rattle.frame_feed.specs.Kinds.{packet_frames};
    ghost use Rattle.frame_feed.specs.KindLaws.{packet_frames_sound};

    ghost kind = { packet_frames };

    ghost sound = { packet_frames_sound };

    fn framing() -> Framing {
        Framing::Packet
    }

    fn take(from: &mut Buffer) -> Result<PacketFrame, NoMessage> {
        let parts = packet_parts(from.as_slice())?;
        let (text, sums, body) = from.cut(parts.size, parts.data_at, parts.sums)?;
        let packet = Packet::from_parts(parts.header, sums, body);
        Ok(PacketFrame { packet, text })
    }
}

impl Kind for Ack {
    ghost use Rattle.frame_feed.specs.Kinds.{acks};
    ghost use Rattle.frame_feed.specs.KindLaws.{acks_sound};

    ghost kind = { acks };

    ghost sound = { acks_sound };

    fn framing() -> Framing {
        Framing::Prefixed
    }

    fn take(from: &mut Buffer) -> Result<Ack, NoMessage> {
        let (ack, size) = decode_ack(from.as_slice())?;
        from.advance(size);
        Ok(ack)
    }
}

impl Kind for Response {
    ghost use Rattle.frame_feed.specs.Kinds.{responses};
    ghost use Rattle.frame_feed.specs.KindLaws.{responses_sound};

    ghost kind = { responses };

    ghost sound = { responses_sound };

    fn framing() -> Framing {
        Framing::Prefixed
    }

    fn take(from: &mut Buffer) -> Result<Response, NoMessage> {
        let (response, size) = decode_response(from.allocator(), from.as_slice())?;
        from.advance(size);
        Ok(response)
    }
}

impl Kind for RecoveryAnswer {
    ghost use Rattle.frame_feed.specs.Kinds.{answers};
    ghost use Rattle.frame_feed.specs.KindLaws.{answers_sound};

    ghost kind = { answers };

    ghost sound = { answers_sound };

    fn framing() -> Framing {
        Framing::Prefixed
    }

    fn take(from: &mut Buffer) -> Result<RecoveryAnswer, NoMessage> {
        let (answer, size) = decode_answer(from.allocator(), from.as_slice())?;
        from.advance(size);
        Ok(answer)
    }
}

impl Kind for Status {
    ghost use Rattle.frame_feed.specs.Kinds.{read_statuses};
    ghost use Rattle.frame_feed.specs.KindLaws.{read_statuses_sound};

    ghost kind = { read_statuses };

    ghost sound = { read_statuses_sound };

    fn framing() -> Framing {
        Framing::Prefixed
    }

    fn take(from: &mut Buffer) -> Result<Status, NoMessage> {
        let (status, size) = decode_read_status(from.as_slice())?;
        from.advance(size);
        Ok(status)
    }
}
