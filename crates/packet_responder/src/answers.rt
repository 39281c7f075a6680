//! The turns of a member at what comes from below.

ghost use Rattle.std.specs.Prelude.{◌≡◌, ◌≤◌, [], ◌∷◌, length, All, Some, IfSome};
ghost use Rattle.hd_base.specs.Wire.{IsStatus};
ghost use Rattle.hd_base.specs.declared.states.Status.TheVariants as status;
ghost use Rattle.member_core.specs.declared.inputs.FromBelow.TheVariants as from_mirror;
ghost use Rattle.member_core.specs.Acks.{ack_of};
ghost use Rattle.member_core.specs.Members.{
  turn_of,
  sending,
  shut_both,
  ack_turn,
  give_up_turn,
  good_turn,
  bad_turn,
  pass_turn,
};
ghost use Rattle.packet_responder.specs.Acks.{IsListed, streaming, turn_at, pending_turn, idle_turn};
ghost use Rattle.packet_responder.specs.Turns.{IsAnswer, MaySend};

use crate::acks::FromBelow;
use crate::replies::{begins_with_bad_sum, failures, is_read, with_own};
use hd_base::{ConnId, Status};
use member_core::{
    Ack, Effect, MAX_BELOW, Mirror, ReplicaEvent, Replies, Shuts, Side, Turn, Upward,
};
use replica_core::{Event, PendingPacket};

/// The turn at what comes from below, where this is the oldest pending packet. `None` where nothing is due.
pub(crate) fn turn_at(
    conn: ConnId,
    below: u64,
    from: FromBelow,
    oldest: Option<PendingPacket>,
) -> Option<Turn>
    requires few { below ≤ MAX_BELOW }
    requires listed { IsListed from }
    ensures turn { result ≡ turn_at (streaming conn below) from oldest }
    ensures answers { IfSome result IsAnswer }
{
    let Some(packet) = oldest else {
        return idle_turn(conn, from);
    };
    Some(pending_turn(conn, below, from, packet))
}

/// The turn where nothing is pending.
fn idle_turn(conn: ConnId, from: FromBelow) -> Option<Turn>
    ensures turn { result ≡ idle_turn (streaming conn 0) from }
    ensures answers { IfSome result IsAnswer }
{
    match from {
        FromBelow::Bad { seqno } => Some(bad_turn(conn, seqno)),
        FromBelow::Ack(_) | FromBelow::Ready | FromBelow::Ended => None,
    }
}

/// The turn at the oldest pending packet.
fn pending_turn(conn: ConnId, below: u64, from: FromBelow, packet: PendingPacket) -> Turn
    requires few { below ≤ MAX_BELOW }
    requires listed { IsListed from }
    ensures turn { result ≡ pending_turn (streaming conn below) from packet }
    ensures answers { IsAnswer result }
{
    match from {
        FromBelow::Ack(ack) => ack_turn(conn, below, packet, &ack),
        FromBelow::Ready => good_turn(conn, packet, own(Status::Success)),
        FromBelow::Ended => give_up_turn(conn, packet),
        FromBelow::Bad { seqno } => bad_turn(conn, seqno),
    }
}

/// The turn at an ack from the mirror.
fn ack_turn(conn: ConnId, below: u64, packet: PendingPacket, ack: &Ack) -> Turn
    requires few { below ≤ MAX_BELOW }
    requires listed { All IsStatus ack.now.replies }
    ensures turn { result ≡ ack_turn (streaming conn below) packet (from_mirror.Ack ack.now) }
    ensures answers { IsAnswer result }
{
    if is_read(below, packet.seqno, ack) {
        pass_turn(conn, packet, &ack.replies)
    } else {
        give_up_turn(conn, packet)
    }
}

/// The turn at an ack from the mirror that was read.
fn pass_turn(conn: ConnId, packet: PendingPacket, replies: &Replies) -> Turn
    requires few { length replies.now ≤ MAX_BELOW }
    requires listed { All IsStatus replies.now }
    ensures turn { result ≡ pass_turn (streaming conn 0) packet replies.now }
    ensures answers { IsAnswer result }
{
    if failures(replies) == 0 {
        return good_turn(conn, packet, with_own(replies));
    }
    if begins_with_bad_sum(replies) {
        return ended_turn(conn, None);
    }
    ack_turn_of(conn, packet, false, Mirror::Open, with_own(replies), false)
}

/// The ack of a packet is booked as good, and these replies go up; after the last packet's both connections are shut.
fn good_turn(conn: ConnId, packet: PendingPacket, replies: Replies) -> Turn
    requires { All IsStatus replies }
    ensures turn { result ≡ good_turn (streaming conn 0) packet replies }
    ensures answers { IsAnswer result }
{
    ack_turn_of(conn, packet, true, Mirror::Open, replies, packet.last)
}

/// The mirror is given up: its packet is answered with an error of the mirror, and both connections are shut.
fn give_up_turn(conn: ConnId, packet: PendingPacket) -> Turn
    ensures turn { result ≡ give_up_turn (streaming conn 0) packet }
    ensures answers { IsAnswer result }
{
    let mut replies = own(Status::Success);
    replies.push(Status::Error);
    ack_turn_of(conn, packet, false, Mirror::Ended, replies, true)
}

/// The packet with the wrong sum is told of, the end booked, and both connections are shut.
fn bad_turn(conn: ConnId, seqno: i64) -> Turn
    ensures turn { result ≡ bad_turn (streaming conn 0) seqno }
    ensures answers { IsAnswer result }
{
    let replies = own(Status::ErrorChecksum);
    ended_turn(conn, Some(Upward::Ack(Ack { seqno, replies })))
}

/// A turn that books the ack of a packet, and sends these replies up.
fn ack_turn_of(
    conn: ConnId,
    packet: PendingPacket,
    good: bool,
    mirror: Mirror,
    replies: Replies,
    is_over: bool,
) -> Turn
    requires { All IsStatus replies }
    ensures turn { result ≡ turn_of Side.Responder
        (Some (ReplicaEvent.Other (Event.Ack conn packet.seqno good))) mirror
        (sending (Upward.Ack (ack_of packet.seqno replies)) is_over) }
    ensures answers { IsAnswer result }
{
    let seqno = packet.seqno;
    Turn {
        side: Side::Responder,
        call: Some(ReplicaEvent::Other(Event::Ack { conn, seqno, good })),
        mirror,
        effect: Effect {
            forwards: false,
            sends: Some(Upward::Ack(Ack { seqno, replies })),
            shuts: if is_over { Shuts::Both } else { Shuts::Nothing },
        },
    }
}

/// A turn that books the end of the connection, after which both connections are shut.
fn ended_turn(conn: ConnId, sends: Option<Upward>) -> Turn
    requires { MaySend sends }
    ensures turn { result ≡ turn_of Side.Responder
        (Some (ReplicaEvent.Other (Event.Ended conn))) Mirror.Open
        (record shut_both { sends = sends }) }
    ensures answers { IsAnswer result }
{
    Turn {
        side: Side::Responder,
        call: Some(ReplicaEvent::Other(Event::Ended { conn })),
        mirror: Mirror::Open,
        effect: Effect {
            forwards: false,
            sends,
            shuts: Shuts::Both,
        },
    }
}

/// This reply alone.
fn own(status: Status) -> Replies
    ensures { result ≡ status ∷ [] }
{
    let mut replies = Replies::empty();
    replies.push(status);
    replies
}
