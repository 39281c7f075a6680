//! A member of a pipeline.

ghost use Rattle.std.specs.Prelude.{◌≡◌, ◌≤◌, [], ◌∷◌, length, Some};
ghost use Rattle.member_core.specs.Members.{
  MemberState,
  mirror_for,
  set_up,
  refused_setup,
  has_mirror,
  down_turn,
  fail_turn,
  named_bad,
  answered_turn,
  setup_turn,
  good_turn,
  give_up_turn,
  pass_turn,
  ack_turn,
  stream_turn,
  up_turn,
  bad_turn,
  turn_of,
  idle_turn,
  quiet_turn,
  ready_at,
  ready_turn_by,
  is_waiting,
  is_heard,
  takes_messages,
  hears,
  closed,
  done,
  shut_both,
  bad_sum,
  refused_turn,
  settled,
};

use crate::acks::{begins_with_bad_sum, failures, is_read, is_success, with_own};
use crate::effects::{Effect, SetupAnswer, Shuts, Upward};
use crate::inputs::{FromAbove, FromBelow};
use crate::requests::{MAX_BELOW, closes};
use crate::turns::{Booked, Side, Turn};
use ack_codec::{Ack, Replies, Response};
use hd_base::{ByteList, ConnId, Status};
use op_headers::WriteOp;
use replica_core::{Event, PendingPacket, Refusal, Replica};
use replica_model::ReplicaEvent;
use request_refusals::RequestRefusal;
use std::marker::Model;

/// What stands below a member.
#[derive(Clone, Copy, Debug, PartialEq, Eq)]
pub enum Mirror {
    /// Nobody: it is the last member of the pipeline.
    Nobody,
    /// A mirror that was sent the request, and whose answer is awaited.
    Asked,
    /// A mirror that could not be sent the request, so that no answer can be had.
    Unreachable,
    /// A mirror that has answered SUCCESS.
    Open,
    /// A mirror that counts as ended.
    Ended,
}

/// A member of a write pipeline past its request.
#[derive(Clone, Copy, Debug)]
pub struct Member {
    conn: ConnId,
    below: u64,
    closes: bool,
    mirror: Mirror,
    bad: Option<i64>,
    receives: bool,
    responds: bool,
}

impl Model for Member {
    ghost use Rattle.std.specs.Prelude.{◌≤◌};
    ghost use Rattle.member_core.specs.declared.requests.TheConstants.{MAX_BELOW};
    ghost use Rattle.member_core.specs.Members.{MemberState};

    ghost Value = { MemberState };

    ghost view = { λ m. record {
      conn = m.conn;
      below = m.below;
      closes = m.closes;
      mirror = m.mirror;
      bad = m.bad;
      receives = m.receives;
      responds = m.responds;
    } };

    ghost inverse = { λ m. record {
      conn = m.conn;
      below = m.below;
      closes = m.closes;
      mirror = m.mirror;
      bad = m.bad;
      receives = m.receives;
      responds = m.responds;
    } };

    ghost invariant = { λ m. m.below ≤ MAX_BELOW };
}

impl Member {
    /// A member whose request the replica took, by whether the request to its mirror could be sent and the dial was
    /// answered. The last member answers at once, any other once its mirror did.
    #[tactic(auto, unfolding(crate::specs::Members::set_up))]
    pub fn set_up(conn: ConnId, op: &WriteOp, asked: bool) -> (Member, Effect)
        requires { length op.now.targets ≤ MAX_BELOW }
        ensures { result ≡ set_up conn op.now asked }
    {
        let mirror = mirror_for(op.targets.len(), asked);
        let is_last = !has_mirror(mirror);
        let is_over = is_last && closes(op);
        let member = Member {
            conn,
            below: op.targets.len() as u64,
            closes: closes(op),
            mirror,
            bad: None,
            receives: !is_over,
            responds: !is_over,
        };
        let effect = if is_last {
            Effect::sending(Upward::Answer(SetupAnswer::Success), is_over)
        } else {
            Effect::nothing()
        };
        (member, effect)
    }

    /// What a member does that refuses its request: it says why, and shuts.
    pub fn refuse(refusal: RequestRefusal) -> Effect
        ensures { result ≡ refused_setup refusal }
    {
        Effect::sending(Upward::Answer(SetupAnswer::Refused(refusal)), true)
    }

    /// Whether a message from above may be taken: not while the answer to the request stands out, and not where the
    /// replica has no room for a pending packet.
    pub fn takes_messages(&self, replica: &Replica) -> bool
        ensures { result ≡ takes_messages self.now (length replica.now.pending) }
    {
        self.receives && !is_waiting(self.mirror) && !replica.is_full()
    }

    /// Whether the end from above may be taken.
    pub fn takes_end(&self) -> bool
        ensures { result ≡ self.now.receives }
    {
        self.receives
    }

    /// Whether a message from the mirror, or its end, may be taken.
    pub fn hears(&self) -> bool
        ensures { result ≡ hears self.now }
    {
        self.responds && is_heard(self.mirror)
    }

    /// Takes this from above.
    pub fn down(&self, taken: FromAbove) -> Turn
        ensures { result ≡ down_turn self.now taken }
    {
        let (call, effect) = match taken {
            FromAbove::Packet(packet) => (
                Some(ReplicaEvent::Packet {
                    conn: self.conn,
                    packet,
                }),
                Effect {
                    forwards: has_mirror(self.mirror),
                    sends: None,
                    shuts: Shuts::Nothing,
                },
            ),
            FromAbove::Unreadable => (None, Effect::shut_both()),
            FromAbove::End => (
                self.ended_call(),
                Effect {
                    forwards: false,
                    sends: None,
                    shuts: Shuts::Mirror,
                },
            ),
        };
        Turn {
            side: Side::Receiver,
            call,
            mirror: self.mirror,
            effect,
        }
    }

    /// Takes this from the mirror, where this is the oldest pending packet.
    pub fn up(&self, oldest: Option<PendingPacket>, taken: FromBelow) -> Turn
        ensures { result ≡ up_turn self.now oldest taken }
    {
        match self.mirror {
            Mirror::Asked => self.setup_turn(taken),
            Mirror::Open => self.stream_turn(oldest, &taken),
            Mirror::Nobody | Mirror::Unreachable | Mirror::Ended => {
                self.turn(None, self.mirror, Effect::nothing())
            }
        }
    }

    /// What the member does without a message from below, `None` where there is nothing.
    pub fn ready(&self, replica: &Replica) -> Option<Turn>
        ensures { result ≡ ready_turn_by self.now replica.now }
    {
        if !self.responds {
            return None;
        }
        let writes = replica
            .writer()
            .is_some_and(|writer| writer.0 == self.conn.0);
        self.ready_turn(replica.oldest(), writes)
    }

    /// What follows the book call of a turn, by how the book took it.
    pub fn settle(&mut self, turn: Turn, booked: Booked) -> Effect
        ensures member { self.new ≡ (settled self.old turn booked).0 }
        ensures effect { result ≡ (settled self.old turn booked).1 }
    {
        match booked {
            Booked::Taken => self.done(turn),
            Booked::Refused(refusal) => self.refused(turn, refusal),
            Booked::Failed => self.cut_off(turn.side),
        }
    }

    /// The turn is done.
    fn done(&mut self, turn: Turn) -> Effect
        ensures member { self.new ≡ (done self.old turn).0 }
        ensures effect { result ≡ (done self.old turn).1 }
    {
        self.mirror = turn.mirror;
        match turn.effect.shuts {
            Shuts::Nothing => {}
            Shuts::Mirror | Shuts::Both => self.close(turn.side),
        }
        turn.effect
    }

    /// The replica refused the turn's call.
    fn refused(&mut self, turn: Turn, refusal: Refusal) -> Effect
        ensures member { self.new ≡ (refused_turn self.old turn refusal).0 }
        ensures effect { result ≡ (refused_turn self.old turn refusal).1 }
    {
        match refusal {
            Refusal::BadSum { .. } => self.bad_sum(turn),
            _ => self.cut_off(turn.side),
        }
    }

    /// A packet with a wrong sum isn't sent on, and its seqno is kept.
    fn bad_sum(&mut self, turn: Turn) -> Effect
        ensures member { self.new ≡ (bad_sum self.old turn.call turn).0 }
        ensures effect { result ≡ (bad_sum self.old turn.call turn).1 }
    {
        let Turn { side, call, .. } = turn;
        match call {
            Some(ReplicaEvent::Packet { packet, .. }) => {
                self.bad = self.bad.or(Some(packet.seqno));
                Effect::nothing()
            }
            _ => self.cut_off(side),
        }
    }

    /// Both connections are shut, and nothing is sent.
    fn cut_off(&mut self, side: Side) -> Effect
        ensures member { self.new ≡ closed side self.old }
        ensures effect { result ≡ shut_both }
    {
        self.close(side);
        Effect::shut_both()
    }

    /// This side no longer acts.
    fn close(&mut self, side: Side)
        ensures { self.new ≡ closed side self.old }
    {
        match side {
            Side::Receiver => self.receives = false,
            Side::Responder => self.responds = false,
        }
    }

    /// The end of the connection is booked.
    fn ended_call(&self) -> Option<ReplicaEvent>
        ensures { result ≡ Some (ReplicaEvent.Other (Event.Ended self.now.conn)) }
    {
        Some(ReplicaEvent::Other(Event::Ended { conn: self.conn }))
    }

    /// A turn of the responder.
    fn turn(&self, call: Option<ReplicaEvent>, mirror: Mirror, effect: Effect) -> Turn
        ensures { result ≡ turn_of Side.Responder call mirror effect }
    {
        Turn {
            side: Side::Responder,
            call,
            mirror,
            effect,
        }
    }

    /// The setup has failed below.
    fn fail_turn(&self, answer: SetupAnswer) -> Turn
        ensures { result ≡ fail_turn self.now answer }
    {
        let effect = Effect::sending(Upward::Answer(answer), true);
        self.turn(self.ended_call(), Mirror::Ended, effect)
    }

    /// What comes from the mirror while its answer is awaited.
    fn setup_turn(&self, taken: FromBelow) -> Turn
        ensures { result ≡ setup_turn self.now taken }
    {
        match taken {
            FromBelow::Response(response) => self.answered_turn(response),
            FromBelow::Ack(_) | FromBelow::Unreadable | FromBelow::End => {
                self.fail_turn(SetupAnswer::Unreached)
            }
        }
    }

    /// The mirror's answer to the request.
    fn answered_turn(&self, response: Response) -> Turn
        ensures { result ≡ answered_turn self.now response }
    {
        if !is_success(response.status) {
            return self.fail_turn(named_bad(response.first_bad));
        }
        let effect = Effect::sending(Upward::Answer(SetupAnswer::Success), self.closes);
        self.turn(None, Mirror::Open, effect)
    }

    /// What comes from the mirror in the stream.
    fn stream_turn(&self, oldest: Option<PendingPacket>, taken: &FromBelow) -> Turn
        ensures { result ≡ stream_turn self.now oldest taken.now }
    {
        let Some(packet) = oldest else {
            return self.turn(None, Mirror::Ended, Effect::nothing());
        };
        match taken {
            FromBelow::Ack(ack) => self.ack_turn(packet, ack),
            FromBelow::Response(_) | FromBelow::Unreadable | FromBelow::End => {
                self.give_up_turn(packet)
            }
        }
    }

    /// An ack from the mirror.
    fn ack_turn(&self, packet: PendingPacket, ack: &Ack) -> Turn
        ensures { result ≡ ack_turn self.now packet (FromBelow.Ack ack.now) }
    {
        if is_read(self.below, packet.seqno, ack) {
            self.pass_turn(packet, &ack.replies)
        } else {
            self.give_up_turn(packet)
        }
    }

    /// An ack from the mirror that was read.
    fn pass_turn(&self, packet: PendingPacket, replies: &Replies) -> Turn
        requires { length replies.now ≤ MAX_BELOW }
        ensures { result ≡ pass_turn self.now packet replies.now }
    {
        if failures(replies) == 0 {
            return self.good_turn(packet, with_own(replies));
        }
        if begins_with_bad_sum(replies) {
            return self.turn(self.ended_call(), self.mirror, Effect::shut_both());
        }
        let effect = Effect::sending(ack_up(packet, with_own(replies)), false);
        self.turn(self.ack_call(packet, false), self.mirror, effect)
    }

    /// The ack of a packet is booked.
    fn ack_call(&self, packet: PendingPacket, good: bool) -> Option<ReplicaEvent>
        ensures { result ≡ Some (ReplicaEvent.Other (Event.Ack self.now.conn packet.seqno good)) }
    {
        Some(ReplicaEvent::Other(Event::Ack {
            conn: self.conn,
            seqno: packet.seqno,
            good,
        }))
    }

    /// The ack of a packet is booked as good, and these replies go up.
    fn good_turn(&self, packet: PendingPacket, replies: Replies) -> Turn
        ensures { result ≡ good_turn self.now packet replies }
    {
        let effect = Effect::sending(ack_up(packet, replies), packet.last);
        self.turn(self.ack_call(packet, true), self.mirror, effect)
    }

    /// The mirror is given up.
    fn give_up_turn(&self, packet: PendingPacket) -> Turn
        ensures { result ≡ give_up_turn self.now packet }
    {
        let mut replies = Replies::empty();
        replies.push(Status::Success);
        replies.push(Status::Error);
        let effect = Effect::sending(ack_up(packet, replies), true);
        self.turn(self.ack_call(packet, false), Mirror::Ended, effect)
    }

    /// What the member does by itself, by its mirror.
    fn ready_turn(&self, oldest: Option<PendingPacket>, writes: bool) -> Option<Turn>
        ensures { result ≡ ready_at self.now.mirror self.now oldest writes }
    {
        match (self.mirror, oldest) {
            (Mirror::Asked, _) | (Mirror::Open, Some(_)) => None,
            (Mirror::Unreachable, _) => Some(self.fail_turn(SetupAnswer::Unreached)),
            (Mirror::Nobody, Some(packet)) => Some(self.good_turn(packet, own(Status::Success))),
            (Mirror::Ended, Some(packet)) => Some(self.give_up_turn(packet)),
            (Mirror::Open, None) => self.bad.map(|seqno| self.bad_turn(seqno)),
            (Mirror::Nobody | Mirror::Ended, None) => self.quiet_turn(writes),
        }
    }

    /// Nothing is pending, and no mirror can answer.
    fn quiet_turn(&self, writes: bool) -> Option<Turn>
        ensures { result ≡ quiet_turn self.now self.now.bad writes }
    {
        match self.bad {
            Some(seqno) => Some(self.bad_turn(seqno)),
            None if writes => None,
            None => Some(self.turn(None, self.mirror, Effect::shut_both())),
        }
    }

    /// The packet with a wrong sum is told of.
    fn bad_turn(&self, seqno: i64) -> Turn
        ensures { result ≡ bad_turn self.now seqno }
    {
        let replies = own(Status::ErrorChecksum);
        let effect = Effect::sending(Upward::Ack(Ack { seqno, replies }), true);
        self.turn(self.ended_call(), self.mirror, effect)
    }
}

/// What stands below a member with so many below.
fn mirror_for(below: usize, asked: bool) -> Mirror
    ensures { result ≡ mirror_for below asked }
{
    match (below, asked) {
        (0, _) => Mirror::Nobody,
        (_, true) => Mirror::Asked,
        (_, false) => Mirror::Unreachable,
    }
}

/// Whether there is a mirror.
fn has_mirror(mirror: Mirror) -> bool
    ensures { result ≡ has_mirror mirror }
{
    !matches!(mirror, Mirror::Nobody)
}

/// Whether the answer to the request stands out.
fn is_waiting(mirror: Mirror) -> bool
    ensures { result ≡ is_waiting mirror }
{
    matches!(mirror, Mirror::Asked | Mirror::Unreachable)
}

/// Whether the mirror may still say something.
fn is_heard(mirror: Mirror) -> bool
    ensures { result ≡ is_heard mirror }
{
    matches!(mirror, Mirror::Asked | Mirror::Open)
}

/// The first bad member that the mirror named, else the mirror itself.
fn named_bad(first_bad: ByteList) -> SetupAnswer
    ensures { result ≡ named_bad first_bad }
{
    if first_bad.is_empty() {
        SetupAnswer::Unreached
    } else {
        SetupAnswer::Below { first_bad }
    }
}

/// This reply alone.
fn own(status: Status) -> Replies
    ensures { result ≡ status ∷ [] }
{
    let mut replies = Replies::empty();
    replies.push(status);
    replies
}

/// The ack of a packet.
fn ack_up(packet: PendingPacket, replies: Replies) -> Upward
    ensures { result ≡ Upward.Ack (record { seqno = packet.seqno; replies = replies }) }
{
    Upward::Ack(Ack {
        seqno: packet.seqno,
        replies,
    })
}
