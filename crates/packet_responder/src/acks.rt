//! Taking an ack.

ghost use Rattle.std.specs.Prelude.{◌≤◌, slice_get};
ghost use Rattle.packet_responder.specs.Acks.{IsDue, IsListed, TakesAck, streaming, turn_at};

use crate::answers::turn_at;
use crate::turns::{Passed, take_turn};
use hd_base::{ConnId, Files, LinkOut};
use member_core::{Ack, MAX_BELOW};
use replica_files::ReplicaBook;
use std::alloc::Global;

/// What a member is given for its pending packets.
#[derive(Debug, Drop)]
pub enum FromBelow {
    /// An ack from its mirror.
    Ack(Ack),
    /// It has no mirror, so that its oldest packet is due.
    Ready,
    /// Its mirror has ended, or said what is no ack.
    Ended,
    /// Nothing is pending, and a packet with a wrong sum came before.
    Bad { seqno: i64 },
}

/// Takes what comes from below at a member of this connection with so many members below it: books what it says of the
/// oldest pending packet, and then sends the ack up. An ack counts as read where it is of that packet and has a reply of
/// each member below, or fewer of which one isn't SUCCESS, but at least one; where it isn't read the mirror counts as
/// ended. Both are the turns of the member's rules. The caller shuts the connections where the answer says so.
pub fn take_ack<F: Files, O: LinkOut>(
    alloc: Global,
    book: &mut ReplicaBook<F>,
    conn: ConnId,
    below: u64,
    from: FromBelow,
    upstream: &mut O,
) -> Passed
    requires few { below ≤ MAX_BELOW }
    requires listed { IsListed from }
    requires due { IsDue below (slice_get book.old.replica.pending 0) from }
    ensures { TakesAck F.Files O.LinkOut (turn_at (streaming conn below) from (slice_get book.old.replica.pending 0))
        book.old book.new upstream.old upstream.new result }
{
    let oldest = book.replica().oldest();
    let Some(turn) = turn_at(conn, below, from, oldest) else {
        return Passed::Idle {
            seen: book.entries(),
        };
    };
    take_turn(alloc, book, &turn, upstream)
}
