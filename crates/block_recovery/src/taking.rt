//! A request of a block recovery, taken at a member.

ghost use Rattle.std.specs.Prelude.{◌≡◌};
ghost use Rattle.block_recovery.specs.Taking.{came_of, is_over, ShutsIf, TakesRequest};

use hd_base::{Conn, LinkIn, LinkOut};
use link_messages::{Incoming, Next};
use op_headers::{Op, RecoveryOp};

/// What came next at a member on a connection of a block recovery.
#[derive(Debug, Drop)]
pub enum RecoveryCame {
    /// This request.
    Asked(RecoveryOp),
    /// The end, or what is no request of a recovery. The connection is shut.
    Over,
    /// Nothing yet.
    NotYet,
    /// The link failed, and its count of faults rose. The connection is shut.
    LinkFailed,
    /// Memory ran out. What was received is kept, and comes next time.
    Memory,
}

/// Takes what comes next at a member on a connection of a block recovery: its requests come one after the other, each
/// answered before the next is taken, until the primary shuts.
pub fn next_recovery<I: LinkIn, O: LinkOut>(
    incoming: &mut Incoming,
    end: &mut Conn<I, O>,
) -> RecoveryCame
    ensures { TakesRequest I.LinkIn O.LinkOut incoming.old incoming.new end.old end.new result }
{
    let came = came_of(incoming.next::<Op, I>(&mut end.inward));
    shut_if(is_over(&came), &mut end.outward);
    came
}

/// What comes next, by what the link gave.
fn came_of(next: Next<Op>) -> RecoveryCame
    ensures { result ≡ came_of next }
{
    match next {
        Next::Message(Op::Recovery(op)) => RecoveryCame::Asked(op),
        Next::Message(_) | Next::Unreadable | Next::End => RecoveryCame::Over,
        Next::NotYet => RecoveryCame::NotYet,
        Next::Failed => RecoveryCame::LinkFailed,
        Next::Memory => RecoveryCame::Memory,
    }
}

/// Whether the connection is shut.
fn is_over(came: &RecoveryCame) -> bool
    ensures { result ≡ is_over came.now }
{
    matches!(came, RecoveryCame::Over | RecoveryCame::LinkFailed)
}

/// Shuts a half, or not.
fn shut_if<O: LinkOut>(shuts: bool, outward: &mut O)
    ensures { ShutsIf O.LinkOut shuts outward.old outward.new }
{
    if shuts {
        outward.shut();
    }
}
