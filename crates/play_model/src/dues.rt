//! What may happen next in a play.

use crate::asks::ReadAsk;
use crate::recoveries::Recovery;
use hd_base::{BlockId, ConnId};

/// What may happen next in a play: one event, or the several that one rule of a writer or a primary makes.
#[derive(Drop)]
pub enum Due {
    /// The writer of a block takes its own step: all actions of one rule, with the calls that bring their results back.
    Own { block: BlockId },
    /// A reader that hasn't begun takes its own step: it asks its node.
    Reader { ask: ReadAsk },
    /// A primary takes its own step: it begins, sends each UPDATE, or ends the recovery, with the question to the office.
    Primary { recovery: Recovery },
    /// The lower end of a connection takes what stands next.
    Down { conn: ConnId },
    /// The lower end of a connection acts without a message.
    Ready { conn: ConnId },
    /// The upper end of a connection takes what stands next.
    Up { conn: ConnId },
}
