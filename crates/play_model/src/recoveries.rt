//! What a line of a script asks to recover.

ghost use Rattle.std.specs.Prelude.{◌≡◌};

use hd_base::{BlockId, Members, NodeId};

/// What a line of a script asks to recover.
#[derive(Drop)]
pub struct Recovery {
    /// The primary's number: the line's.
    pub primary: u64,
    /// The node that leads.
    pub node: NodeId,
    /// The block.
    pub block: BlockId,
    /// The members that are asked, in the line's order.
    pub members: Members,
    /// Whether the primary may begin: its node ran at the line, and hasn't stopped since.
    pub may_begin: bool,
}

impl Recovery {
    /// The same once more. Takes no memory.
    pub fn duplicate(&self) -> Recovery
        ensures { result ≡ self.now }
    {
        Recovery {
            primary: self.primary,
            node: self.node,
            block: self.block,
            members: self.members.duplicate(),
            may_begin: self.may_begin,
        }
    }
}
