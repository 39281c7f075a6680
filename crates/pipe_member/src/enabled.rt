//! Which events of a member are enabled.

ghost use Rattle.std.specs.Prelude.{◌≡◌, length};
ghost use Rattle.pipe_member.specs.Enabled.{takes_at, acts_at, hears_at};

use crate::member::Member;
use crate::stages::Stage;
use hd_base::{LinkIn, LinkOut, Standing};
use replica_core::Replica;

impl<I: LinkIn, O: LinkOut> Member<I, O> {
    /// Whether the member, with this replica, takes what stands next from above where it has taken all that came before: a
    /// message where it takes messages, and the end where it still takes from above.
    pub fn takes(&self, replica: &Replica, next: Standing) -> bool
        ensures { result ≡ takes_at self.now.stage (length replica.now.pending) next }
    {
        let Stage::Open(core) = &self.stage else {
            return false;
        };
        match next {
            Standing::Piece => core.takes_messages(replica),
            Standing::End => core.takes_end(),
            Standing::Nothing => false,
        }
    }

    /// Whether the member, with this replica, has something to do without a message.
    pub fn acts(&self, replica: &Replica) -> bool
        ensures { result ≡ acts_at self.now.stage replica.now }
    {
        match &self.stage {
            Stage::Open(core) => core.ready(replica).is_some(),
            _ => false,
        }
    }

    /// Whether the member takes what stands next from its mirror.
    pub fn hears(&self) -> bool
        ensures { result ≡ hears_at self.now.stage }
    {
        match &self.stage {
            Stage::Open(core) => core.hears(),
            _ => false,
        }
    }
}
