//! How an action of a step ended.

ghost use Rattle.std.specs.Prelude.{◌≡◌};
ghost use Rattle.pipe_recovery.specs.Acting.{is_memory, acted_by, MovesOn};
ghost use Rattle.writer_core.specs.Transitions.{own_step};

use writer_core::{Action, Writer};

/// How an action of a step ended.
#[derive(Clone, Copy, Debug, PartialEq, Eq)]
pub enum Acted {
    /// It was done.
    Moved,
    /// None is enabled.
    Idle,
    /// Memory ran out. What was done before is kept.
    Memory,
}

impl Acted {
    /// Whether memory ran out.
    pub(crate) fn is_memory(self) -> bool
        ensures { result ≡ is_memory self }
    {
        matches!(self, Acted::Memory)
    }
}

/// The writer's own step where it asks nothing: it takes a command, or does nothing.
pub(crate) fn move_on(writer: &mut Writer) -> Acted
    ensures { MovesOn (own_step writer.old) writer.old writer.new result }
{
    acted_by(&writer.next())
}

/// How the writer's own step ended where it asks nothing.
fn acted_by(action: &Action) -> Acted
    ensures { result ≡ acted_by action.now }
{
    match action {
        Action::Memory => Acted::Memory,
        Action::Wait => Acted::Idle,
        _ => Acted::Moved,
    }
}
