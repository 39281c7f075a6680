//! What a writer's own step is.

ghost use Rattle.std.specs.Prelude.{◌≡◌};
ghost use Rattle.play_clients.specs.Courses.{course_of, course_in};

use writer_core::{Phase, Setup, Writer};

/// What a writer's own step is.
#[derive(Clone, Copy, Debug, PartialEq, Eq)]
pub enum Course {
    /// It takes a command.
    Takes,
    /// It asks the office for a stamp, and then the first member.
    SetsUp,
    /// It has the office commit a stamp.
    Commits,
    /// It has the office complete the block.
    Completes,
    /// It does something alone.
    Acts,
}

/// What the own step of a writer is.
pub(crate) fn course_of(writer: &Writer) -> Course
    ensures { result ≡ course_of writer.now }
{
    if writer.has_step() {
        course_in(writer.phase())
    } else {
        Course::Takes
    }
}

/// What the step is that a writer takes at this point of its work.
fn course_in(phase: Phase) -> Course
    ensures { result ≡ course_in phase }
{
    match phase {
        Phase::Wanted { .. } => Course::SetsUp,
        Phase::Accepted { setup, .. } => match setup {
            Setup::Create => Course::Acts,
            _ => Course::Commits,
        },
        Phase::Finished => Course::Completes,
        _ => Course::Acts,
    }
}
