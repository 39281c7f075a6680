//! What a call asks for.

ghost use Rattle.std.specs.Prelude.{map};
ghost use Rattle.std.specs.String.{string_bytes};
ghost use Rattle.dn_run.specs.Tasks.{task_of, ReadsTask};

use crate::exits::Exit;
use run_words::{Mode, UsageRule, read_words};
use std::alloc::Global;

/// What a call asks for.
#[derive(Clone, Copy, Debug, PartialEq, Eq)]
pub(crate) enum Task {
    /// To play the script that the source gives.
    Play,
    /// To play the storm of this number.
    Storm { number: u64 },
}

/// Reads the words. They can't ask for a live run so far.
pub(crate) fn read_task(alloc: Global, words: &[String]) -> Result<Task, Exit>
    ensures { ReadsTask (task_of (map string_bytes words.now)) result }
{
    let said = read_words(alloc, words)?;
    let refused = |rule| Err(Exit::Usage { rule });
    match (said.mode, said.number) {
        (Mode::Play, _) => Ok(Task::Play),
        (Mode::Storm, Some(number)) => Ok(Task::Storm { number }),
        (Mode::Storm, None) => refused(UsageRule::Number),
        (Mode::Live, _) => refused(UsageRule::Mode),
    }
}
