//! The head of a script.

ghost use Rattle.std.specs.Prelude.{◌≡◌};
ghost use Rattle.play_scripts.specs.Heads.{head_of};

use script_lang::{Instruction, ScriptLine};

/// What the first two lines of a script say.
#[derive(Clone, Copy, Debug, PartialEq, Eq)]
pub struct Head {
    /// How many nodes there are.
    pub nodes: u32,
    /// Where the drawing of events begins.
    pub seed: u64,
}

/// The head of a script; none where the first two lines aren't `nodes` and `seed`.
pub fn head_of(lines: &[ScriptLine]) -> Option<Head>
    ensures { result ≡ head_of lines.now }
{
    let (first, behind) = lines.split_first()?;
    let (second, _) = behind.split_first()?;
    match (&first.instruction, &second.instruction) {
        (Instruction::Nodes { count }, Instruction::Seed { seed }) => Some(Head {
            nodes: *count,
            seed: *seed,
        }),
        _ => None,
    }
}
