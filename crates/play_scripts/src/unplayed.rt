//! The lines that plays have only over shelves that tell their files.

ghost use Rattle.std.specs.Prelude.{◌≡◌, ◌↔◌, IsNone};
ghost use Rattle.play_scripts.specs.Unplayed.{is_unplayed, first_unplayed, ArePlayed};

use script_lang::{Instruction, ScriptLine};

/// The number of the first line that plays don't have over these shelves: a start, a read or a fault, where the shelves
/// don't tell their files.
pub fn first_unplayed(told: bool, lines: &[ScriptLine]) -> Option<u64>
    ensures first { result ≡ first_unplayed told lines.now }
    ensures none { IsNone result ↔ ArePlayed told lines.now }
{
    let line = lines
        .iter()
        .find(|line| is_unplayed(told, &line.instruction))?;
    Some(line.number)
}

/// Whether plays don't have a line that says this.
fn is_unplayed(told: bool, instruction: &Instruction) -> bool
    ensures { result ≡ is_unplayed told instruction.now }
{
    match instruction {
        Instruction::Start { .. } | Instruction::Read { .. } | Instruction::Fault { .. } => !told,
        _ => false,
    }
}
