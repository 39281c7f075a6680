//! The script is read from its source.

ghost use Rattle.std.specs.Prelude.{◌+◌, ◌≤◌, IfOk, IfErr, IfSome};
ghost use Rattle.dn_run.specs.Reading.{HasRead, IsReadExit, Accepts, Refuses, script_limit};
ghost use Rattle.whole_streams.specs.Streams.{TookSome};

use crate::exits::Exit;
use hd_base::Source;
use script_lang::{BadKind, MAX_SCRIPT_SIZE, Script, read_script};
use std::alloc::Global;
use told_shelves::ToldShelf;
use whole_play::first_unplayed;
use whole_streams::read_to_end;

/// Reads a source to its end, and the script in it for so many shelves of this kind. A line that plays don't have over
/// them is one with an unknown word.
pub(crate) fn read_lines<I: Source, S: ToldShelf>(
    alloc: Global,
    source: &mut I,
    shelves: usize,
) -> Result<Script, Exit>
    ensures found { IfOk result (HasRead S.told (I.left source.old) (I.left source.new) shelves) }
    ensures cause { IfErr result (IsReadExit S.told (I.left source.old)
        (I.faults source.old) (I.faults source.new) shelves) }
    ensures accepted { IfSome (I.left source.old) (λ text. Accepts S.told shelves text result) }
    ensures refused { IfSome (I.left source.old) (λ text. Refuses S.told shelves text result) }
    ensures taken { TookSome (I.left source.old) (I.left source.new) (script_limit + 1) }
    ensures never_falls { I.faults source.old ≤ I.faults source.new }
{
    let text = read_to_end(alloc, source, MAX_SCRIPT_SIZE)?;
    let script = read_script(alloc, &text, shelves as u64)?;
    match first_unplayed(S::tells(), script.as_slice()) {
        Some(line) => Err(Exit::BadScript {
            line,
            kind: BadKind::Word,
        }),
        None => Ok(script),
    }
}
