//! The text of a storm's summary.

ghost use Rattle.std.specs.Prelude.{◌≡◌, ◌++◌, IfOk, OnOk};
ghost use Rattle.storm_summary.specs.Summaries.{numbered, summary_text};

use crate::summaries::Summary;
use itoa::Buffer;
use std::alloc::{AllocError, Global};

/// The bytes that a summary mostly has at most.
const USUAL_SIZE: usize = 160;

/// The text of the summary of the storm with this number: a line each, and `end`.
pub fn print_summary(alloc: Global, storm: u64, summary: &Summary) -> Result<Vec<u8>, AllocError>
    ensures { IfOk result (λ text. text.items ≡ summary_text storm summary.now) }
{
    let mut text = Vec::with_capacity(alloc, USUAL_SIZE)?;
    push_line(&mut text, b"storm", u128::from(storm))?;
    push_line(&mut text, b"finalized", summary.finalized as u128)?;
    push_line(&mut text, b"rbw", summary.rbw as u128)?;
    push_line(&mut text, b"rwr", summary.rwr as u128)?;
    push_line(&mut text, b"rur", summary.rur as u128)?;
    push_line(&mut text, b"broken", summary.broken as u128)?;
    push_line(&mut text, b"bytes", summary.bytes)?;
    push_line(&mut text, b"ok", summary.ok as u128)?;
    push_line(&mut text, b"failed", summary.failed as u128)?;
    push_line(&mut text, b"recovered", summary.recovered as u128)?;
    text.extend_from_slice(b"end\n")?;
    Ok(text)
}

/// Appends a line: a word, a space and a number.
fn push_line(out: &mut Vec<u8>, word: &[u8], number: u128) -> Result<(), AllocError>
    ensures { OnOk result (out.new.items ≡ out.old.items ++ numbered word.now number) }
{
    let mut buffer = Buffer::new();
    out.extend_from_slice(word)?;
    out.push(b' ')?;
    out.extend_from_slice(buffer.format(number).as_bytes())?;
    out.push(b'\n')?;
    Ok(())
}
