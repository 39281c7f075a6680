//! Scripts, read line by line.

ghost use Rattle.std.specs.Prelude.{◌≡◌, ◌+◌, ◌≤◌, ◌∷◌, [], ℕ, List, bytes_eq, IfOk, IfErr, IfSome, OnOk, Some, Ok, Err};
ghost use Rattle.std.specs.List.{list_all};
ghost use Rattle.hd_base.specs.Results.{with_value, with_cause};
ghost use Rattle.script_lang.specs.Rules.{by_rules, Gives};
ghost use Rattle.script_lang.specs.Words.{is_plain, words_of, lines_of};
ghost use Rattle.script_lang.specs.declared.faults.BadKind.{BadKind};
ghost use Rattle.script_lang.specs.declared.instructions.ScriptLine.{ScriptLine};
ghost use Rattle.script_lang.specs.Grammar.{IsScript, IsBad, IsBadFor};
ghost use Rattle.script_lang.specs.Fits.{start, before_of, IsInRange};
ghost use Rattle.script_lang.specs.Scripts.{most_lines, line_rules, command_said, words_said, line_said, told, line_told, script_from, script_of, Reads};

use crate::faults::{BadKind, ScriptError, Stop};
use crate::instructions::{Instruction, Script, ScriptLine};
use crate::lines::{body, nodes, seed};
use crate::progress::{Head, Progress};
use crate::words::{next_word, split_line};
use std::alloc::Global;

/// The most bytes of a script.
pub const MAX_SCRIPT_SIZE: usize = 16_777_216;

/// The most lines of a script.
pub const MAX_SCRIPT_LINES: u64 = 65_536;

/// Reads a script for so many shelves, line by line. `Bad` names the first line that
/// breaks a rule, and the first rule that it breaks.
pub fn read_script(alloc: Global, bytes: &[u8], shelves: u64) -> Result<Script, ScriptError>
    ensures found { IfOk result (IsScript shelves bytes.now) }
    ensures only { (lines : List ScriptLine) → IsScript shelves bytes.now lines → Reads result (Ok lines) }
    ensures bad { IfErr result (IsBadFor shelves bytes.now) }
    ensures refused { (n : ℕ) (kind : BadKind) → IsBad shelves bytes.now n kind → Reads result (Err (n, kind)) }
{
    read_text(alloc, bytes, shelves)
}

/// Reads the lines of a text that isn't too long.
#[tactic(auto, unfolding(crate::specs::Scripts::script_of))]
fn read_text(alloc: Global, bytes: &[u8], shelves: u64) -> Result<Script, ScriptError>
    ensures { Reads result (script_of shelves bytes.now) }
{
    if bytes.len() > MAX_SCRIPT_SIZE {
        return Err(ScriptError::Bad {
            line: 0,
            kind: BadKind::TooLong,
        });
    }
    read_lines(alloc, shelves, bytes)
}

/// Reads the lines of a text, and the head among them.
fn read_lines(alloc: Global, shelves: u64, text: &[u8]) -> Result<Script, ScriptError>
    ensures { Reads result (script_from shelves 1 start [] (lines_of text.now)) }
{
    let mut reader = Reader::new(alloc, shelves);
    let mut rest = text;
    'lines: while !rest.is_empty() {
        let (line, behind) = split_line(rest);
        reader.take(alloc, line)?;
        rest = behind;
    }
    reader.finished()
}

/// The lines that were read so far.
#[derive(Drop)]
struct Reader {
    shelves: u64,
    /// The number of the next line.
    number: u64,
    progress: Progress,
    lines: Vec<ScriptLine>,
}

impl Reader {
    ghost use Rattle.script_lang.specs.Readers.{kept_by, next_told, told_at, command_of, script_behind};

    /// Before the first line.
    fn new(alloc: Global, shelves: u64) -> Reader
        ensures shelves { result.shelves ≡ shelves }
        ensures number { result.number ≡ 1 }
        ensures before { before_of result.progress ≡ start }
        ensures lines { result.lines.items ≡ [] }
    {
        Reader {
            shelves,
            number: 1,
            progress: Progress::new(alloc),
            lines: Vec::new(alloc),
        }
    }

    /// Takes the next line.
    fn take(&mut self, alloc: Global, line: &[u8]) -> Result<(), ScriptError>
        ensures told { Reads (with_value (λ _. kept_by self.new) result) (told_at self.old line.now) }
        ensures number { OnOk result (self.new.number ≡ self.old.number + 1) }
        ensures shelves { self.new.shelves ≡ self.old.shelves }
    {
        let line_number = self.number;
        match self.take_line(alloc, line) {
            Ok(()) => Ok(()),
            Err(Stop::Bad(kind)) => Err(ScriptError::Bad {
                line: line_number,
                kind,
            }),
            Err(Stop::Memory) => Err(ScriptError::Memory),
        }
    }

    /// Takes the next line, or says which rule it breaks.
    #[tactic(auto, unfolding(crate::specs::Scripts::line_told))]
    fn take_line(&mut self, alloc: Global, line: &[u8]) -> Result<(), Stop>
        ensures told { Gives (with_value (λ _. kept_by self.new) result) (next_told self.old line.now) }
        ensures number { OnOk result (self.new.number ≡ self.old.number + 1) }
        ensures shelves { self.new.shelves ≡ self.old.shelves }
    {
        if let Some(instruction) = self.said(alloc, line)? {
            self.keep(instruction)?;
        }
        self.number += 1;
        Ok(())
    }

    /// Keeps what the next line says, which must fit those before it.
    fn keep(&mut self, instruction: Instruction) -> Result<(), Stop>
        requires { IsInRange instruction }
        ensures told { Gives (with_value (λ _. kept_by self.new) result)
            (told self.old.number (before_of self.old.progress) self.old.lines.items (Some instruction)) }
        ensures number { self.new.number ≡ self.old.number }
        ensures shelves { self.new.shelves ≡ self.old.shelves }
    {
        self.progress.take(&instruction)?;
        self.lines.push(ScriptLine {
            number: self.number,
            instruction,
        })?;
        Ok(())
    }

    /// What the next line says by itself, if anything.
    fn said(&self, alloc: Global, line: &[u8]) -> Result<Option<Instruction>, Stop>
        ensures said { Gives result
            (line_said self.now.shelves self.now.number (before_of self.now.progress) line.now) }
        ensures in_range { IfOk result (λ said. IfSome said IsInRange) }
        ensures few { OnOk result (self.now.number ≤ most_lines) }
    {
        self.check(line)?;
        self.words_said(alloc, line)
    }

    /// That the next line has the bytes of a line, and its number is in range.
    fn check(&self, line: &[u8]) -> Result<(), BadKind>
        ensures { result ≡ by_rules (line_rules self.now.number line.now) tt }
    {
        if !are_plain(line) {
            return Err(BadKind::Byte);
        }
        if self.number > MAX_SCRIPT_LINES {
            return Err(BadKind::Lines);
        }
        Ok(())
    }

    /// What the words of the next line say, if anything.
    #[tactic(auto, unfolding(crate::specs::Scripts::words_said))]
    fn words_said(&self, alloc: Global, line: &[u8]) -> Result<Option<Instruction>, Stop>
        ensures said { Gives result (words_said self.now.shelves (before_of self.now.progress) (words_of line.now)) }
        ensures in_range { IfOk result (λ said. IfSome said IsInRange) }
    {
        match next_word(line) {
            None | Some(([b'#', ..], _)) => Ok(None),
            Some((word, rest)) => Ok(Some(self.command(alloc, word, rest)?)),
        }
    }

    /// What a command line says, by its first word and what stands behind it.
    #[tactic(auto, unfolding(crate::specs::Scripts::command_said))]
    fn command(&self, alloc: Global, word: &[u8], rest: &[u8]) -> Result<Instruction, Stop>
        ensures said { Gives result (command_of self.now word.now (words_of rest.now)) }
        ensures in_range { IfOk result IsInRange }
    {
        match self.progress.head {
            Head::Nodes => {
                check_head(word, b"nodes")?;
                Ok(nodes(self.shelves, rest)?)
            }
            Head::Seed => {
                check_head(word, b"seed")?;
                Ok(seed(rest)?)
            }
            Head::Body => body(alloc, self.progress.nodes, word, rest),
        }
    }

    /// The script, where the head is there.
    #[tactic(auto, unfolding(crate::specs::Scripts::script_from))]
    fn finished(self) -> Result<Script, ScriptError>
        ensures { Reads result (script_behind self []) }
    {
        let Reader {
            number,
            progress,
            lines,
            ..
        } = self;
        match progress.head {
            Head::Body => Ok(Script::from_vec(lines)),
            Head::Nodes | Head::Seed => Err(ScriptError::Bad {
                line: number,
                kind: BadKind::Head,
            }),
        }
    }
}

/// That the first word of a line of the head is this one.
fn check_head(word: &[u8], name: &[u8]) -> Result<(), BadKind>
    ensures { result ≡ by_rules ((BadKind.Head, bytes_eq word.now name.now) ∷ []) tt }
{
    if word == name {
        Ok(())
    } else {
        Err(BadKind::Head)
    }
}

/// Whether a line has only bytes that it may have.
fn are_plain(line: &[u8]) -> bool
    ensures { result ≡ list_all is_plain line.now }
{
    line.iter().all(|byte| is_plain(*byte))
}

/// Whether a line may have this byte: printable ASCII or a tab.
fn is_plain(byte: u8) -> bool
    ensures { result ≡ is_plain byte }
{
    matches!(byte, b' '..=b'~' | b'\t')
}
