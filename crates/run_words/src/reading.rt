//! What the words of a call say.

ghost use Rattle.std.specs.Prelude.{◌≡◌, Some, None, IfOk, map, option_copied, codes, if◌then◌else◌};
ghost use Rattle.std.specs.String.{string_bytes};
ghost use Rattle.script_lang.specs.Numbers.{is_number, value_of};
ghost use Rattle.clap.specs.Words.{found_of, rows_of};
ghost use Rattle.run_words.specs.Commands.{is_said, source_of};
ghost use Rattle.run_words.specs.Calls.{Reads, words_of, arguments_say, mode_said, number_said, loopback_said};

use crate::call::{FolderText, Mode, Words};
use crate::command::{FOLDER, LOOPBACK, MODE, NUMBER, parse};
use crate::faults::{UsageRule, WordsFault};
use clap::ArgMatches;
use clap::parser::ValueSource;
use std::alloc::{AllocError, Global};

/// What the words of the program's call say, without the program's name: `play`, `live`, with or without `--loopback`, or
/// `storm` with a number, and each of them with or without a folder. Words that break a rule are refused by the first one,
/// in the order of `UsageRule`.
pub fn read_words(alloc: Global, words: &[String]) -> Result<Words, WordsFault>
    ensures { Reads result (words_of (map string_bytes words.now)) }
{
    let matches = parse(alloc, words)?;
    let mode = matches.get_str(MODE);
    let number = matches.get_str(NUMBER);
    let folder = matches.get_str(FOLDER);
    arguments(alloc, mode, number, folder, has_loopback(&matches))
}

/// Whether the words have the flag.
fn has_loopback(matches: &ArgMatches<'_>) -> bool
    ensures { result ≡ is_said (source_of (codes "loopback") (rows_of (found_of matches.now))) }
{
    is_said(matches.value_source(LOOPBACK))
}

/// Whether a value stands in the words.
fn is_said(source: Option<ValueSource>) -> bool
    ensures { result ≡ is_said source }
{
    matches!(source, Some(ValueSource::CommandLine))
}

/// What the words for the mode, the number and the folder say, and the flag.
fn arguments(
    alloc: Global,
    mode: Option<&str>,
    number: Option<&str>,
    folder: Option<&str>,
    loopback: bool,
) -> Result<Words, WordsFault>
    ensures { Reads result (arguments_say
        (option_copied mode.entry) (option_copied number.entry) (option_copied folder.entry) loopback) }
{
    let mode = read_mode(mode)?;
    let number = read_number(mode, number)?;
    check_loopback(mode, loopback)?;
    let folder = read_folder(alloc, folder)?;
    Ok(Words {
        mode,
        number,
        folder,
        loopback,
    })
}

/// The mode that the first word names.
fn read_mode(word: Option<&str>) -> Result<Mode, UsageRule>
    ensures { result ≡ mode_said (option_copied word.entry) }
{
    word.and_then(Mode::named).ok_or(UsageRule::Mode)
}

/// The number of a mode, which a storm must have and other modes may not.
fn read_number(mode: Mode, word: Option<&str>) -> Result<Option<u64>, UsageRule>
    ensures { result ≡ number_said mode (option_copied word.entry) }
{
    match (mode, word) {
        (Mode::Storm, Some(word)) => Ok(Some(decimal(word).ok_or(UsageRule::Number)?)),
        (Mode::Play | Mode::Live, None) => Ok(None),
        _ => Err(UsageRule::Number),
    }
}

/// The number of 64 bits that a word spells in decimal digits, whatever zeros lead.
fn decimal(word: &str) -> Option<u64>
    ensures { result ≡ if is_number word.now then Some (value_of word.now) else None }
{
    let first = word.as_bytes().first()?;
    if *first == b'+' {
        return None;
    }
    word.parse().ok()
}

/// Only live runs may have the flag.
fn check_loopback(mode: Mode, loopback: bool) -> Result<(), UsageRule>
    ensures { result ≡ loopback_said mode loopback }
{
    match (mode, loopback) {
        (Mode::Play | Mode::Storm, true) => Err(UsageRule::Loopback),
        _ => Ok(()),
    }
}

/// The folder with this path, if one is given.
fn read_folder(alloc: Global, path: Option<&str>) -> Result<Option<FolderText>, AllocError>
    ensures { IfOk result (λ folder. folder ≡ option_copied path.entry) }
{
    let Some(path) = path else {
        return Ok(None);
    };
    Ok(Some(FolderText::new(alloc, path)?))
}
