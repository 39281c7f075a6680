//! The words as `clap` reads them.

ghost use Rattle.std.specs.Prelude.{◌≡◌, true, map, Err, IfOk, IfErr};
ghost use Rattle.std.specs.String.{string_bytes};
ghost use Rattle.clap.specs.Words.{app_of, found_of, rows_of};
ghost use Rattle.run_words.specs.Commands.{words_app, words_rows, are_taken};
ghost use Rattle.run_words.specs.Calls.{words_of, Reads, refusal_of};

use crate::faults::{UsageRule, WordsFault};
use clap::error::ErrorKind;
use clap::{Arg, ArgAction, ArgMatches, Command};
use std::alloc::{AllocError, Global};

/// The argument for the mode.
pub(crate) const MODE: &str = "mode";

/// The argument for a number.
pub(crate) const NUMBER: &str = "number";

/// The option for the folder of the nodes' files.
pub(crate) const FOLDER: &str = "folder";

/// The flag for connections over the loopback.
pub(crate) const LOOPBACK: &str = "loopback";

/// The command: a mode, perhaps a number, an option and a flag.
fn command<'a>(alloc: Global) -> Result<Command<'a>, AllocError>
    ensures { IfOk result (λ command. app_of command ≡ words_app) }
{
    let mode = Arg::new(alloc, MODE).required(true);
    let number = Arg::new(alloc, NUMBER);
    let folder = Arg::new(alloc, FOLDER).long(FOLDER);
    let loopback = Arg::new(alloc, LOOPBACK)
        .long(LOOPBACK)
        .action(ArgAction::SetTrue);
    let plain = Command::new(alloc, "dn").no_binary_name(true);
    let with_mode = plain.arg(mode)?;
    let with_number = with_mode.arg(number)?;
    let with_folder = with_number.arg(folder)?;
    with_folder.arg(loopback)
}

/// What `clap` finds in the words, where it takes them.
pub(crate) fn parse<'a>(alloc: Global, words: &'a [String]) -> Result<ArgMatches<'a>, WordsFault>
    ensures taken { IfOk result (λ _. are_taken (map string_bytes words.entry.now) ≡ true) }
    ensures found { IfOk result (λ m. rows_of (found_of m) ≡ words_rows (map string_bytes words.entry.now)) }
    ensures refused { IfErr result (λ fault. Reads (Err fault) (words_of (map string_bytes words.entry.now))) }
{
    match command(alloc)?.try_get_matches_from(words) {
        Ok(matches) => Ok(matches),
        Err(error) => Err(refusal(error.kind())),
    }
}

/// What a refusal of this kind comes to.
fn refusal(kind: ErrorKind) -> WordsFault
    ensures { result ≡ refusal_of kind }
{
    match kind {
        ErrorKind::OutOfMemory => WordsFault::Memory,
        _ => WordsFault::Usage {
            rule: UsageRule::Words,
        },
    }
}
