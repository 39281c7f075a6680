//! Why a text is no script.

use std::alloc::{AllocError, AllocFailed};
use thiserror::Error;

/// The rule that a line breaks, in the order in which the rules are tried.
#[derive(Clone, Copy, Debug, PartialEq, Eq)]
pub enum BadKind {
    /// The whole script is over 16,777,216 bytes; the line is then 0.
    TooLong,
    /// A byte is neither printable ASCII nor a tab, nor belongs to the line's end.
    Byte,
    /// The line is past number 65,536.
    Lines,
    /// The first two command lines aren't `nodes` and `seed`.
    Head,
    /// The first word is unknown, or one that an argument names.
    Word,
    /// The line has too few words or too many.
    Arity,
    /// A number isn't decimal, or is out of its range.
    Number,
    /// Bytes aren't pairs of hexadecimal digits, at least one.
    Hex,
    /// A member is empty, repeated or no node of the script, or there are over 16.
    Member,
    /// A node is none of the script, is stopped twice or started while it runs.
    Node,
    /// The script has more nodes than there are shelves.
    TooManyNodes,
    /// The block's lines before don't allow this one.
    Block,
    /// The lengths written, or the lengths read, are together over 33,554,432.
    TooMuch,
}

/// Why no script was read.
#[derive(Clone, Copy, Debug, PartialEq, Eq, Drop, Error)]
pub enum ScriptError {
    /// The first line that breaks a rule, from 1, and the first rule that it breaks.
    #[error("line {line} is bad: {kind:?}")]
    Bad { line: u64, kind: BadKind },
    /// Memory ran out.
    #[error("memory ran out")]
    Memory,
}

/// Why a line says nothing.
#[derive(Clone, Copy, Debug, PartialEq, Eq)]
pub(crate) enum Stop {
    /// It breaks this rule.
    Bad(BadKind),
    /// Memory ran out.
    Memory,
}

impl From<BadKind> for Stop {
    ghost use Rattle.std.specs.Prelude.{◌≡◌};
    ghost use Rattle.script_lang.specs.declared.faults.Stop.TheVariants.{Bad};

    ghost from_gives = { λ kind stop. stop ≡ Bad kind };

    fn from(kind: BadKind) -> Stop {
        Stop::Bad(kind)
    }
}

impl From<AllocError> for Stop {
    ghost use Rattle.std.specs.Prelude.{◌≡◌};
    ghost use Rattle.script_lang.specs.declared.faults.Stop.TheVariants.{Memory};

    ghost from_gives = { λ _ stop. stop ≡ Memory };

    fn from(_: AllocError) -> Stop {
        Stop::Memory
    }
}

impl<T: Drop> From<AllocFailed<T>> for Stop {
    ghost use Rattle.std.specs.Prelude.{◌≡◌};
    ghost use Rattle.script_lang.specs.declared.faults.Stop.TheVariants.{Memory};

    ghost from_gives = { λ _ stop. stop ≡ Memory };

    fn from(_: AllocFailed<T>) -> Stop {
        Stop::Memory
    }
}

/// Why no report line was read.
#[derive(Clone, Copy, Debug, PartialEq, Eq, Drop, Error)]
pub enum LineFault {
    /// No report line prints to these bytes.
    #[error("this is no line of a report")]
    Line,
    /// Memory ran out.
    #[error("memory ran out")]
    Memory,
}

impl From<AllocError> for LineFault {
    ghost use Rattle.std.specs.Prelude.{◌≡◌};
    ghost use Rattle.script_lang.specs.declared.faults.LineFault.TheVariants.{Memory};

    ghost from_gives = { λ _ fault. fault ≡ Memory };

    fn from(_: AllocError) -> LineFault {
        LineFault::Memory
    }
}
