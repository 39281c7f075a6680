//! Why words say nothing.

use std::alloc::AllocError;
use thiserror::Error;

/// The rule that the words break, in the order in which the rules are tried.
#[derive(Clone, Copy, Debug, PartialEq, Eq, Error)]
pub enum UsageRule {
    /// They aren't one word or two, at most one `--folder` with a path, and at most one `--loopback`, or ask for help.
    #[error("the words are not a mode, a number, --folder and --loopback")]
    Words,
    /// The first is no mode.
    #[error("the mode is not play, live or storm")]
    Mode,
    /// A storm has no number, or one that isn't decimal or has over 64 bits, or another mode has one.
    #[error("storm takes a decimal number of 64 bits, and no other mode does")]
    Number,
    /// A mode other than live has `--loopback`.
    #[error("only live takes --loopback")]
    Loopback,
}

/// Why no words were read.
#[derive(Clone, Copy, Debug, PartialEq, Eq, Error)]
pub enum WordsFault {
    /// The words break this rule, and none before it.
    #[error("{rule}")]
    Usage { rule: UsageRule },
    /// Memory ran out.
    #[error("memory ran out")]
    Memory,
}

impl From<UsageRule> for WordsFault {
    ghost use Rattle.std.specs.Prelude.{◌≡◌};
    ghost use Rattle.run_words.specs.declared.faults.WordsFault.TheVariants.{Usage};

    ghost from_gives = { λ rule fault. fault ≡ Usage rule };

    fn from(rule: UsageRule) -> WordsFault {
        WordsFault::Usage { rule }
    }
}

impl From<AllocError> for WordsFault {
    ghost use Rattle.std.specs.Prelude.{◌≡◌};
    ghost use Rattle.run_words.specs.declared.faults.WordsFault.TheVariants.{Memory};

    ghost from_gives = { λ _ fault. fault ≡ Memory };

    fn from(_: AllocError) -> WordsFault {
        WordsFault::Memory
    }
}
