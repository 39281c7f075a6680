//! What the words of a call say.

ghost use Rattle.std.specs.Prelude.{◌≡◌, IfOk, find, bytes_eq};
ghost use Rattle.run_words.specs.Calls.{mode_name, mode_named};

use std::alloc::{AllocError, Global};
use std::marker::Model;

/// What the program is to do.
#[derive(Clone, Copy, Debug, PartialEq, Eq)]
pub enum Mode {
    /// To play a script, step by step.
    Play,
    /// To run the nodes of a script in threads.
    Live,
    /// To play the script that a number makes.
    Storm,
}

/// The path of a folder, seen as the list of its bytes.
#[derive(Debug, Drop)]
pub struct FolderText {
    text: String,
}

impl Model for FolderText {
    ghost use Rattle.std.specs.Prelude.{ℕ, List};
    ghost use Rattle.std.specs.String.{string_bytes};

    ghost Value = { List ℕ };

    ghost view = { λ folder. string_bytes folder.text };
}

impl FolderText {
    /// The folder with this path, which is copied.
    pub fn new(alloc: Global, path: &str) -> Result<FolderText, AllocError>
        ensures { IfOk result (λ folder. folder ≡ path.now) }
    {
        let text = String::from_str(alloc, path)?;
        Ok(FolderText { text })
    }

    /// The path.
    pub fn as_str(&self) -> &str
        ensures { result.now ≡ self.now }
    {
        self.text.as_str()
    }
}

/// What the words of a call say.
#[derive(Debug, Drop)]
pub struct Words {
    pub mode: Mode,
    /// The number of a storm; other modes have none.
    pub number: Option<u64>,
    /// The folder in which the nodes have their files; without one they have them in memory.
    pub folder: Option<FolderText>,
    /// Whether connections go over the machine's loopback; only live runs may.
    pub loopback: bool,
}

const MODES: [Mode; 3] = [Mode::Play, Mode::Live, Mode::Storm];

impl Mode {
    /// The word that names the mode.
    fn name(self) -> &'static str
        ensures { result.now ≡ mode_name self }
    {
        match self {
            Mode::Play => "play",
            Mode::Live => "live",
            Mode::Storm => "storm",
        }
    }

    /// The mode that a word names.
    pub(crate) fn named(word: &str) -> Option<Mode>
        ensures { result ≡ mode_named word.now }
    {
        find_mode(&MODES, word)
    }
}

/// The first of these modes with this name.
fn find_mode(modes: &[Mode], word: &str) -> Option<Mode>
    ensures { result ≡ find (λ mode. bytes_eq (mode_name mode) word.now) modes.now }
{
    modes.iter().copied().find(|mode| mode.name() == word)
}
