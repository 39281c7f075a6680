//! What was given to the writer.

ghost use Rattle.std.specs.Prelude.{◌≡◌, false, Ok, Err};
ghost use Rattle.writer_core.specs.Commands.{fits, is_too_much, admitted, intake_after};

use crate::commands::{Command, CommandFault};

/// The most bytes that may be given to a writer.
pub const MAX_GIVEN: u64 = 33_554_432;

/// The most commands that may be given to a writer.
pub const MAX_COMMANDS: u64 = 4_294_967_296;

/// Where the commands given so far leave the block.
#[derive(Clone, Copy, Debug, PartialEq, Eq)]
pub enum Stand {
    /// No create was given yet.
    Unmade,
    /// It is open.
    Open,
    /// It is closed.
    Closed,
}

/// What was given to the writer so far.
#[derive(Clone, Copy, Debug, PartialEq, Eq)]
pub struct Intake {
    /// Where it leaves the block.
    pub stand: Stand,
    /// How many bytes the writes and fills have.
    pub bytes: u64,
    /// How many commands there are.
    pub commands: u64,
}

impl Intake {
    /// The intake with this command, or why it may not be given.
    #[tactic(auto, unfolding(crate::specs::Commands::admitted))]
    pub fn admit(&self, command: &Command) -> Result<Intake, CommandFault>
        ensures { result ≡ admitted self.now command.now }
    {
        if self.is_too_much(command) {
            return Err(CommandFault::TooMuch);
        }
        if !self.fits(command) {
            return Err(CommandFault::Unfit);
        }
        Ok(self.after(command))
    }

    /// Whether more would be given with this command than may be.
    fn is_too_much(&self, command: &Command) -> bool
        ensures { result ≡ is_too_much self.now command.now }
    {
        self.bytes.saturating_add(command.length()) > MAX_GIVEN || self.commands >= MAX_COMMANDS
    }

    /// Whether the command fits those before it.
    fn fits(&self, command: &Command) -> bool
        ensures { result ≡ fits self.now.stand command.now }
    {
        match command {
            Command::Create { members } => self.stand == Stand::Unmade && !members.is_empty(),
            Command::Append { members } => self.stand == Stand::Closed && !members.is_empty(),
            _ => self.stand == Stand::Open,
        }
    }

    /// The intake with this command.
    fn after(&self, command: &Command) -> Intake
        requires { is_too_much self.now command.now ≡ false }
        ensures { result ≡ intake_after self.now command.now }
    {
        let stand = match command {
            Command::Create { .. } | Command::Append { .. } => Stand::Open,
            Command::Close => Stand::Closed,
            _ => self.stand,
        };
        Intake {
            stand,
            bytes: self.bytes + command.length(),
            commands: self.commands + 1,
        }
    }
}
