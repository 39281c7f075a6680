//! The commands of a writer, and the queue of those that it wasn't able to take yet.

ghost use Rattle.std.specs.Prelude.{◌≡◌, ◌==◌, ◌∷◌, ◌++◌, [], ◌≤◌, IfSome, OnOk, OnErr, drop, slice_get, option_copied};
ghost use Rattle.writer_core.specs.Commands.{command_length};

use hd_base::{ByteList, Members};
use std::alloc::{AllocError, Global};
use std::collections::VecDeque;
use std::marker::Model;
use thiserror::Error;

/// A client's command on a block.
#[derive(Debug, PartialEq, Eq, Drop)]
pub enum Command {
    /// Make the block, and a pipeline of these members.
    Create { members: Members },
    /// Reopen the closed block, with a pipeline of these members.
    Append { members: Members },
    /// Write these bytes behind the others.
    Write { bytes: ByteList },
    /// Write so many bytes behind the others, each told by where in the block it lies.
    Fill { count: u64 },
    /// Answer once each member has all bytes written so far.
    Hflush,
    /// Answer once each member has all bytes written so far, and has brought them to the disk.
    Hsync,
    /// Answer once the block is complete.
    Close,
}

impl Command {
    /// How many bytes it writes.
    pub(crate) fn length(&self) -> u64
        ensures { result ≡ command_length self.now }
    {
        match self {
            Command::Write { bytes } => bytes.len() as u64,
            Command::Fill { count } => *count,
            _ => 0,
        }
    }
}

/// Why a command isn't taken into the queue. They are tried in this order, and change nothing.
#[derive(Clone, Copy, Debug, PartialEq, Eq, Error)]
pub enum CommandFault {
    /// More bytes or commands would be given to the writer than it may be given.
    #[error("too much was given to the writer")]
    TooMuch,
    /// It doesn't fit the commands before it, or opens the block without members.
    #[error("the command doesn't fit those before it")]
    Unfit,
    /// No memory was left.
    #[error("out of memory")]
    Memory,
}

/// The commands that were given and aren't taken yet, seen as their list.
#[derive(Debug, Drop)]
pub struct CommandQueue {
    commands: VecDeque<Command>,
}

impl Model for CommandQueue {
    ghost use Rattle.std.specs.Prelude.{List};
    ghost use Rattle.writer_core.specs.declared.commands.Command.{Command};

    ghost Value = { List Command };

    ghost view = { λ q. q.commands.items };
}

impl CommandQueue {
    /// No command.
    pub fn new(alloc: Global) -> CommandQueue
        ensures { result ≡ [] }
    {
        CommandQueue {
            commands: VecDeque::new(alloc),
        }
    }

    /// Puts a command behind the others. Want of memory changes nothing.
    pub fn push(&mut self, command: Command) -> Result<(), AllocError>
        ensures ok { OnOk result (self.new ≡ self.old ++ command ∷ []) }
        ensures err { OnErr result (self.new ≡ self.old) }
    {
        self.commands.push_back(command)?;
        Ok(())
    }

    /// The first command.
    pub fn first(&self) -> Option<&Command>
        ensures { option_copied result ≡ slice_get self.now 0 }
    {
        self.commands.front()
    }

    /// Drops the first command.
    pub fn drop_first(&mut self)
        ensures { self.new ≡ drop 1 self.old }
    {
        self.commands.pop_front();
    }
}
