//! The writer.

ghost use Rattle.std.specs.Prelude.{◌≡◌, IfOk, OnOk, OnErr, is_some};
ghost use Rattle.hd_base.specs.Results.{Gives, with_value};
ghost use Rattle.writer_core.specs.Commands.{admitted};
ghost use Rattle.writer_core.specs.Transitions.{fresh, given, own_step, NextGives, wants_pipeline, has_command_due, has_step, is_connected};
ghost use Rattle.writer_core.specs.Transitions.{ended, acked, setup_answered, dialled, granted};

use crate::acks::no_members;
use crate::actions::Action;
use crate::commands::{Command, CommandFault, CommandQueue};
use crate::intake::{Intake, Stand};
use crate::phases::Phase;
use crate::records::WriterRecord;
use ack_codec::{Ack, Response};
use hd_base::{BlockId, ConnId, Members, NodeId, Stamp, SumRule};
use name_core::{OfficeAnswer, OfficeFault};
use packet_stream::PacketStream;
use std::alloc::{AllocError, Global};
use std::marker::Model;

/// The writer of one block. Only `new`, `command` and `next` take memory.
#[derive(Drop)]
pub struct Writer {
    known: WriterRecord,
}

impl Model for Writer {
    ghost use Rattle.writer_core.specs.declared.records.WriterRecord.{WriterRecord};
    ghost use Rattle.writer_core.specs.Sound.{Sound};

    ghost Value = { WriterRecord };

    ghost view = { λ w. w.known };

    ghost invariant = { λ w. Sound w.known };
}

impl Writer {
    /// The writer of a block with this rule of sums, which was given nothing yet.
    pub fn new(alloc: Global, block: BlockId, rule: SumRule) -> Result<Writer, AllocError>
        ensures { IfOk result (λ w. w ≡ fresh block rule) }
    {
        let known = WriterRecord {
            block,
            intake: Intake {
                stand: Stand::Unmade,
                bytes: 0,
                commands: 0,
            },
            queue: CommandQueue::new(alloc),
            taken: 0,
            waiting: None,
            phase: Phase::Closed,
            members: no_members(),
            committed: Stamp(0),
            stream: PacketStream::new(alloc, rule)?,
            had_sync: false,
        };
        Ok(Writer { known })
    }

    /// Gives a command. `TooMuch` comes exactly where over 33,554,432 bytes or over 2^32 commands would
    /// be given, else `Unfit` exactly where it doesn't fit the commands before it, or opens the block
    /// without members; else perhaps `Memory`. They change nothing.
    pub fn command(&mut self, command: Command) -> Result<(), CommandFault>
        ensures answer { Gives CommandFault.Memory result (with_value (λ _. tt) (admitted self.old.intake command)) }
        ensures ok { OnOk result (self.new ≡ given self.old command) }
        ensures err { OnErr result (self.new ≡ self.old) }
    {
        self.known.give(command)
    }

    /// The writer's own step, by the first rule that applies; `Action::Wait` where none does.
    /// `Action::Memory` may come where a packet, a request or bytes find no memory, and changes nothing.
    pub fn next(&mut self) -> Action
        ensures { NextGives (own_step self.old) self.old result self.new }
    {
        match self.known.own_step() {
            Ok(action) => action,
            Err(_) => Action::Memory,
        }
    }

    /// Takes the office's answer to what `next` asked. One that isn't such an answer changes nothing.
    pub fn granted(&mut self, answer: &Result<OfficeAnswer, OfficeFault>)
        ensures { self.new ≡ granted self.old answer.now }
    {
        self.known.granted(answer);
    }

    /// Takes what the dial gave that `next` asked for, `None` where it wasn't answered. Where no dial was
    /// asked for it changes nothing.
    pub fn dialled(&mut self, conn: Option<ConnId>)
        ensures { self.new ≡ dialled self.old (is_some conn) }
    {
        self.known.dialled(conn.is_some());
    }

    /// Takes the answer to the request, with the member that its first bad link is, if any. Where no
    /// request waits for its answer it changes nothing.
    pub fn setup_answer(&mut self, response: &Response, bad: Option<NodeId>)
        ensures { self.new ≡ setup_answered self.old response.now bad }
    {
        self.known.answer_setup(response, bad);
    }

    /// Takes an ack. Where the writer isn't connected, or a request waits for its answer, it changes
    /// nothing.
    pub fn acked(&mut self, ack: &Ack)
        ensures { self.new ≡ acked self.old ack.now }
    {
        self.known.ack(ack);
    }

    /// Takes the end of the writer's connection, a fault of it, or an ack that can't be read. Where the
    /// writer isn't connected it changes nothing.
    pub fn ended(&mut self)
        ensures { self.new ≡ ended self.old }
    {
        self.known.end();
    }

    /// Whether the writer has a connection. Where a call makes this false, the caller shuts the
    /// connection.
    pub fn connected(&self) -> bool
        ensures { result ≡ is_connected self.now.phase }
    {
        self.known.phase.remedy().is_some()
    }

    /// At which point of its work the writer is.
    pub fn phase(&self) -> Phase
        ensures { result ≡ self.now.phase }
    {
        self.known.phase
    }

    /// The members of the pipeline that stands or is wanted.
    pub fn members(&self) -> &Members
        ensures { result.now ≡ self.now.members }
    {
        &self.known.members
    }

    /// Whether the next own step sets up a pipeline.
    pub fn wants_pipeline(&self) -> bool
        ensures { result ≡ wants_pipeline self.now.phase }
    {
        self.known.phase.wants_pipeline()
    }

    /// Whether no command waits for its answer and one was given that wasn't taken yet.
    pub fn has_command_due(&self) -> bool
        ensures { result ≡ has_command_due self.now }
    {
        self.known.has_command_due()
    }

    /// Whether the next own step does or asks something: `next` doesn't answer `Action::Wait` then.
    pub fn has_step(&self) -> bool
        ensures { result ≡ has_step self.now }
    {
        self.known.has_step()
    }

    /// Whether a command waits for its answer.
    pub fn is_waiting(&self) -> bool
        ensures { result ≡ is_some self.now.waiting }
    {
        self.known.waiting.is_some()
    }
}
