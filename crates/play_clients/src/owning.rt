//! The own steps of a client.

ghost use Rattle.std.specs.Prelude.{◌≡◌, IfSome, IfOk};
ghost use Rattle.hd_base.specs.Ends.{IsKnown};
ghost use Rattle.client_events.specs.Committing.{IsAccepted};
ghost use Rattle.client_events.specs.SettingUp.{IsWanted};
ghost use Rattle.client_events.specs.Showing.{PipeIsKnown};
ghost use Rattle.play_clients.specs.Clients.{known_of};
ghost use Rattle.play_clients.specs.Courses.{course_of};
ghost use Rattle.play_clients.specs.Owning.{Answers, Keeps, Acts, Puts, Gives, Takes, Completes, TakesSetup, Commits, first_of, SetsUp};
ghost use Rattle.play_clients.specs.Events.{OwnShows};
ghost use Rattle.play_clients.specs.Passing.{ClientPasses};

use crate::clients::{Client, First, Owned};
use crate::courses::{Course, course_of};
use client_events::{Acted, ClientFault, Pipe, Rebuild, Said, act, commit, complete, set_up};
use hd_base::{Conn, ConnId, LinkIn, LinkOut, NodeId, Roads};
use name_core::Desk;
use std::alloc::{AllocError, Global};
use std::mem;
use world::TakenCommand;
use writer_core::{Command, CommandFault, Writer};

impl<I: LinkIn, O: LinkOut> Client<I, O> {
    /// The own step of the writer: it takes a command, asks the office and goes on, sends a packet, or answers. A
    /// connection that it dials has this number.
    pub fn own<D: Desk, R: Roads<Inward = I, Outward = O>>(
        &mut self,
        alloc: Global,
        roads: &mut R,
        office: &mut D,
        next: ConnId,
    ) -> Result<Owned<I, O>, ClientFault>
        requires { PipeIsKnown (R.plain roads.old) self.old.pipe }
        ensures shows { OwnShows D.Desk R.Roads I.LinkIn O.LinkOut next
            self.old self.new office.old office.new roads.old roads.new result }
        ensures passes { ClientPasses R.Roads roads.old roads.new self.new result }
        ensures first { IfOk result (λ left. IfSome left.first (λ f. IsKnown (R.plain roads.new) f.end.id.0)) }
    {
        match self.course() {
            Course::Takes => {
                let took = self.take(alloc, roads)?;
                Ok(Owned::alone(took))
            }
            Course::SetsUp => self.set_up(alloc, roads, office, next),
            Course::Commits => {
                self.commit(alloc, roads, office)?;
                Ok(Owned::asking(None, None))
            }
            Course::Completes => {
                self.complete(office)?;
                Ok(Owned::asking(None, None))
            }
            Course::Acts => {
                self.act(alloc, roads)?;
                Ok(Owned::alone(None))
            }
        }
    }

    /// What the own step of the writer is.
    fn course(&self) -> Course
        ensures { result ≡ course_of (known_of self.now.block self.now.writer) }
    {
        match &self.writer {
            Some(writer) => course_of(writer),
            None => Course::Takes,
        }
    }

    /// Keeps an answer.
    fn answer(&mut self, said: Option<Said>) -> Result<(), ClientFault>
        ensures { Answers self.old self.new said result }
    {
        let Some(said) = said else {
            return Ok(());
        };
        match self.said.push(said) {
            Ok(()) => Ok(()),
            Err(_) => Err(ClientFault::Memory),
        }
    }

    /// Keeps what a step left.
    fn keep(&mut self, acted: Acted<I, O>) -> Result<(), ClientFault>
        ensures { Keeps self.old self.new acted result }
    {
        self.pipe = acted.pipe;
        self.answer(acted.said)
    }

    /// The writer does something alone.
    fn act<R: Roads<Inward = I, Outward = O>>(
        &mut self,
        alloc: Global,
        roads: &mut R,
    ) -> Result<(), ClientFault>
        requires { PipeIsKnown (R.plain roads.old) self.old.pipe }
        ensures acts { Acts R.Roads I.LinkIn O.LinkOut self.old self.new roads.old roads.new result }
        ensures passes { ClientPasses R.Roads roads.old roads.new self.new result }
    {
        let Some(writer) = &mut self.writer else {
            return Ok(());
        };
        let pipe = mem::replace(&mut self.pipe, Pipe::Closed);
        let acted = act(alloc, roads, writer, pipe)?;
        self.keep(acted)
    }

    /// The writer takes the first command of its queue.
    fn take<R: Roads<Inward = I, Outward = O>>(
        &mut self,
        alloc: Global,
        roads: &mut R,
    ) -> Result<Option<TakenCommand>, ClientFault>
        requires { PipeIsKnown (R.plain roads.old) self.old.pipe }
        ensures takes { Takes R.Roads I.LinkIn O.LinkOut self.old self.new roads.old roads.new result }
        ensures passes { ClientPasses R.Roads roads.old roads.new self.new result }
    {
        let Some(taken) = self.queue.pop_front() else {
            return Ok(None);
        };
        self.give(alloc, &taken)?;
        self.act(alloc, roads)?;
        Ok(Some(taken))
    }

    /// Gives the writer a command. The first one makes it. One that doesn't fit is dropped.
    fn give(&mut self, alloc: Global, taken: &TakenCommand) -> Result<(), ClientFault>
        ensures { Gives self.old self.new taken.now result }
    {
        let Ok(command) = duplicate(&taken.command) else {
            return Err(ClientFault::Memory);
        };
        if self.writer.is_none() {
            let Ok(writer) = Writer::new(alloc, self.block, taken.rule) else {
                return Err(ClientFault::Memory);
            };
            self.writer = Some(writer);
        }
        match &mut self.writer {
            Some(writer) => put(writer, command),
            None => Ok(()),
        }
    }

    /// The writer has the office complete its block.
    fn complete<D: Desk>(&mut self, office: &mut D) -> Result<(), ClientFault>
        ensures completes { Completes D.Desk self.old self.new office.old office.new result }
        ensures pipe { IfOk result (λ _. self.new.pipe ≡ self.old.pipe) }
    {
        let Some(writer) = &mut self.writer else {
            return Ok(());
        };
        let said = complete(office, writer)?;
        self.answer(said)
    }

    /// The writer has the office commit its stamp.
    fn commit<D: Desk, R: Roads<Inward = I, Outward = O>>(
        &mut self,
        alloc: Global,
        roads: &mut R,
        office: &mut D,
    ) -> Result<(), ClientFault>
        requires known { PipeIsKnown (R.plain roads.old) self.old.pipe }
        requires accepted { IfSome self.old.writer (λ x. IsAccepted x.phase) }
        ensures commits { Commits D.Desk R.Roads I.LinkIn O.LinkOut
            self.old self.new office.old office.new roads.old roads.new result }
        ensures passes { ClientPasses R.Roads roads.old roads.new self.new result }
    {
        let Some(setup) = self.take_setup() else {
            return Ok(());
        };
        let Some(writer) = &mut self.writer else {
            return Ok(());
        };
        if !setup.fits(writer) {
            return Ok(());
        }
        let acted = commit(alloc, roads, office, writer, setup)?;
        self.keep(acted)
    }

    /// The writer asks the office for a stamp, and then the first member.
    fn set_up<D: Desk, R: Roads<Inward = I, Outward = O>>(
        &mut self,
        alloc: Global,
        roads: &mut R,
        office: &mut D,
        next: ConnId,
    ) -> Result<Owned<I, O>, ClientFault>
        requires known { PipeIsKnown (R.plain roads.old) self.old.pipe }
        requires wanted { IfSome self.old.writer (λ x. IsWanted x.phase) }
        ensures sets_up { SetsUp D.Desk R.Roads I.LinkIn O.LinkOut next
            self.old self.new office.old office.new roads.old roads.new result }
        ensures passes { ClientPasses R.Roads roads.old roads.new self.new result }
        ensures first { IfOk result (λ left. IfSome left.first (λ f. IsKnown (R.plain roads.new) f.end.id.0)) }
    {
        let Some(setup) = self.take_setup() else {
            return Ok(Owned::asking(None, None));
        };
        let Some(writer) = &mut self.writer else {
            return Ok(Owned::asking(None, None));
        };
        if !setup.fits(writer) {
            return Ok(Owned::asking(None, None));
        }
        let left = set_up(alloc, roads, office, writer, setup, next)?;
        self.pipe = left.pipe;
        let first = first_of(writer, left.first);
        Ok(Owned::asking(first, left.unreached))
    }
}

impl<I: LinkIn, O: LinkOut> Client<I, O> {
    /// Takes the setup of the pipeline: the one that is under way, or a new one where there is no connection. The writer
    /// has no connection meanwhile.
    fn take_setup(&mut self) -> Option<Rebuild<I, O>>
        ensures { TakesSetup self.old self.new result }
    {
        match mem::replace(&mut self.pipe, Pipe::Closed) {
            Pipe::Closed => Some(Rebuild::new()),
            Pipe::SettingUp(setup) => Some(setup),
            Pipe::Streaming {
                end: _end,
                incoming: _incoming,
            } => None,
        }
    }
}

/// The lower end of the connection on which the first member of a writer was asked, with the member.
fn first_of<I: LinkIn, O: LinkOut>(writer: &Writer, end: Option<Conn<I, O>>) -> Option<First<I, O>>
    ensures { result ≡ first_of writer.now end }
{
    let node = match writer.members().as_slice() {
        [first, ..] => *first,
        [] => NodeId(0),
    };
    match end {
        Some(end) => Some(First { node, end }),
        None => None,
    }
}

/// Gives a writer a command. One that doesn't fit is dropped.
fn put(writer: &mut Writer, command: Command) -> Result<(), ClientFault>
    ensures { Puts writer.old writer.new command result }
{
    match writer.command(command) {
        Err(CommandFault::Memory) => Err(ClientFault::Memory),
        _ => Ok(()),
    }
}

/// A copy of a command.
fn duplicate(command: &Command) -> Result<Command, AllocError>
    ensures { IfOk result (λ c. c ≡ command.now) }
{
    Ok(match command {
        Command::Create { members } => Command::Create {
            members: members.duplicate(),
        },
        Command::Append { members } => Command::Append {
            members: members.duplicate(),
        },
        Command::Write { bytes } => Command::Write {
            bytes: bytes.duplicate()?,
        },
        Command::Fill { count } => Command::Fill { count: *count },
        Command::Hflush => Command::Hflush,
        Command::Hsync => Command::Hsync,
        Command::Close => Command::Close,
    })
}
