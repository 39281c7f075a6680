//! A writer, and what each call makes of it.

ghost use Rattle.std.specs.Prelude.{◌≡◌, ◌==◌, ◌≤◌, ◌<◌, ◌^◌, pos, Some, ◌+◌, length, slice_get, is_ok, if◌then◌else◌, IfOk, OnOk, OnErr, Ok, Err};
ghost use Rattle.ack_codec.specs.declared.acks.Ack.{Ack};
ghost use Rattle.hd_base.specs.Results.{Gives, with_value};
ghost use Rattle.writer_core.specs.Commands.{admitted};
ghost use Rattle.writer_core.specs.Phases.{without};
ghost use Rattle.writer_core.specs.Transitions.{given, ordinal, took, waits_as, opening, wrote, taken_as, has_command_due, is_action, has_step};
ghost use Rattle.writer_core.specs.Transitions.{free_step, failed_command, failed_step, stamp_call, dial_step, open_step};
ghost use Rattle.writer_core.specs.Transitions.{accepted_step, reached, completed_step, due_in, due_now, form_step};
ghost use Rattle.writer_core.specs.Transitions.{reached_length, reach_step, stream_step, own_step, fail_at, ended, dropped, data_due};
ghost use Rattle.writer_core.specs.Transitions.{acked, acked_oldest, setup_answered, dialled, refused, stamped, reopened};
ghost use Rattle.writer_core.specs.Transitions.{committed_as, granted_in, granted, asks, sync_formed_as, is_flushing, begin_session};
ghost use Rattle.writer_core.specs.Sound.{Sound};

use crate::acks::{bad_place, is_success, verdict, without};
use crate::actions::{Action, ClientAnswer};
use crate::commands::{Command, CommandFault, CommandQueue};
use crate::intake::Intake;
use crate::phases::{DuePacket, Failure, Phase, Remedy, Setup, SyncPacket, Verdict, Waiting};
use crate::requests::{Order, request};
use ack_codec::{Ack, Response};
use hd_base::{BlockId, Members, NodeId, Stamp};
use name_core::{MAX_APPEND_LENGTH, OfficeAnswer, OfficeCall, OfficeFault, Reopened};
use packet_codec::Packet;
use packet_stream::PacketStream;
use std::alloc::{AllocError, Global};

/// All that the writer of a block knows.
#[derive(Drop)]
pub struct WriterRecord {
    /// The block.
    pub block: BlockId,
    /// What was given.
    pub intake: Intake,
    /// The commands that were given and aren't taken yet.
    pub queue: CommandQueue,
    /// How many commands were taken.
    pub taken: u64,
    /// The command that waits for its answer, if any: the one that was taken last.
    pub waiting: Option<Waiting>,
    /// At which point the writer is.
    pub phase: Phase,
    /// The members of the pipeline that stands or is wanted.
    pub members: Members,
    /// The committed stamp.
    pub committed: Stamp,
    /// The packets of this create or append.
    pub stream: PacketStream,
    /// Whether this create or append had an hsync.
    pub had_sync: bool,
}

/// What is given, and what is taken.
impl WriterRecord {
    /// Puts a command behind the others, where it may be given.
    pub fn give(&mut self, command: Command) -> Result<(), CommandFault>
        ensures answer { Gives CommandFault.Memory result (with_value (λ _. tt) (admitted self.old.intake command)) }
        ensures ok { OnOk result (self.new ≡ given self.old command) }
        ensures err { OnErr result (self.new ≡ self.old) }
        ensures writer { self.new ≡ (if is_ok result then given self.old command else self.old) }
    {
        let intake = self.intake.admit(&command)?;
        if self.queue.push(command).is_err() {
            return Err(CommandFault::Memory);
        }
        self.intake = intake;
        Ok(())
    }

    /// The number of the command that waits.
    fn ordinal(&self) -> u64
        ensures { result ≡ ordinal self.now }
    {
        self.taken.saturating_sub(1)
    }

    /// Takes the first command off the queue.
    fn take_off(&mut self)
        requires { self.old.taken < 2 ^ 63 }
        ensures { self.new ≡ took self.old }
    {
        self.queue.drop_first();
        self.taken += 1;
    }

    /// The first command is taken, and waits.
    fn await_as(&mut self, waiting: Waiting)
        requires { self.old.taken < 2 ^ 63 }
        ensures { self.new ≡ waits_as self.old waiting }
    {
        self.take_off();
        self.waiting = Some(waiting);
    }

    /// The first command is taken, which opens the block: a pipeline of these members is wanted.
    fn open(&mut self, setup: Setup, members: Members)
        requires { self.old.taken < 2 ^ 63 }
        ensures { self.new ≡ opening self.old setup members }
    {
        self.await_as(Waiting::Opening);
        self.members = members;
        self.phase = Phase::Wanted { setup };
    }

    /// Whether no command waits, and one is to be taken.
    pub fn has_command_due(&self) -> bool
        ensures { result ≡ has_command_due self.now }
    {
        self.waiting.is_none() && self.queue.first().is_some()
    }

    /// Whether the own step does or asks something.
    #[tactic(auto, unfolding(crate::specs::Transitions::own_step))]
    pub fn has_step(&self) -> bool
        ensures { result ≡ has_step self.now }
    {
        match self.phase {
            Phase::Closed | Phase::Requested { .. } | Phase::Closing => self.has_command_due(),
            Phase::Stamped { .. } => !self.members.is_empty(),
            Phase::Streaming { sent } => self.has_stream_step(sent),
            Phase::Failed { .. } => self.waiting.is_some() || self.queue.first().is_some(),
            Phase::Wanted { .. } | Phase::Accepted { .. } | Phase::Opened => true,
            Phase::Finished | Phase::Completed => true,
        }
    }

    /// Whether one of the rules 4 to 8 applies.
    fn has_stream_step(&self, sent: usize) -> bool
        ensures { result ≡ is_action (stream_step self.now sent).action }
    {
        sent < self.stream.unacked() || self.due().is_some() || self.has_reach_step()
    }

    /// Whether rule 7 or rule 8 applies.
    fn has_reach_step(&self) -> bool
        ensures { result ≡ is_action (reach_step self.now).action }
    {
        reached_length(self.waiting, &self.stream).is_some() || self.has_command_due()
    }

    /// Rule 8: where no command waits, the next one is taken.
    fn take_next(&mut self) -> Result<Action, AllocError>
        requires { Sound self.old }
        ensures action { IfOk result (λ action. action ≡ (free_step self.old).action) }
        ensures writer { OnOk result (self.new ≡ (free_step self.old).writer) }
        ensures same { OnErr result (self.new ≡ self.old) }
    {
        if self.waiting.is_some() {
            return Ok(Action::Wait);
        }
        let Some(command) = self.queue.first() else {
            return Ok(Action::Wait);
        };
        match command {
            Command::Create { members } => {
                let members = members.duplicate();
                self.open(Setup::Create, members);
            }
            Command::Append { members } => {
                let members = members.duplicate();
                self.open(Setup::Append, members);
            }
            Command::Write { bytes } => {
                self.stream.write(bytes.as_slice())?;
                self.take_off();
            }
            Command::Fill { count } => {
                self.stream.fill(self.block, *count)?;
                self.take_off();
            }
            Command::Hflush => {
                let length = self.stream.written();
                self.await_as(Waiting::Flush { length });
            }
            Command::Hsync => {
                let length = self.stream.written();
                let packet = SyncPacket::Due;
                self.await_as(Waiting::Sync { length, packet });
                self.had_sync = true;
            }
            Command::Close => self.await_as(Waiting::Close),
        }
        Ok(Action::Took)
    }

    /// A writer that failed answers the command that waits, and then each one but an append.
    fn take_failed(&mut self, failure: Failure) -> Action
        requires { Sound self.old }
        ensures action { result ≡ (failed_step self.old failure).action }
        ensures writer { self.new ≡ (failed_step self.old failure).writer }
    {
        if self.waiting.is_some() {
            self.waiting = None;
            return Action::Answered {
                ordinal: self.ordinal(),
                answer: failure.answer(),
            };
        }
        match self.queue.first() {
            None => Action::Wait,
            Some(Command::Append { members }) => {
                let members = members.duplicate();
                self.open(Setup::Append, members);
                Action::Took
            }
            Some(_) => {
                let ordinal = self.taken;
                self.take_off();
                Action::Answered {
                    ordinal,
                    answer: failure.answer(),
                }
            }
        }
    }
}

/// Setting up, and completing.
impl WriterRecord {
    /// The call that gives the stamp of a pipeline.
    fn stamp_call(&self, setup: Setup) -> OfficeCall
        ensures { result ≡ stamp_call self.now setup }
    {
        let block = self.block;
        match setup {
            Setup::Create => OfficeCall::Create {
                block,
                members: self.members.duplicate(),
            },
            Setup::Append => OfficeCall::Append { block },
            _ => OfficeCall::NewStamp { block },
        }
    }

    /// Rule 1, once the stamp was given: the first member is dialled, with the others as targets.
    fn dial(&self, setup: Setup, stamp: Stamp) -> Result<Action, AllocError>
        ensures action { IfOk result (λ action. action ≡ (dial_step self.now setup stamp).action) }
        ensures writer { (dial_step self.now setup stamp).writer ≡ self.now }
    {
        let [first, others @ ..] = self.members.as_slice() else {
            return Ok(Action::Wait);
        };
        let order = Order {
            block: self.block,
            committed: self.committed,
            setup,
            stamp,
        };
        let alloc = self.stream.allocator();
        let op = request(alloc, order, &self.stream, self.members.len(), others)?;
        Ok(Action::Dial { to: *first, op })
    }

    /// The create or append is answered, and the writer streams.
    fn answer_opening(&mut self) -> Action
        ensures action { result ≡ (open_step self.old).action }
        ensures writer { self.new ≡ (open_step self.old).writer }
    {
        self.waiting = None;
        self.phase = Phase::Streaming { sent: 0 };
        Action::Answered {
            ordinal: self.ordinal(),
            answer: ClientAnswer::Granted {
                stamp: self.committed,
            },
        }
    }

    /// Rule 2: a new block streams at once; else the stamp and the members are committed first.
    fn accept(&mut self, setup: Setup, stamp: Stamp) -> Action
        ensures action { result ≡ (accepted_step self.old setup stamp).action }
        ensures writer { self.new ≡ (accepted_step self.old setup stamp).writer }
    {
        match setup {
            Setup::Create => self.answer_opening(),
            _ => Action::Ask(OfficeCall::Commit {
                block: self.block,
                stamp,
                members: self.members.duplicate(),
            }),
        }
    }

    /// The command that waits is answered: so many bytes are reached.
    fn answer_reached(&mut self, length: u64) -> Action
        ensures action { result ≡ (reached self.old length).action }
        ensures writer { self.new ≡ (reached self.old length).writer }
    {
        self.waiting = None;
        Action::Answered {
            ordinal: self.ordinal(),
            answer: ClientAnswer::Reached {
                length,
                stamp: self.committed,
                members: self.members.duplicate(),
            },
        }
    }

    /// Rule 3, once the block is completed: the close is answered.
    fn answer_close(&mut self) -> Action
        ensures action { result ≡ (completed_step self.old).action }
        ensures writer { self.new ≡ (completed_step self.old).writer }
    {
        let length = self.stream.written();
        let answered = self.answer_reached(length);
        self.phase = Phase::Closed;
        answered
    }
}

/// Streaming.
impl WriterRecord {
    /// The packet that is due, where one more may be unacked.
    fn due(&self) -> Option<DuePacket>
        ensures { result ≡ due_now self.now }
    {
        if !self.stream.has_room() {
            return None;
        }
        due(self.waiting, &self.stream)
    }

    /// Rules 5 and 6: the packet that is due is formed.
    fn form(&mut self, packet: DuePacket) -> Result<Action, AllocError>
        requires sound { Sound self.old }
        requires due { due_now self.old ≡ Some packet }
        ensures action { IfOk result (λ action. action ≡ (form_step self.old packet).action) }
        ensures writer { OnOk result (self.new ≡ (form_step self.old packet).writer) }
        ensures same { OnErr result (self.new ≡ self.old) }
    {
        let sent = self.stream.unacked() + 1;
        match packet {
            DuePacket::Data { end, sync } => {
                let formed = self.stream.form(end, sync)?;
                self.waiting = waiting_formed(self.waiting, sync, formed.seqno);
                self.phase = Phase::Streaming { sent };
                Ok(Action::Send(formed))
            }
            DuePacket::Sync => {
                let formed = self.stream.form_sync()?;
                self.waiting = waiting_formed(self.waiting, true, formed.seqno);
                self.phase = Phase::Streaming { sent };
                Ok(Action::Send(formed))
            }
            DuePacket::Last => {
                let formed = self.stream.form_last(self.had_sync)?;
                self.phase = Phase::Closing;
                Ok(Action::Send(formed))
            }
        }
    }

    /// Rule 7, else rule 8.
    fn reach(&mut self) -> Result<Action, AllocError>
        requires { Sound self.old }
        ensures action { IfOk result (λ action. action ≡ (reach_step self.old).action) }
        ensures writer { OnOk result (self.new ≡ (reach_step self.old).writer) }
        ensures same { OnErr result (self.new ≡ self.old) }
    {
        match reached_length(self.waiting, &self.stream) {
            Some(length) => Ok(self.answer_reached(length)),
            None => self.take_next(),
        }
    }

    /// Rules 4 to 8: what wasn't sent on this connection is sent again first.
    fn stream(&mut self, sent: usize) -> Result<Action, AllocError>
        requires { Sound self.old }
        ensures action { IfOk result (λ action. action ≡ (stream_step self.old sent).action) }
        ensures writer { OnOk result (self.new ≡ (stream_step self.old sent).writer) }
        ensures same { OnErr result (self.new ≡ self.old) }
    {
        if let Some(packet) = self.stream.again(sent)? {
            self.phase = Phase::Streaming { sent: sent + 1 };
            return Ok(Action::Send(packet));
        }
        match self.due() {
            Some(packet) => self.form(packet),
            None => self.reach(),
        }
    }

    /// The writer's own step: what is to be done. Want of memory changes nothing.
    #[tactic(auto, unfolding(crate::specs::Transitions::own_step))]
    pub fn own_step(&mut self) -> Result<Action, AllocError>
        requires { Sound self.old }
        ensures action { IfOk result (λ action. action ≡ (own_step self.old).action) }
        ensures writer { OnOk result (self.new ≡ (own_step self.old).writer) }
        ensures same { OnErr result (self.new ≡ self.old) }
    {
        match self.phase {
            Phase::Closed | Phase::Requested { .. } | Phase::Closing => self.take_next(),
            Phase::Wanted { setup } => Ok(Action::Ask(self.stamp_call(setup))),
            Phase::Stamped { setup, stamp } => self.dial(setup, stamp),
            Phase::Accepted { setup, stamp } => Ok(self.accept(setup, stamp)),
            Phase::Opened => Ok(self.answer_opening()),
            Phase::Streaming { sent } => self.stream(sent),
            Phase::Finished => Ok(Action::Ask(OfficeCall::Complete {
                block: self.block,
                stamp: self.committed,
                length: self.stream.written(),
            })),
            Phase::Completed => Ok(self.answer_close()),
            Phase::Failed { failure } => Ok(self.take_failed(failure)),
        }
    }
}

/// What comes on the connection.
impl WriterRecord {
    /// The pipeline failed, and the member at this place is named.
    fn fail(&mut self, remedy: Remedy, place: usize)
        ensures { self.new ≡ fail_at self.old remedy place }
    {
        let Some(member) = self.members.as_slice().get(place).copied() else {
            return;
        };
        match remedy {
            Remedy::Abandon => {
                let failure = Failure::Abandoned { member };
                self.phase = Phase::Failed { failure };
            }
            Remedy::Recover(setup) => self.drop_member(setup, member),
        }
    }

    /// Drops a member: the pipeline of the others is set up so, if any is left.
    fn drop_member(&mut self, setup: Setup, member: NodeId)
        ensures { self.new ≡ dropped self.old setup member (without self.old.members member) }
    {
        self.members = without(&self.members, member);
        self.phase = if self.members.is_empty() {
            let failure = Failure::AllBad { member };
            Phase::Failed { failure }
        } else {
            Phase::Wanted { setup }
        };
    }

    /// The writer's connection ended.
    #[tactic(auto, unfolding(crate::specs::Transitions::ended))]
    pub fn end(&mut self)
        ensures { self.new ≡ ended self.old }
    {
        if let Some(remedy) = self.phase.remedy() {
            self.fail(remedy, 0);
        }
    }

    /// An ack came.
    #[tactic(auto, unfolding(crate::specs::Transitions::acked))]
    pub fn ack(&mut self, ack: &Ack)
        ensures { self.new ≡ acked self.old ack.now }
    {
        let Some(remedy) = self.phase.remedy_at_ack() else {
            return;
        };
        match verdict(self.stream.oldest_seqno(), self.members.len(), ack) {
            Verdict::Good => self.ack_oldest(),
            Verdict::Bad { index } => self.fail(remedy, index),
        }
    }

    /// The oldest packet is acked.
    fn ack_oldest(&mut self)
        ensures { self.new ≡ acked_oldest self.old }
    {
        let last = self.stream.ack_oldest();
        self.phase = match self.phase {
            _ if last => Phase::Finished,
            Phase::Streaming { sent } => Phase::Streaming {
                sent: sent.saturating_sub(1),
            },
            phase => phase,
        };
    }

    /// The answer to a request came.
    #[tactic(auto, unfolding(crate::specs::Transitions::setup_answered))]
    pub fn answer_setup(&mut self, response: &Response, bad: Option<NodeId>)
        ensures { self.new ≡ setup_answered self.old response.now bad }
    {
        let Phase::Requested { setup, stamp } = self.phase else {
            return;
        };
        if is_success(response.status) {
            self.phase = Phase::Accepted { setup, stamp };
        } else {
            let place = bad_place(&self.members, bad);
            self.fail(setup.remedy(), place);
        }
    }

    /// A dial was answered or not.
    #[tactic(auto, unfolding(crate::specs::Transitions::dialled))]
    pub fn dialled(&mut self, answered: bool)
        ensures { self.new ≡ dialled self.old answered }
    {
        let Phase::Stamped { setup, stamp } = self.phase else {
            return;
        };
        if answered {
            self.phase = Phase::Requested { setup, stamp };
        } else {
            self.fail(setup.remedy(), 0);
        }
    }
}

/// What the office answers.
impl WriterRecord {
    /// The office answered.
    #[tactic(auto, unfolding(crate::specs::Transitions::granted))]
    pub fn granted(&mut self, answer: &Result<OfficeAnswer, OfficeFault>)
        ensures { self.new ≡ granted self.old answer.now }
    {
        match *answer {
            Ok(answer) => self.grant(answer),
            Err(fault) => {
                if self.asks() {
                    self.refuse(fault);
                }
            }
        }
    }

    /// Whether something is asked of the office.
    fn asks(&self) -> bool
        ensures { result ≡ asks self.now.phase }
    {
        match self.phase {
            Phase::Accepted { setup, .. } => setup != Setup::Create,
            Phase::Wanted { .. } | Phase::Finished => true,
            _ => false,
        }
    }

    /// The office refused.
    fn refuse(&mut self, fault: OfficeFault)
        ensures { self.new ≡ refused self.old fault }
    {
        let failure = match fault {
            OfficeFault::Memory => return,
            OfficeFault::LeaseLost { recovery } => Failure::Lost { recovery },
            _ => Failure::Refused(fault),
        };
        self.phase = Phase::Failed { failure };
    }

    /// The office granted what was asked.
    fn grant(&mut self, answer: OfficeAnswer)
        ensures { self.new ≡ granted_in self.old self.old.phase answer }
    {
        match (self.phase, answer) {
            (Phase::Wanted { setup }, OfficeAnswer::Stamp(stamp)) => self.take_stamp(setup, stamp),
            (Phase::Wanted { setup }, OfficeAnswer::Reopened(reopened)) => {
                self.reopen(setup, reopened)
            }
            (Phase::Accepted { setup, stamp }, OfficeAnswer::Nothing) => self.commit(setup, stamp),
            (Phase::Finished, OfficeAnswer::Nothing) => self.phase = Phase::Completed,
            _ => {}
        }
    }

    /// The office gave the stamp of a pipeline.
    fn take_stamp(&mut self, setup: Setup, stamp: Stamp)
        ensures { self.new ≡ stamped self.old setup stamp }
    {
        match setup {
            Setup::Create => self.begin_session(stamp, 0),
            Setup::Append => return,
            _ => {}
        }
        self.phase = Phase::Stamped { setup, stamp };
    }

    /// The office reopened the block.
    fn reopen(&mut self, setup: Setup, told: Reopened)
        ensures { self.new ≡ reopened self.old setup told }
    {
        if setup == Setup::Append && told.length <= MAX_APPEND_LENGTH {
            self.begin_session(told.committed, told.length);
            let stamp = told.new;
            self.phase = Phase::Stamped { setup, stamp };
        }
    }

    /// A session begins at this length, under this committed stamp.
    fn begin_session(&mut self, committed: Stamp, base: u64)
        requires { base ≤ MAX_APPEND_LENGTH }
        ensures { self.new ≡ begin_session self.old committed base }
    {
        self.committed = committed;
        self.stream.begin(base);
        self.had_sync = false;
    }

    /// The office committed the stamp of a pipeline.
    fn commit(&mut self, setup: Setup, stamp: Stamp)
        ensures { self.new ≡ committed_as self.old setup stamp }
    {
        let phase = match setup {
            Setup::Create => return,
            Setup::StreamRecovery => Phase::Streaming { sent: 0 },
            Setup::CloseRecovery => Phase::Finished,
            Setup::Append | Setup::AppendRecovery => Phase::Opened,
        };
        self.committed = stamp;
        self.phase = phase;
    }
}

/// The packet that is due of a stream while this command waits.
fn due(waiting: Option<Waiting>, stream: &PacketStream) -> Option<DuePacket>
    ensures { result ≡ due_in waiting stream.now }
{
    let written = stream.written();
    let greatest = stream.greatest_end();
    if greatest <= written {
        return Some(data_due(waiting, greatest));
    }
    if is_flushing(waiting) && stream.sent() < written {
        return Some(data_due(waiting, written));
    }
    match waiting {
        Some(
            Waiting::Sync {
                packet: SyncPacket::Due,
                ..
            },
        ) => Some(DuePacket::Sync),
        Some(Waiting::Close) if stream.acked() == written => Some(DuePacket::Last),
        _ => None,
    }
}

/// A packet with bytes that ends here.
fn data_due(waiting: Option<Waiting>, end: u64) -> DuePacket
    ensures { result ≡ data_due waiting end }
{
    let sync = match waiting {
        Some(
            Waiting::Sync {
                length,
                packet: SyncPacket::Due,
            },
        ) => length == end,
        _ => false,
    };
    DuePacket::Data { end, sync }
}

/// Whether a command waits for all bytes written.
fn is_flushing(waiting: Option<Waiting>) -> bool
    ensures { result ≡ is_flushing waiting }
{
    matches!(
        waiting,
        Some(Waiting::Flush { .. } | Waiting::Sync { .. } | Waiting::Close)
    )
}

/// The command that waits, once the packet of this number was formed, which it waits for or not.
fn waiting_formed(waiting: Option<Waiting>, sync: bool, seqno: i64) -> Option<Waiting>
    ensures { result ≡ sync_formed_as sync seqno waiting }
{
    match waiting {
        Some(Waiting::Sync { length, .. }) if sync => Some(Waiting::Sync {
            length,
            packet: SyncPacket::Formed { seqno },
        }),
        _ => waiting,
    }
}

/// The length that is reached, of a flush or a sync that waits.
fn reached_length(waiting: Option<Waiting>, stream: &PacketStream) -> Option<u64>
    ensures { result ≡ reached_length waiting stream.now }
{
    match waiting {
        Some(Waiting::Flush { length }) if length <= stream.acked() => Some(length),
        Some(
            Waiting::Sync {
                length,
                packet: SyncPacket::Formed { seqno },
            },
        ) if stream.oldest_seqno().is_none_or(|oldest| seqno < oldest) => Some(length),
        _ => None,
    }
}
