//! The setup of a member.

ghost use Rattle.std.specs.Prelude.{◌≡◌, ◌<◌, ◌≤◌, if◌then◌else◌, length, option_map, IfOk, OnOk, Ok};
ghost use Rattle.link_pieces.specs.Pieces.{SendsNothing};
ghost use Rattle.replica_core.specs.Views.{rule_in};
ghost use Rattle.replica_core.specs.Transitions.{transition};
ghost use Rattle.pipe_setup.specs.ReplicaFiles.Events.{IsSetup};
ghost use Rattle.pipe_setup.specs.MemberCore.Members.{refused_setup};
ghost use Rattle.pipe_setup.specs.MemberCore.Requests.{request_event};
ghost use Rattle.pipe_setup.specs.MemberCore.TheConstants.{MAX_BELOW};
ghost use Rattle.pipe_turns.specs.Acting.{texts_of, shuts_up};
ghost use Rattle.pipe_member.specs.Setups.{
  IsAsked,
  text_len,
  opened,
  opened_by,
  Says,
  Opens,
  Waits,
  with_mirror,
  FollowsSetup,
  first_by,
  is_memory,
  Refuses,
  SetsUpWith,
  GoesOnWith,
  Begins,
  SetsUp,
};

use crate::member::{Member, shut_end};
use crate::predicting::refusal_at;
use crate::stages::{Stage, Took, stage_after};
use crate::stepped::Stepped;
use hd_base::{Conn, ConnId, Files, LinkIn, LinkOut, Receipt, Roads};
use link_pieces::{send_piece, take_room};
use op_headers::WriteOp;
use pipe_setup::{
    Effect, Member as Core, ReplicaBook, RequestRefusal, Setup, SetupRefusal, Shuts, go_on,
    request_event, setup_local,
};
use pipe_turns::{Done, send_alone, upward_text};
use replica_core::{Event, Refusal, Replica};
use std::alloc::{AllocError, Global};

/// A request that is about to be booked.
#[derive(Drop)]
pub(crate) struct Opening {
    /// The member then, where its mirror was asked.
    pub asked: Core,
    /// The member then, where it has no mirror, or one that can't be asked.
    pub unasked: Core,
    /// What the member without a mirror shuts once it has answered.
    pub shuts: Shuts,
    /// The answer of the member without a mirror, or of one whose replica refuses.
    pub answer: Option<Vec<u8>>,
    /// The answer where a call on the replica's files fails.
    pub fault: Option<Vec<u8>>,
}

impl<I: LinkIn, O: LinkOut> Member<I, O> {
    /// Sets the member up: its request is refused, or booked, and goes on to its mirror. This is called first, and again
    /// after `Memory`: a request that was booked then goes on with the dial.
    pub fn set_up<F: Files, R: Roads<Inward = I, Outward = O>>(
        &mut self,
        alloc: Global,
        book: &mut ReplicaBook<F>,
        roads: &mut R,
    ) -> Stepped
        ensures { SetsUp F.Files R.Roads I.LinkIn O.LinkOut self.old.stage
            self.old self.new book.old book.new roads.old roads.new result }
    {
        match &self.stage {
            Stage::New => self.begin(alloc, book, roads),
            Stage::Booked {
                receipt,
                asked,
                unasked,
            } => {
                let (receipt, asked, unasked) = (*receipt, *asked, *unasked);
                self.resume(alloc, roads, receipt, asked, unasked)
            }
            Stage::Open(_) => Stepped::NotReady,
            Stage::Shut => Stepped::Shut { receipt: None },
        }
    }

    /// Refuses the request, or books it.
    fn begin<F: Files, R: Roads<Inward = I, Outward = O>>(
        &mut self,
        alloc: Global,
        book: &mut ReplicaBook<F>,
        roads: &mut R,
    ) -> Stepped
        ensures { Begins F.Files R.Roads I.LinkIn O.LinkOut
            (request_event self.old.upstream.id self.old.op (rule_in book.old.replica))
            self.old self.new book.old book.new roads.old roads.new result }
    {
        match request_event(self.upstream.id, &self.op, book.replica().rule()) {
            Ok(event) => self.book_request(alloc, book, roads, event),
            Err(refusal) => self.refuse(alloc, refusal),
        }
    }

    /// Refuses the request before the replica is asked.
    fn refuse(&mut self, alloc: Global, refusal: RequestRefusal) -> Stepped
        ensures { Refuses O.LinkOut (texts_of self.old.op (refused_setup refusal).sends) self.old self.new result }
    {
        let effect = Core::refuse(refusal);
        let Ok(text) = upward_text(alloc, &self.op, &effect.sends) else {
            return Stepped::Memory;
        };
        let done = send_alone(alloc, &text, &mut self.upstream.outward);
        if is_memory(done) {
            return Stepped::Memory;
        }
        shut_end(true, &mut self.upstream);
        self.settle(Stage::Shut, Took::Nothing, done, Shuts::Both)
    }

    /// Books the request, and answers it or lets it go on.
    fn book_request<F: Files, R: Roads<Inward = I, Outward = O>>(
        &mut self,
        alloc: Global,
        book: &mut ReplicaBook<F>,
        roads: &mut R,
        event: Event,
    ) -> Stepped
        requires { request_event self.old.upstream.id self.old.op (rule_in book.old.replica) ≡ Ok event }
        ensures { SetsUpWith F.Files R.Roads I.LinkIn O.LinkOut event
            self.old self.new book.old book.new roads.old roads.new result }
    {
        let made = make_opening(alloc, self.upstream.id, &self.op, &event, book.replica());
        let Ok(opening) = made else {
            return Stepped::Memory;
        };
        let Ok(()) = make_room(alloc, &opening, &mut self.upstream.outward) else {
            return Stepped::Memory;
        };
        let conn = self.upstream.id;
        let setup = setup_local(alloc, self.node, book, &self.op, conn, roads);
        self.follow(setup, &opening)
    }

    /// Lets a request that was booked go on.
    fn resume<R: Roads<Inward = I, Outward = O>>(
        &mut self,
        alloc: Global,
        roads: &mut R,
        receipt: Receipt,
        asked: Core,
        unasked: Core,
    ) -> Stepped
        ensures { GoesOnWith R.Roads I.LinkIn O.LinkOut receipt asked unasked
            self.old self.new roads.old roads.new result }
    {
        match go_on(alloc, self.node, &self.op, receipt, roads) {
            Setup::Mirrored(receipt, end) => self.ask(end, asked, receipt),
            Setup::MirrorDown { receipt, answered } => {
                self.wait(asked_if(asked, unasked, answered), receipt)
            }
            Setup::Last(receipt) => self.wait(unasked, receipt),
            Setup::Refused(_) | Setup::File(_) | Setup::Memory { .. } => Stepped::Memory,
        }
    }

    /// What follows the setup.
    fn follow(&mut self, setup: Setup<I, O>, opening: &Opening) -> Stepped
        requires answer { text_len (opened_by opening.now).answer < O.room self.old.upstream.outward }
        requires fault { text_len (opened_by opening.now).fault < O.room self.old.upstream.outward }
        requires booked { IsAsked setup }
        ensures { FollowsSetup O.LinkOut (opened_by opening.now) setup self.old self.new result }
    {
        match setup {
            Setup::Last(receipt) => {
                let stage = stage_after(opening.unasked, opening.shuts);
                self.open(stage, opening.shuts, &opening.answer, receipt)
            }
            Setup::Mirrored(receipt, end) => self.ask(end, opening.asked, receipt),
            Setup::MirrorDown { receipt, answered } => {
                let core = asked_if(opening.asked, opening.unasked, answered);
                self.wait(core, receipt)
            }
            Setup::Refused(SetupRefusal::Core(_, receipt)) => {
                self.open(Stage::Shut, Shuts::Both, &opening.answer, receipt)
            }
            Setup::Refused(_) => unreachable!(),
            Setup::File(receipt) => {
                let _ = self.open(Stage::Shut, Shuts::Both, &opening.fault, receipt);
                Stepped::File(receipt)
            }
            Setup::Memory { booked: None } => Stepped::Memory,
            Setup::Memory {
                booked: Some(receipt),
            } => {
                self.stage = Stage::Booked {
                    receipt,
                    asked: opening.asked,
                    unasked: opening.unasked,
                };
                Stepped::Memory
            }
        }
    }

    /// The request was sent to the mirror on this end.
    fn ask(&mut self, end: Conn<I, O>, core: Core, receipt: Receipt) -> Stepped
        ensures { Waits O.LinkOut receipt core (with_mirror self.old end) self.new result }
    {
        self.mirror = Some(end);
        self.wait(core, receipt)
    }

    /// The member is open, and waits for its mirror's answer or is to tell that none can be had.
    fn wait(&mut self, core: Core, receipt: Receipt) -> Stepped
        ensures { Waits O.LinkOut receipt core self.old self.new result }
    {
        let done = Done::Taken {
            receipt: Some(receipt),
        };
        self.settle(Stage::Open(core), Took::Nothing, done, Shuts::Nothing)
    }

    /// The member answers its request, and is open or shut then.
    fn open(
        &mut self,
        stage: Stage,
        shuts: Shuts,
        text: &Option<Vec<u8>>,
        receipt: Receipt,
    ) -> Stepped
        requires { text_len (option_map (λ t. t.items) text.now) < O.room self.old.upstream.outward }
        ensures { Opens O.LinkOut (option_map (λ t. t.items) text.now) receipt stage shuts self.old self.new result }
    {
        let done = say(text, receipt, &mut self.upstream.outward);
        shut_end(shuts_up(shuts), &mut self.upstream);
        self.settle(stage, Took::Nothing, done, shuts)
    }
}

/// What is known of a request before it is booked, with its answers as they are written.
fn make_opening(
    alloc: Global,
    conn: ConnId,
    op: &WriteOp,
    event: &Event,
    replica: &Replica,
) -> Result<Opening, AllocError>
    requires few { length op.now.targets ≤ MAX_BELOW }
    requires setup { IsSetup event.now }
    ensures { IfOk result (λ made. opened_by made ≡ opened conn op.now (transition replica.now event.now)) }
{
    let (asked, _) = Core::set_up(conn, op, true);
    let (unasked, effect) = Core::set_up(conn, op, false);
    let shuts = effect.shuts;
    let first = first_by(refusal_at(replica, event), effect);
    let answer = upward_text(alloc, op, &first.sends)?;
    let fault = upward_text(alloc, op, &Core::refuse(RequestRefusal::File).sends)?;
    Ok(Opening {
        asked,
        unasked,
        shuts,
        answer,
        fault,
    })
}

/// What the member does at once: this, or it says why its replica refuses.
fn first_by(refused: Option<Refusal>, effect: Effect) -> Effect
    ensures { result ≡ first_by refused effect }
{
    match refused {
        Some(refusal) => Core::refuse(RequestRefusal::Core(refusal)),
        None => effect,
    }
}

/// Whether the connection from above is shut.
fn shuts_up(shuts: Shuts) -> bool
    ensures { result ≡ shuts_up shuts }
{
    matches!(shuts, Shuts::Both)
}

/// Whether memory ran out.
fn is_memory(done: Done) -> bool
    ensures { result ≡ is_memory done }
{
    matches!(done, Done::Memory)
}

/// The member's rules by whether its mirror was asked.
fn asked_if(asked: Core, unasked: Core, answered: bool) -> Core
    ensures { result ≡ (if answered then asked else unasked) }
{
    if answered { asked } else { unasked }
}

/// How long a text is that goes up, if there is one.
fn text_len(text: &Option<Vec<u8>>) -> usize
    ensures { result ≡ text_len (option_map (λ t. t.items) text.now) }
{
    match text {
        Some(text) => text.len(),
        None => 0,
    }
}

/// Takes the room for either answer.
fn make_room<O: LinkOut>(
    alloc: Global,
    opening: &Opening,
    outward: &mut O,
) -> Result<(), AllocError>
    ensures answer { OnOk result (text_len (opened_by opening.now).answer < O.room outward.new) }
    ensures fault { OnOk result (text_len (opened_by opening.now).fault < O.room outward.new) }
    ensures quiet { SendsNothing O.LinkOut outward.old outward.new }
{
    let len = text_len(&opening.answer).max(text_len(&opening.fault));
    take_room(alloc, outward, len)
}

/// Sends this up, if there is something, where there is room for it.
fn say<O: LinkOut>(text: &Option<Vec<u8>>, receipt: Receipt, outward: &mut O) -> Done
    requires { text_len (option_map (λ t. t.items) text.now) < O.room outward.old }
    ensures { Says O.LinkOut (option_map (λ t. t.items) text.now) receipt outward.old outward.new result }
{
    let receipt = Some(receipt);
    let Some(text) = text else {
        return Done::Taken { receipt };
    };
    match send_piece(outward, text) {
        Ok(_) => Done::Taken { receipt },
        Err(_) => Done::LinkFailed { receipt },
    }
}
