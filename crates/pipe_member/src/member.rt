//! A member over its connections.

ghost use Rattle.std.specs.Prelude.{◌≡◌, length, option_map, IfOk, IfErr};
ghost use Rattle.pipe_turns.specs.Acting.{ShutsEnd, ShutsMirror};
ghost use Rattle.pipe_turns.specs.Turning.{CanBook, IsListed, IsSpelled};
ghost use Rattle.pipe_member.specs.Steps.{is_failed, finds_no_memory, is_asked};
ghost use Rattle.pipe_member.specs.Turns.{Turns, Follows, IsNew};
ghost use Rattle.pipe_member.specs.Below.{stands_end};
ghost use Rattle.pipe_member.specs.Events.{GoesDown, GoesUp, IsReady, LooksDownAt, TakesAbove, TakesBelow};

use crate::above::{Above, DueAbove};
use crate::below::Below;
use crate::stages::{Looked, Stage, Took, stage_after};
use crate::stepped::{Stepped, after_failure, closed_step, stepped_of};
use hd_base::{Conn, ConnId, Files, LinkIn, LinkOut, NodeId};
use op_headers::WriteOp;
use pipe_setup::{FromBelow, Member as Core, ReplicaBook, Shuts};
use pipe_turns::{Done, SpelledTurn, act};
use std::alloc::{AllocError, Global};

/// A member of a pipeline at a node, with the connection from above, the request that came on it, and the connection to
/// its mirror once that was dialled.
#[derive(Drop)]
pub struct Member<I, O> {
    pub(crate) node: NodeId,
    pub(crate) op: WriteOp,
    pub(crate) upstream: Conn<I, O>,
    pub(crate) mirror: Option<Conn<I, O>>,
    pub(crate) above: Above,
    pub(crate) below: Below,
    pub(crate) stage: Stage,
}

impl<I: LinkIn, O: LinkOut> Member<I, O> {
    /// The member of a request that came on this connection, not yet set up. Want of memory gives the connection back.
    pub fn new(
        alloc: Global,
        node: NodeId,
        conn: Conn<I, O>,
        op: WriteOp,
    ) -> Result<Member<I, O>, (AllocError, Conn<I, O>)>
        ensures made { IfOk result (λ made. IsNew node conn op made) }
        ensures given_back { IfErr result (λ e. e.1 ≡ conn) }
    {
        let Ok(above) = Above::new(alloc) else {
            return Err((AllocError, conn));
        };
        let Ok(below) = Below::new(alloc) else {
            return Err((AllocError, conn));
        };
        Ok(Member {
            node,
            op,
            upstream: conn,
            mirror: None,
            above,
            below,
            stage: Stage::New,
        })
    }

    /// The connection from above.
    pub fn conn(&self) -> ConnId
        ensures { result ≡ self.now.upstream.id }
    {
        self.upstream.id
    }

    /// The connection to the mirror, where the member holds its end.
    pub fn mirror_conn(&self) -> Option<ConnId>
        ensures { result ≡ option_map (λ end. end.id) self.now.mirror }
    {
        match &self.mirror {
            Some(end) => Some(end.id),
            None => None,
        }
    }

    /// Takes what stands next from above: a packet or what is none, where the member takes messages, and the end always.
    /// Where the link fails, the member takes the end.
    pub fn down<F: Files>(&mut self, alloc: Global, book: &mut ReplicaBook<F>) -> Stepped
        ensures { GoesDown F.Files I.LinkIn O.LinkOut self.old.stage self.old self.new book.old book.new result }
    {
        let Stage::Open(core) = &self.stage else {
            return closed_step(self.stage);
        };
        let core = *core;
        let looked = self.above.look(&mut self.upstream.inward);
        shut_end(is_failed(looked), &mut self.upstream);
        if finds_no_memory(looked) {
            return Stepped::Memory;
        }
        let stepped = self.take_above(alloc, book, core);
        after_failure(looked, stepped)
    }

    /// Does what the member does by itself, if there is something.
    pub fn ready<F: Files>(&mut self, alloc: Global, book: &mut ReplicaBook<F>) -> Stepped
        ensures { IsReady F.Files O.LinkOut self.old.stage self.old self.new book.old book.new result }
    {
        let Stage::Open(core) = &self.stage else {
            return closed_step(self.stage);
        };
        let core = *core;
        let Some(turn) = core.ready(book.replica()) else {
            return Stepped::NotReady;
        };
        let due = SpelledTurn {
            turn,
            spelling: None,
        };
        self.turn(alloc, book, core, due, Took::Nothing)
    }

    /// Takes what stands next from the mirror: its answer to the request, an ack, what is neither, or the end. Where the
    /// link failed the end stands next.
    pub fn up<F: Files>(&mut self, alloc: Global, book: &mut ReplicaBook<F>) -> Stepped
        ensures { GoesUp F.Files I.LinkIn O.LinkOut self.old.stage self.old self.new book.old book.new result }
    {
        let Stage::Open(core) = &self.stage else {
            return closed_step(self.stage);
        };
        let core = *core;
        if !core.hears() {
            return Stepped::NotReady;
        }
        let looked = self.look_down();
        if finds_no_memory(looked) {
            return Stepped::Memory;
        }
        self.take_below(alloc, book, core)
    }

    /// Looks for what stands next from the mirror, where the member is open, and keeps it for `up`. Where the link failed,
    /// the member's end is shut, and the end stands next.
    pub fn look_down(&mut self) -> Looked
        ensures { LooksDownAt I.LinkIn O.LinkOut self.old.stage self.old self.new result }
    {
        let Stage::Open(core) = &self.stage else {
            return Looked::Known;
        };
        let core = *core;
        let looked = self.below.look(is_asked(&core), &mut self.mirror);
        shut_mirror(is_failed(looked), &mut self.mirror);
        looked
    }

    /// Whether the end is known to stand next from the mirror: it was found there and not yet taken, or the link to the
    /// mirror failed while something was sent on it.
    pub fn knows_mirror_end(&self) -> bool
        ensures { result ≡ stands_end self.now.below.next }
    {
        self.below.knows_end()
    }

    /// Takes what stands next from above, where it may.
    fn take_above<F: Files>(
        &mut self,
        alloc: Global,
        book: &mut ReplicaBook<F>,
        core: Core,
    ) -> Stepped
        requires { self.old.stage ≡ Stage.Open core }
        ensures { TakesAbove F.Files O.LinkOut core self.old self.new book.old book.new result }
    {
        let Ok(due) = self.above.due(&core, book.replica()) else {
            return Stepped::Memory;
        };
        let Some(DueAbove { taken, text }) = due else {
            return Stepped::NotReady;
        };
        let turn = SpelledTurn {
            turn: core.down(taken),
            spelling: Some(text),
        };
        self.turn(alloc, book, core, turn, Took::Above)
    }

    /// Takes what stands next from the mirror, if something does.
    fn take_below<F: Files>(
        &mut self,
        alloc: Global,
        book: &mut ReplicaBook<F>,
        core: Core,
    ) -> Stepped
        requires { self.old.stage ≡ Stage.Open core }
        ensures { TakesBelow F.Files O.LinkOut core self.old self.new book.old book.new result }
    {
        let Ok(due) = self.below.due() else {
            return Stepped::Memory;
        };
        let Some(taken) = due else {
            return Stepped::NotReady;
        };
        let turn = core.up(book.replica().oldest(), taken);
        let due = SpelledTurn {
            turn,
            spelling: None,
        };
        self.turn(alloc, book, core, due, Took::Below)
    }

    /// Does a turn: its call on the book, what is sent then, and what follows.
    fn turn<F: Files>(
        &mut self,
        alloc: Global,
        book: &mut ReplicaBook<F>,
        core: Core,
        due: SpelledTurn,
        took: Took,
    ) -> Stepped
        requires book { CanBook (length book.old.replica.pending) due.turn.call }
        requires listed { IsListed due.turn.effect.sends }
        requires spelled { IsSpelled due.turn.call due.spelling }
        ensures { Turns F.Files O.LinkOut core due.turn took self.old self.new book.old book.new result }
    {
        let mut settled = core;
        let (done, shuts) = act(
            alloc,
            book,
            &self.op,
            &mut settled,
            due,
            &mut self.upstream,
            &mut self.mirror,
        );
        self.settle(stage_after(settled, shuts), took, done, shuts)
    }

    /// What follows a turn for the member: a link that failed is shut, and its end stands next.
    pub(crate) fn settle(&mut self, stage: Stage, took: Took, done: Done, shuts: Shuts) -> Stepped
        ensures { Follows O.LinkOut stage took done shuts self.old.upstream self.old.mirror self.old self.new result }
    {
        self.stage = stage;
        self.above.settle(took, done);
        self.below.settle(took, done);
        shut_end(matches!(done, Done::LinkFailed { .. }), &mut self.upstream);
        shut_mirror(matches!(done, Done::MirrorFailed(_)), &mut self.mirror);
        stepped_of(done, shuts)
    }
}

/// Whether the link failed.
fn is_failed(looked: Looked) -> bool
    ensures { result ≡ is_failed looked }
{
    matches!(looked, Looked::Failed)
}

/// Whether memory ran out.
fn finds_no_memory(looked: Looked) -> bool
    ensures { result ≡ finds_no_memory looked }
{
    matches!(looked, Looked::Memory)
}

/// Whether a member that hears its mirror awaits the answer to the request: only then the mirror's end is booked where
/// nothing is pending.
fn is_asked(core: &Core) -> bool
    ensures { result ≡ is_asked core.now.mirror }
{
    core.up(None, FromBelow::End).call.is_some()
}

/// Shuts an end, or not.
pub(crate) fn shut_end<I: Drop, O: LinkOut>(shuts: bool, end: &mut Conn<I, O>)
    ensures { ShutsEnd O.LinkOut shuts end.old end.new }
{
    if shuts {
        end.outward.shut();
    }
}

/// Shuts the end to the mirror, if there is one, or not.
fn shut_mirror<I: Drop, O: LinkOut>(shuts: bool, mirror: &mut Option<Conn<I, O>>)
    ensures { ShutsMirror O.LinkOut shuts mirror.old mirror.new }
{
    if let Some(end) = mirror {
        shut_end(shuts, end);
    }
}
