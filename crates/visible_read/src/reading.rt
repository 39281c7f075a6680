//! The reading client, which owns its connection.

ghost use Rattle.std.specs.Prelude.{◌≡◌, true, is_some, IfOk, IfErr};
ghost use Rattle.hd_base.specs.Ends.{IsKnown};
ghost use Rattle.link_pieces.specs.Roads.{names, ExchangesEnd, BringsEnd};
ghost use Rattle.visible_read.specs.Talking.{FitsRequest, Begins, Steps, StaysOpen};

use crate::talking::{ReadStep, Talk};
use hd_base::{Conn, ConnId, LinkIn, LinkOut, RoadError, Roads};
use link_pieces::exchange_end;
use op_headers::ReadOp;
use std::alloc::{AllocError, Global};

/// A read over a connection that was dialled for it.
#[derive(Drop)]
pub struct Reading<I, O> {
    end: Conn<I, O>,
    talk: Talk,
}

impl<I: LinkIn, O: LinkOut> Reading<I, O> {
    /// A read of which nothing was done, over this end. The request's message has at most 65,536 bytes: `fits_request`
    /// tests this. Want of memory gives the end back.
    pub fn new(
        alloc: Global,
        end: Conn<I, O>,
        op: ReadOp,
    ) -> Result<Reading<I, O>, (AllocError, Conn<I, O>)>
        requires { FitsRequest op }
        ensures end { IfOk result (λ reading. reading.end ≡ end) }
        ensures begins { IfOk result (λ reading. Begins op reading.talk) }
        ensures given_back { IfErr result (λ e. e.1 ≡ end) }
    {
        match Talk::new(alloc, op) {
            Ok(talk) => Ok(Reading { end, talk }),
            Err(error) => Err((error, end)),
        }
    }

    /// The connection.
    pub fn conn(&self) -> ConnId
        ensures { result ≡ self.now.end.id }
    {
        self.end.id
    }

    /// Whether the read goes on: it has no result so far.
    pub fn is_open(&self) -> bool
        ensures { result ≡ is_some self.now.talk.core }
    {
        self.talk.is_open()
    }

    /// Sends the request; after that takes what comes next from the node. `Waiting` comes exactly where no whole
    /// message and no end stands next.
    pub fn step(&mut self, alloc: Global) -> ReadStep
        requires { is_some self.old.talk.core ≡ true }
        ensures steps { Steps I.LinkIn O.LinkOut self.old.talk self.new.talk self.old.end self.new.end result }
        ensures still { StaysOpen result self.new.talk.core }
    {
        self.talk.step(alloc, &mut self.end)
    }

    /// Exchanges the end with the roads that gave it, with `take` where it is named.
    pub fn exchange<R: Roads<Inward = I, Outward = O>>(
        &mut self,
        alloc: Global,
        roads: &mut R,
        take: Option<ConnId>,
    ) -> Result<(), RoadError>
        requires { IsKnown (R.plain roads.old) self.old.end.id.0 }
        ensures exchanges { ExchangesEnd R.Roads I.LinkIn O.LinkOut (names take self.old.end.id)
            self.old.end self.new.end roads.old roads.new result }
        ensures talk { self.new.talk ≡ self.old.talk }
    {
        exchange_end(alloc, roads, &mut self.end, take)
    }

    /// Brings the end back to the roads that gave it.
    pub fn retire<R: Roads<Inward = I, Outward = O>>(
        self,
        alloc: Global,
        roads: &mut R,
    ) -> Result<(), RoadError>
        requires { IsKnown (R.plain roads.old) self.end.id.0 }
        ensures { BringsEnd R.Roads I.LinkIn O.LinkOut self.end roads.old roads.new result }
    {
        roads.bring(alloc, self.end)
    }
}
