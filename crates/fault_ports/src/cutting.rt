//! Roads whose connections can be cut.

ghost use Rattle.std.specs.Prelude.{◌≡◌, Some, None, IfSome, is_some};
ghost use Rattle.std.proofs.Props.{props};
ghost use Rattle.hd_base.specs.Channels.{Plain};
ghost use Rattle.fault_ports.specs.Cuts.{AllObservable, CountsAll};
ghost use Rattle.fault_ports.specs.PieceCounts.{dialled_by};

use crate::cuts::CutRoads;
use crate::halves::{CutIn, CutOut};
use crate::offers::{offer_next, seen_next};
use crate::passes::{add_risen, counted_fault, has_failed, own_halves, still_pending, wrapped};
use crate::piece_counts::PieceCounts;
use hd_base::{Conn, ConnId, LinkIn, LinkOut, NodeId, RoadError, Roads, Standing};
use std::alloc::{AllocError, Global};

/// Roads whose connections can be cut: of the pieces in flight so many still arrive, and then the
/// end; what is sent later is lost.
#[derive(Drop)]
pub struct Cutting<R: Roads> {
    inner: R,
    /// Whether these are roads over plain memory.
    plain: bool,
    /// The newest connection that was dialled.
    newest: Option<u64>,
    counts: PieceCounts,
    /// The connections an end of which had failed.
    risen: Vec<u64>,
    faults: u64,
    ghost plain_seen: { plain ≡ is_some (R.plain inner) },
    ghost dialled: { IfSome (R.plain inner) (λ p. p.dialled ≡ dialled_by newest) } by { Prim.hlevel props },
    ghost counted: { IfSome (R.plain inner) (CountsAll counts.duplexes.items) } by { Prim.hlevel props },
    ghost observable: { IfSome (R.plain inner) (λ _.
        AllObservable R.Inward.LinkIn R.Outward.LinkOut) } by { Prim.hlevel props },
}

impl<R: Roads> Cutting<R> {
    ghost use Rattle.std.specs.Prelude.{◌≡◌, ℕ, false, None, IfSome, IsSome, is_some, []};
    ghost use Rattle.fault_ports.specs.Cuts.{AllObservable};

    /// Roads over plain memory with no connection cut. No connection was made on them, and what
    /// their ends hold and have sent is observable.
    pub fn new(alloc: Global, inner: R) -> Cutting<R>
        requires plain { IsSome (R.plain inner) }
        requires unused { IfSome (R.plain inner) (λ p. p.dialled ≡ 0) }
        requires observable { IfSome (R.plain inner) (λ _. AllObservable R.Inward.LinkIn R.Outward.LinkOut) }
        ensures plain { ⟦<Cutting<R> as Roads>⟧.plain result ≡ R.plain inner }
        ensures carried { ⟦<Cutting<R> as Roads>⟧.carried result ≡ R.carried inner }
        ensures risen { (c : ℕ) → ⟦<Cutting<R> as Roads>⟧.risen result c ≡ false }
        ensures sound { ⟦<Cutting<R> as Roads>⟧.faults result ≡ 0 }
    {
        Cutting::uncut(alloc, inner, true)
    }

    /// Roads whose links carry by themselves. Of a cut of these nothing is promised.
    pub fn over_links(alloc: Global, inner: R) -> Cutting<R>
        requires { R.plain inner ≡ None }
        ensures plain { ⟦<Cutting<R> as Roads>⟧.plain result ≡ None }
        ensures carried { ⟦<Cutting<R> as Roads>⟧.carried result ≡ R.carried inner }
        ensures risen { (c : ℕ) → ⟦<Cutting<R> as Roads>⟧.risen result c ≡ false }
        ensures sound { ⟦<Cutting<R> as Roads>⟧.faults result ≡ 0 }
    {
        Cutting::uncut(alloc, inner, false)
    }

    /// The roads, over plain memory or not, with no connection cut.
    fn uncut(alloc: Global, inner: R, plain: bool) -> Cutting<R>
        requires plain { plain ≡ is_some (R.plain inner) }
        requires unused { IfSome (R.plain inner) (λ p. p.dialled ≡ 0) }
        requires observable { IfSome (R.plain inner) (λ _. AllObservable R.Inward.LinkIn R.Outward.LinkOut) }
        ensures inner { result.inner ≡ inner }
        ensures counts { result.counts.duplexes.items ≡ [] }
        ensures risen { result.risen.items ≡ [] }
        ensures sound { result.faults ≡ 0 }
    {
        Cutting {
            inner,
            plain,
            newest: None,
            counts: PieceCounts::new(alloc),
            risen: Vec::new(alloc),
            faults: 0,
        }
    }

    /// The roads themselves, with all pieces on them.
    pub fn into_inner(self) -> R
        ensures carried { R.carried result ≡ ⟦<Cutting<R> as Roads>⟧.carried self }
    {
        let Cutting { inner, .. } = self;
        inner
    }
}

impl<R: Roads> CutRoads for Cutting<R> {
    /// Connections over links that carry by themselves stay as they are.
    fn cut(&mut self, conn: ConnId, down: u64, up: u64) -> Result<(), AllocError> {
        if !self.plain {
            return Ok(());
        }
        self.counts.list(self.newest, conn)?;
        self.counts.cut(conn, down, up);
        Ok(())
    }
}

impl<R: Roads> Roads for Cutting<R> {
    ghost use Rattle.std.specs.Prelude.{◌≡◌, ◌==◌, ◌||◌, ◌&&◌, ℕ, None, option_map, OnOk, OnErr};
    ghost use Rattle.hd_base.specs.Ends.{IsKnown, CarriesOf, Flushes, KeepsConnections, has_failed as end_failed};
    ghost use Rattle.hd_base.specs.RoadCauses.{OnlyMemory};
    ghost use Rattle.hd_base.specs.Faults.{KeepsSchedule};
    ghost use Rattle.fault_ports.specs.Cuts.{seen_plain};
    ghost use Rattle.mem_ports.specs.Roads.{risen_of};

    type Inward = CutIn<R::Inward>;

    type Outward = CutOut<R::Outward>;

    ghost carried = { λ c. R.carried c.inner };

    ghost plain = { λ c. option_map (seen_plain c.counts.duplexes.items) (R.plain c.inner) };

    ghost risen = { λ c. risen_of c.risen.items };

    ghost faults = { λ c. c.faults };

    ghost schedule = { λ _. None };

    fn share(&mut self, alloc: Global) -> Result<Cutting<R>, RoadError> {
        match self.inner.share(alloc) {
            Ok(inner) => {
                self.plain = false;
                Ok(Cutting {
                    inner,
                    plain: false,
                    newest: None,
                    counts: PieceCounts::new(alloc),
                    risen: Vec::new(alloc),
                    faults: 0,
                })
            }
            Err(error) => Err(counted_fault(&mut self.faults, error)),
        }
    }

    fn listen(&mut self, alloc: Global, node: NodeId) -> Result<u16, RoadError> {
        match self.inner.listen(alloc, node) {
            Ok(port) => Ok(port),
            Err(error) => Err(counted_fault(&mut self.faults, error)),
        }
    }

    fn dial(
        &mut self,
        alloc: Global,
        port: u16,
    ) -> Result<Conn<CutIn<R::Inward>, CutOut<R::Outward>>, RoadError> {
        match self.inner.dial(alloc, port) {
            Ok(end) => {
                self.newest = Some(end.id.0);
                Ok(wrapped(end))
            }
            Err(error) => Err(counted_fault(&mut self.faults, error)),
        }
    }

    fn accept(
        &mut self,
        alloc: Global,
        port: u16,
    ) -> Result<Option<Conn<CutIn<R::Inward>, CutOut<R::Outward>>>, RoadError> {
        match self.inner.accept(alloc, port) {
            Ok(Some(end)) => Ok(Some(wrapped(end))),
            Ok(None) => Ok(None),
            Err(error) => Err(counted_fault(&mut self.faults, error)),
        }
    }

    fn hang_up(&mut self, port: u16) {
        self.inner.hang_up(port);
    }

    fn standing(&mut self, conn: ConnId, down: bool) -> Standing {
        let standing = self.inner.standing(conn, down);
        if !self.plain {
            return standing;
        }
        seen_next(standing, self.counts.get(conn, down).left)
    }

    fn exchange(
        &mut self,
        alloc: Global,
        end: &mut Conn<CutIn<R::Inward>, CutOut<R::Outward>>,
        take: bool,
    ) -> Result<(), RoadError> {
        let Ok(grown) = self
            .counts
            .grown(self.newest, end.id, !end.lower, end.outward.pending)
        else {
            return Err(RoadError::Memory);
        };
        let standing = self.inner.standing(end.id, end.lower);
        let left = self.counts.get(end.id, end.lower).left;
        let Ok(offer) = offer_next(&mut end.inward, self.plain, standing, left, take) else {
            return Err(counted_fault(&mut self.faults, RoadError::Failed));
        };
        let (id, lower) = (end.id, end.lower);
        let cut_in = &mut end.inward;
        let cut_out = &mut end.outward;
        let (Some(inward), Some(outward)) = (cut_in.inner.take(), cut_out.inner.take()) else {
            unreachable!();
        };
        let mut lent = Conn {
            id,
            lower,
            inward,
            outward,
        };
        let done = self.inner.exchange(alloc, &mut lent, offer.passes());
        let Conn {
            inward,
            outward,
            ..
        } = lent;
        cut_in.inner = Some(inward);
        cut_out.inner = Some(outward);
        if let Err(error) = done {
            return Err(counted_fault(&mut self.faults, error));
        }
        cut_out.pending = still_pending(self.plain, cut_out.pending);
        cut_in.ended = offer.ends(cut_in.ended);
        self.counts.set(id, !lower, grown);
        self.counts.book(id, lower, offer);
        Ok(())
    }

    fn bring(
        &mut self,
        alloc: Global,
        end: Conn<CutIn<R::Inward>, CutOut<R::Outward>>,
    ) -> Result<(), RoadError>
        requires { IsKnown (option_map (seen_plain self.old.counts.duplexes.items) (R.plain self.old.inner)) end.id.0 }
        ensures carried { OnOk result (CarriesOf
            ⟦<CutOut<R::Outward> as LinkOut>⟧ end (R.carried self.old.inner) (R.carried self.new.inner)) }
        ensures plain { OnOk result (Flushes
            ⟦<CutIn<R::Inward> as LinkIn>⟧ ⟦<CutOut<R::Outward> as LinkOut>⟧ end
            (option_map (seen_plain self.old.counts.duplexes.items) (R.plain self.old.inner))
            (option_map (seen_plain self.new.counts.duplexes.items) (R.plain self.new.inner))) }
        ensures connections { KeepsConnections
            (option_map (seen_plain self.old.counts.duplexes.items) (R.plain self.old.inner))
            (option_map (seen_plain self.new.counts.duplexes.items) (R.plain self.new.inner)) }
        ensures risen { OnOk result ((c : ℕ) → risen_of self.new.risen.items c
            ≡ (risen_of self.old.risen.items c || ((end.id.0 == c)
            && end_failed ⟦<CutIn<R::Inward> as LinkIn>⟧ ⟦<CutOut<R::Outward> as LinkOut>⟧ end))) }
        ensures err_carried { OnErr result (R.carried self.new.inner ≡ R.carried self.old.inner) }
        ensures err_plain { OnErr result (
            option_map (seen_plain self.new.counts.duplexes.items) (R.plain self.new.inner)
            ≡ option_map (seen_plain self.old.counts.duplexes.items) (R.plain self.old.inner)) }
        ensures err_risen { OnErr result (risen_of self.new.risen.items ≡ risen_of self.old.risen.items) }
        ensures cause { OnlyMemory self.old.faults self.new.faults result }
        ensures schedule { KeepsSchedule None None self.old.faults self.new.faults }
    {
        let Ok(grown) = self
            .counts
            .grown(self.newest, end.id, !end.lower, end.outward.pending)
        else {
            return Err(RoadError::Memory);
        };
        if self.risen.reserve(1).is_err() {
            return Err(RoadError::Memory);
        }
        let failed = has_failed(&end);
        let (id, lower) = (end.id, end.lower);
        let (inward, outward) = own_halves(end.inward, end.outward);
        let lent = Conn {
            id,
            lower,
            inward,
            outward,
        };
        self.inner.bring(alloc, lent)?;
        self.counts.set(id, !lower, grown);
        add_risen(&mut self.risen, id, failed);
        Ok(())
    }

    fn risen(&self, conn: ConnId) -> bool {
        self.risen.contains(&conn.0)
    }

    fn gather(&mut self, alloc: Global, share: Cutting<R>) -> Result<(), RoadError> {
        let Cutting {
            inner,
            plain: _,
            newest: _,
            counts: _,
            mut risen,
            faults,
        } = share;
        if self.risen.reserve(risen.len()).is_err() {
            return Err(RoadError::Memory);
        }
        self.inner.gather(alloc, inner)?;
        let _ = self.risen.append(&mut risen);
        self.faults = self.faults.saturating_add(faults);
        Ok(())
    }
}
