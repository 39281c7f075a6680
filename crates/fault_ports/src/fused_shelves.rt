//! Shelves whose drawers can be made to refuse the writes on data files.

ghost use Rattle.std.specs.Prelude.{◌≡◌, ◌+◌, ℕ, None, IsOk, IfOk};

use crate::fused::FusedDrawer;
use hd_base::{BlockId, FileError, FileName, Shelf};
use std::alloc::{AllocError, Global};

/// A shelf of which each drawer can be made to refuse the writes on data files. A drawer that is lent takes writes.
#[derive(Debug, Drop)]
pub struct Fused<S> {
    inner: S,
    /// The faults of the drawers' own that came back.
    brought: u64,
}

impl<S: Shelf> Fused<S> {
    /// The shelf with drawers that take writes. Memory is never short here; the shelf would come
    /// back with that error.
    pub fn new(inner: S) -> Result<Fused<S>, (AllocError, S)>
        ensures made { IsOk result }
        ensures files { IfOk result (λ f. ⟦<Fused<S> as Shelf>⟧.files f ≡ S.files inner) }
        ensures lent { IfOk result (λ f. ⟦<Fused<S> as Shelf>⟧.lent f ≡ S.lent inner) }
        ensures faults { IfOk result (λ f. ⟦<Fused<S> as Shelf>⟧.faults f ≡ S.faults inner) }
    {
        Ok(Fused { inner, brought: 0 })
    }

    /// The shelf itself.
    pub fn into_inner(self) -> S
        ensures files { S.files result ≡ ⟦<Fused<S> as Shelf>⟧.files self }
        ensures lent { S.lent result ≡ ⟦<Fused<S> as Shelf>⟧.lent self }
    {
        let Fused { inner, brought: _ } = self;
        inner
    }
}

impl<S: Shelf> Shelf for Fused<S> {
    type Drawer = FusedDrawer<S::Drawer>;

    ghost files = { λ s. S.files s.inner };

    ghost lent = { λ s. S.lent s.inner };

    ghost faults = { λ s. S.faults s.inner + s.brought };

    ghost schedule = { λ _. None };

    fn list(&mut self, alloc: Global) -> Result<Vec<FileName>, FileError> {
        self.inner.list(alloc)
    }

    fn lend(&mut self, alloc: Global, block: BlockId) -> Result<FusedDrawer<S::Drawer>, FileError> {
        match self.inner.lend(alloc, block) {
            Ok(drawer) => Ok(FusedDrawer::new(drawer)),
            Err(error) => Err(error),
        }
    }

    fn give_back(&mut self, block: BlockId, drawer: FusedDrawer<S::Drawer>) {
        let (inner, faults) = drawer.into_parts();
        self.inner.give_back(block, inner);
        self.brought = self.brought.saturating_add(faults);
    }
}
