//! A shelf whose drawers stop at a call.

ghost use Rattle.std.specs.Prelude.{◌≡◌, ◌-◌, ◌^◌, None};

use fault_ports::{Keep, StopAt};
use hd_base::{BlockId, FileError, FileName, Shelf};
use std::alloc::Global;

/// A shelf of which each drawer passes so many calls that aren't mere reads, and stops at the next one. Its count of
/// faults stands at its greatest value from the start.
#[derive(Drop)]
pub(crate) struct Stopping<S> {
    pub(crate) inner: S,
    pub(crate) calls: u64,
    pub(crate) keep: Keep,
}

impl<S: Shelf> Shelf for Stopping<S> {
    type Drawer = StopAt<S::Drawer>;

    ghost files = { λ s. S.files s.inner };

    ghost lent = { λ s. S.lent s.inner };

    ghost faults = { λ _. 2 ^ 64 - 1 };

    ghost schedule = { λ _. None };

    fn list(&mut self, alloc: Global) -> Result<Vec<FileName>, FileError> {
        self.inner.list(alloc)
    }

    fn lend(&mut self, alloc: Global, block: BlockId) -> Result<StopAt<S::Drawer>, FileError> {
        match self.inner.lend(alloc, block) {
            Ok(drawer) => Ok(StopAt::new(drawer, self.calls, self.keep)),
            Err(error) => Err(error),
        }
    }

    fn give_back(&mut self, block: BlockId, drawer: StopAt<S::Drawer>) {
        self.inner.give_back(block, drawer.into_inner());
    }
}
