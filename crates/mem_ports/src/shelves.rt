//! A node's files in memory.

ghost use Rattle.std.specs.Prelude.{◌≡◌, ◌==◌, ◌+◌, ◌<◌, ℕ, true, false, Some, IfSome, IfOk, IfErr, vec_len};
ghost use Rattle.std.specs.List.{position_from};
ghost use Rattle.hd_base.specs.FileMaps.{no_files, AreNamesOf};
ghost use Rattle.mem_ports.specs.Failing.{schedule_of};
ghost use Rattle.mem_ports.specs.Schedules.{coming};
ghost use Rattle.mem_ports.specs.Slots.{files_of, lent_of, blocks_apart};

use crate::drawers::MemDrawer;
use crate::listings::{in_order, push_names};
use crate::schedules::FaultSchedule;
use crate::slots::{Slot, find_slot};
use crate::tables::FileTable;
use hd_base::{BlockId, FileError, FileName, Shelf};
use std::alloc::{AllocError, Global};
use std::mem;

/// A node's files in memory. What a drawer holds of other blocks than its own is given up when it
/// comes back.
#[derive(Debug, Drop)]
pub struct MemShelf {
    slots: Vec<Slot>,
    /// The faults of the drawers that came back.
    pub(crate) brought: u64,
    pub(crate) schedule: FaultSchedule,
    ghost apart: { blocks_apart slots.items ≡ true },
}

impl MemShelf {
    /// A shelf without files that fails at the calls of `list` with these numbers, counting from
    /// 1. A drawer goes on counting from the calls made before it was lent.
    pub fn new(alloc: Global, failing: &[u64]) -> Result<MemShelf, AllocError>
        ensures files { IfOk result (λ s. ⟦<MemShelf as Shelf>⟧.files s ≡ Some no_files) }
        ensures lent { IfOk result (λ s. (block : ℕ) → ⟦<MemShelf as Shelf>⟧.lent s block ≡ false) }
        ensures sound { IfOk result (λ s. ⟦<MemShelf as Shelf>⟧.faults s ≡ 0) }
        ensures schedule { IfOk result (λ s. ⟦<MemShelf as Shelf>⟧.schedule s ≡ Some (schedule_of failing.now)) }
    {
        Ok(MemShelf {
            slots: Vec::new(alloc),
            brought: 0,
            schedule: FaultSchedule::new(alloc, failing)?,
        })
    }

    /// The place of a block's slot.
    fn find(&self, block: BlockId) -> Option<usize>
        ensures place { result ≡ position_from (λ s. s.block.0 == block.0) 0 self.now.slots.items }
        ensures within { IfSome result (λ i. i < vec_len self.now.slots) }
    {
        find_slot(&self.slots, block)
    }

    /// The place of a block's slot, which is made where there is none. Its only error is `Memory`.
    fn slot(&mut self, alloc: Global, block: BlockId) -> Result<usize, FileError>
        ensures place { IfOk result (λ i.
            Some i ≡ position_from (λ s. s.block.0 == block.0) 0 self.new.slots.items) }
        ensures within { IfOk result (λ i. i < vec_len self.new.slots) }
        ensures files { files_of self.new.slots.items ≡ files_of self.old.slots.items }
        ensures lent { lent_of self.new.slots.items ≡ lent_of self.old.slots.items }
        ensures brought { self.new.brought ≡ self.old.brought }
        ensures schedule { self.new.schedule ≡ self.old.schedule }
        ensures memory { IfErr result (λ e. e ≡ FileError.Memory) }
    {
        if let Some(place) = self.find(block) {
            return Ok(place);
        }
        if self.slots.reserve(1).is_err() {
            return Err(FileError::Memory);
        }
        let place = self.slots.len();
        self.slots.push_reserved(Slot {
            block,
            lent: false,
            table: FileTable::new(alloc),
        });
        Ok(place)
    }

    /// The names of all files, in ascending order.
    fn listed(&self, alloc: Global) -> Result<Vec<FileName>, AllocError>
        ensures names { IfOk result (λ v. AreNamesOf (files_of self.now.slots.items) v.items) }
    {
        let mut names = Vec::new(alloc);
        for slot in &self.slots {
            push_names(&mut names, &slot.table.entries)?;
        }
        in_order(names)
    }
}

impl Shelf for MemShelf {
    type Drawer = MemDrawer;

    ghost files = { λ s. Some (files_of s.slots.items) };

    ghost lent = { λ s. lent_of s.slots.items };

    ghost faults = { λ s. s.schedule.faults + s.brought };

    ghost schedule = { λ s. coming s.schedule };

    fn list(&mut self, alloc: Global) -> Result<Vec<FileName>, FileError> {
        if self.schedule.next() {
            return Err(FileError::Failed);
        }
        self.listed(alloc).map_err(|_| FileError::Memory)
    }

    fn lend(&mut self, alloc: Global, block: BlockId) -> Result<MemDrawer, FileError> {
        let schedule = self.schedule.renewed(alloc).map_err(|_| FileError::Memory)?;
        let place = self.slot(alloc, block)?;
        let slot = &mut self.slots[place];
        let table = mem::replace(&mut slot.table, FileTable::new(alloc));
        slot.lent = true;
        Ok(MemDrawer { table, schedule })
    }

    fn give_back(&mut self, block: BlockId, drawer: MemDrawer) {
        let MemDrawer {
            mut table,
            schedule,
        } = drawer;
        table.keep_block(block);
        let Some(place) = self.find(block) else {
            unreachable!();
        };
        let slot = &mut self.slots[place];
        slot.table = table;
        slot.lent = false;
        self.brought = self.brought.saturating_add(schedule.faults);
    }
}
