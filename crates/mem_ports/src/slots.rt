//! Where a shelf keeps the files of each block.

ghost use Rattle.std.specs.Prelude.{◌≡◌, ◌==◌, ◌<◌, true, length, IfSome, vec_len};
ghost use Rattle.std.specs.List.{position_from};
ghost use Rattle.mem_ports.specs.Entries.{all_of_block};

use crate::tables::FileTable;
use hd_base::BlockId;

/// The files of one block, and whether they are lent. Nothing stands here while they are.
#[derive(Debug, Drop)]
pub struct Slot {
    pub block: BlockId,
    pub lent: bool,
    pub table: FileTable,
    ghost own: { all_of_block block.0 table.entries.items ≡ true },
    ghost out: { lent ≡ true → vec_len table.entries ≡ 0 },
}

/// The place of a block's slot.
pub fn find_slot(slots: &[Slot], block: BlockId) -> Option<usize>
    ensures place { result ≡ position_from (λ s. s.block.0 == block.0) 0 slots.now }
    ensures within { IfSome result (λ i. i < length slots.now) }
{
    for (i, slot) in slots.iter().enumerate() {
        if slot.block == block {
            return Some(i);
        }
    }
    None
}
