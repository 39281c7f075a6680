//! The blocks of a script.

ghost use Rattle.std.specs.Prelude.{◌≡◌, nat_lt, position, OnOk, IfOk};
ghost use Rattle.play_laws.specs.PlayModel.Lines.{placed};
ghost use Rattle.play_scripts.specs.Blocks.{numbers, AreBlocks};

use hd_base::BlockId;
use script_lang::{Instruction, ScriptLine};
use std::alloc::{AllocError, Global};

/// The blocks that the lines create, in ascending order. Of lines that fit no block stands twice.
pub fn blocks_of(alloc: Global, lines: &[ScriptLine]) -> Result<Vec<BlockId>, AllocError>
    ensures { IfOk result (λ blocks. AreBlocks lines.now blocks.items) }
{
    let mut blocks = Vec::new(alloc);
    for line in lines {
        if let Instruction::Create { block, .. } = &line.instruction {
            put(&mut blocks, *block)?;
        }
    }
    Ok(blocks)
}

/// A block is put among others in ascending order.
fn put(blocks: &mut Vec<BlockId>, block: BlockId) -> Result<(), AllocError>
    ensures { OnOk result (numbers blocks.new.items ≡ placed block.0 (numbers blocks.old.items)) }
{
    let place = first_greater(blocks, block).unwrap_or(blocks.len());
    blocks.insert(place, block)?;
    Ok(())
}

/// The place of the first block that is greater.
fn first_greater(blocks: &[BlockId], block: BlockId) -> Option<usize>
    ensures { result ≡ position (λ other. nat_lt block.0 other.0) blocks.now }
{
    blocks.iter().position(|other| block.0 < other.0)
}
