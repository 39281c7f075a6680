//! The block pool.

ghost use Rattle.std.specs.Prelude.{◌≡◌};
ghost use Rattle.request_refusals.specs.Pools.{is_in_pool};

use op_headers::BlockRef;

/// The name of the one block pool.
const POOL: &[u8] = b"BP-1-127.0.0.1-1";

/// Whether a request names a block of the one block pool, for which every request is tried first.
#[tactic(auto, unfolding(crate::specs::Pools::is_in_pool))]
pub fn is_in_pool(block: &BlockRef) -> bool
    ensures { result ≡ is_in_pool block.now }
{
    block.pool.as_slice() == POOL
}
