//! Where the clients of a play stand among the others.

ghost use Rattle.std.specs.Prelude.{◌≡◌};
ghost use Rattle.play_dues.specs.Places.{client_place, has_step_at};

use hd_base::{BlockId, LinkIn, LinkOut};
use play_clients::Client;

/// The place of the client of a block, if the block has one.
pub fn client_of<I: LinkIn, O: LinkOut>(clients: &[Client<I, O>], block: BlockId) -> Option<usize>
    ensures { result ≡ client_place clients.now block.0 }
{
    clients.iter().position(|client| client.block.0 == block.0)
}

/// Whether the writer of a block has an own step; it has none where the block has no client.
pub fn has_own<I: LinkIn, O: LinkOut>(clients: &[Client<I, O>], block: BlockId) -> bool
    ensures { result ≡ has_step_at clients.now (client_place clients.now block.0) }
{
    let Some(place) = client_of(clients, block) else {
        return false;
    };
    clients[place].has_step()
}
