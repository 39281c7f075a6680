//! The clients of a play that starts.

ghost use Rattle.std.specs.Prelude.{IfOk};
ghost use Rattle.play_opening.specs.Opening.{AreNewClients, IsNewClient};

use hd_base::{BlockId, LinkIn, LinkOut};
use play::Client;
use std::alloc::{AllocError, Global};

/// A new client.
fn new_client<I: LinkIn, O: LinkOut>(alloc: Global, block: BlockId) -> Client<I, O>
    ensures { IsNewClient block result }
{
    Client::new(alloc, block)
}

/// A new client for each block, in their order.
pub(crate) fn new_clients<I: LinkIn, O: LinkOut>(
    alloc: Global,
    blocks: &[BlockId],
) -> Result<Vec<Client<I, O>>, AllocError>
    ensures { IfOk result (λ clients. AreNewClients blocks.now clients.items) }
{
    let mut clients = Vec::new(alloc);
    for block in blocks {
        clients.push(new_client(alloc, *block))?;
    }
    Ok(clients)
}
