//! Which primaries have an own step, and where their clients stand.

ghost use Rattle.std.specs.Prelude.{◌≡◌, length, slice_get};
ghost use Rattle.play_dues.specs.Primaries.{
  primary_client_place,
  primaries_listed,
  acts_at,
  PrimariesAreTold,
};

use hd_base::{LinkIn, LinkOut};
use play_model::Due;
use play_reads::PrimaryClient;

/// The place of the client of a primary, if it has one.
pub fn primary_client_of<I: LinkIn, O: LinkOut>(
    clients: &[PrimaryClient<I, O>],
    primary: u64,
) -> Option<usize>
    ensures { result ≡ primary_client_place clients.now primary }
{
    clients
        .iter()
        .position(|client| client.recovery.primary == primary)
}

/// Whether a primary has an own step; it has none where it has no client.
pub fn acts<I: LinkIn, O: LinkOut>(clients: &[PrimaryClient<I, O>], primary: u64) -> bool
    ensures { result ≡ acts_at clients.now (primary_client_place clients.now primary) }
{
    let Some(place) = primary_client_of(clients, primary) else {
        return false;
    };
    clients[place].has_step()
}

/// How many primaries have an own step.
pub fn count_primaries<I: LinkIn, O: LinkOut>(clients: &[PrimaryClient<I, O>]) -> usize
    ensures { result ≡ length (primaries_listed clients.now) }
{
    let mut count = 0;
    for client in clients {
        if client.has_step() {
            count += 1;
        }
    }
    count
}

/// The own step with this number.
pub fn pick_primary<I: LinkIn, O: LinkOut>(
    clients: &[PrimaryClient<I, O>],
    number: u128,
) -> Option<Due>
    ensures { result ≡ slice_get (primaries_listed clients.now) number }
{
    let mut rest = number;
    for client in clients {
        if client.has_step() {
            if rest == 0 {
                return Some(Due::Primary {
                    recovery: client.recovery.duplicate(),
                });
            }
            rest -= 1;
        }
    }
    None
}

/// The own steps that clients tell, which show a world, are those that are due there.
pub fn primaries_are_told<I: LinkIn, O: LinkOut>()
    ensures { PrimariesAreTold I.LinkIn O.LinkOut }
{}
