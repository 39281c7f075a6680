//! Which readers have an own step, and where their clients stand.

ghost use Rattle.std.specs.Prelude.{◌≡◌, length, slice_get};
ghost use Rattle.play_dues.specs.Readers.{
  read_client_place,
  readers_listed,
  is_new_at,
  ReadersAreTold,
};

use hd_base::{LinkIn, LinkOut};
use play_model::Due;
use play_reads::ReadClient;

/// The place of the client of a reader, if it has one.
pub fn read_client_of<I: LinkIn, O: LinkOut>(
    clients: &[ReadClient<I, O>],
    reader: u64,
) -> Option<usize>
    ensures { result ≡ read_client_place clients.now reader }
{
    clients
        .iter()
        .position(|client| client.ask.reader == reader)
}

/// Whether a reader has an own step; it has none where it has no client.
pub fn begins<I: LinkIn, O: LinkOut>(clients: &[ReadClient<I, O>], reader: u64) -> bool
    ensures { result ≡ is_new_at clients.now (read_client_place clients.now reader) }
{
    let Some(place) = read_client_of(clients, reader) else {
        return false;
    };
    clients[place].has_step()
}

/// How many readers have an own step.
pub fn count_readers<I: LinkIn, O: LinkOut>(clients: &[ReadClient<I, O>]) -> usize
    ensures { result ≡ length (readers_listed clients.now) }
{
    let mut count = 0;
    for client in clients {
        if client.has_step() {
            count += 1;
        }
    }
    count
}

/// The own step with this number.
pub fn pick_reader<I: LinkIn, O: LinkOut>(clients: &[ReadClient<I, O>], number: u128) -> Option<Due>
    ensures { result ≡ slice_get (readers_listed clients.now) number }
{
    let mut rest = number;
    for client in clients {
        if client.has_step() {
            if rest == 0 {
                return Some(Due::Reader { ask: client.ask });
            }
            rest -= 1;
        }
    }
    None
}

/// The own steps that clients tell, which show a world, are those that are due there.
pub fn readers_are_told<I: LinkIn, O: LinkOut>()
    ensures { ReadersAreTold I.LinkIn O.LinkOut }
{}
