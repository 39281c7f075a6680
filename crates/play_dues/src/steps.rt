//! Which writers, readers and primaries have an own step.

ghost use Rattle.std.specs.Prelude.{◌≡◌, ◌<◌, ◌^◌, length, slice_get};
ghost use Rattle.play_dues.specs.Steps.{steps_listed};

use crate::own::{count_own, pick_own};
use crate::primaries::{count_primaries, pick_primary};
use crate::readers::{count_readers, pick_reader};
use hd_base::{LinkIn, LinkOut};
use play_clients::Client;
use play_model::Due;
use play_reads::Reads;
use play_recoveries::Recoveries;

/// How many writers, readers and primaries have an own step.
pub(crate) fn count_steps<I: LinkIn, O: LinkOut>(
    clients: &[Client<I, O>],
    reads: &Reads<I, O>,
    recoveries: &Recoveries<I, O>,
) -> u128
    ensures counts { result ≡ length (steps_listed clients.now reads.now recoveries.now) }
    ensures few { result < 2 ^ 66 }
{
    let own = count_own(clients) as u128;
    let reading = count_readers(reads.clients.as_slice()) as u128;
    own + reading + count_primaries(recoveries.clients.as_slice()) as u128
}

/// The own step with this number.
pub(crate) fn pick_step<I: LinkIn, O: LinkOut>(
    clients: &[Client<I, O>],
    reads: &Reads<I, O>,
    recoveries: &Recoveries<I, O>,
    number: u128,
) -> Option<Due>
    ensures { result ≡ slice_get (steps_listed clients.now reads.now recoveries.now) number }
{
    let own = count_own(clients) as u128;
    if number < own {
        return pick_own(clients, number);
    }
    let rest = number - own;
    let reading = count_readers(reads.clients.as_slice()) as u128;
    if rest < reading {
        return pick_reader(reads.clients.as_slice(), rest);
    }
    pick_primary(recoveries.clients.as_slice(), rest - reading)
}
