//! What is due in a play, counted and picked by number.

ghost use Rattle.std.specs.Prelude.{◌≡◌, false};
ghost use Rattle.play_clients.specs.MemberEvents.Roads.{RoadsPass};
ghost use Rattle.play_dues.specs.Listing.{DuesAreListed, TellsDue, IsAlone, CountsDues, PicksDue};

use crate::conns::{dues_of, upper_takes};
use crate::lowers::{lower_acts, lower_takes};
use crate::places::has_own;
use crate::primaries::acts;
use crate::readers::begins;
use crate::steps::{count_steps, pick_step};
use hd_base::{ConnId, Files, LinkIn, LinkOut, Roads};
use play_clients::Client;
use play_model::Due;
use play_reads::{Nodes, Reads};
use play_recoveries::Recoveries;

/// Whether this is due. An own step of a block, of a reader or of a primary that has no client isn't.
pub fn is_due<F: Files, I: LinkIn, O: LinkOut, R: Roads<Inward = I, Outward = O>>(
    nodes: &Nodes<F, I, O>,
    clients: &[Client<I, O>],
    reads: &Reads<I, O>,
    recoveries: &Recoveries<I, O>,
    roads: &mut R,
    due: Due,
) -> bool
    ensures tells { TellsDue R.Roads I.LinkIn O.LinkOut due
        nodes.now clients.now reads.now recoveries.now roads.old roads.new result }
    ensures alone { IsAlone clients.now reads.now recoveries.now due → result ≡ false }
    ensures pass { RoadsPass R.Roads roads.old roads.new }
{
    match due {
        Due::Own { block } => has_own(clients, block),
        Due::Reader { ask } => begins(reads.clients.as_slice(), ask.reader),
        Due::Primary { recovery } => acts(recoveries.clients.as_slice(), recovery.primary),
        Due::Down { conn } => lower_takes(nodes, reads, recoveries, roads, conn),
        Due::Ready { conn } => lower_acts(nodes, reads, recoveries, conn),
        Due::Up { conn } => upper_takes(nodes, clients, reads, recoveries, roads, conn),
    }
}

/// How many things are due of the writers, of the readers, of the primaries and of these connections. Three of a
/// connection may be, so that a `usize` may not hold the count.
pub fn count_dues<F: Files, I: LinkIn, O: LinkOut, R: Roads<Inward = I, Outward = O>>(
    nodes: &Nodes<F, I, O>,
    clients: &[Client<I, O>],
    reads: &Reads<I, O>,
    recoveries: &Recoveries<I, O>,
    conns: &[ConnId],
    roads: &mut R,
) -> u128
    ensures counts { CountsDues R.Roads I.LinkIn O.LinkOut conns.now
        nodes.now clients.now reads.now recoveries.now roads.old roads.new result }
    ensures pass { RoadsPass R.Roads roads.old roads.new }
{
    let mut count = count_steps(clients, reads, recoveries);
    for conn in conns {
        let due = dues_of(nodes, clients, reads, recoveries, roads, *conn);
        count += due.count(*conn) as u128;
    }
    count
}

/// The thing with this number, of all that are due of the writers, of the readers, of the primaries and of these
/// connections.
pub fn pick_dues<F: Files, I: LinkIn, O: LinkOut, R: Roads<Inward = I, Outward = O>>(
    nodes: &Nodes<F, I, O>,
    clients: &[Client<I, O>],
    reads: &Reads<I, O>,
    recoveries: &Recoveries<I, O>,
    conns: &[ConnId],
    roads: &mut R,
    number: u128,
) -> Option<Due>
    ensures picks { PicksDue R.Roads I.LinkIn O.LinkOut number conns.now
        nodes.now clients.now reads.now recoveries.now roads.old roads.new result }
    ensures pass { RoadsPass R.Roads roads.old roads.new }
{
    let steps = count_steps(clients, reads, recoveries);
    if number < steps {
        return pick_step(clients, reads, recoveries, number);
    }
    let mut rest = number - steps;
    for conn in conns {
        let due = dues_of(nodes, clients, reads, recoveries, roads, *conn);
        let count = due.count(*conn) as u128;
        if rest < count {
            return due.pick(*conn, rest as usize);
        }
        rest -= count;
    }
    None
}

/// What is due in a play is what is due in its world, with its queues, its asks and its recoveries.
pub fn dues_are_listed()
    ensures { DuesAreListed }
{}
