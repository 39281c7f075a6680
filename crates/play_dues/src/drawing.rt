//! The draw of what happens next.

ghost use Rattle.play_clients.specs.MemberEvents.Roads.{RoadsPass};
ghost use Rattle.play_dues.specs.Drawing.{DrawsDue, PlaysAreDrawn, PlaysEnd};

use crate::listing::{count_dues, pick_dues};
use crate::live::LiveConns;
use hd_base::{Files, LinkIn, LinkOut, Roads};
use play_clients::Client;
use play_model::Due;
use play_reads::{Nodes, Reads};
use play_recoveries::Recoveries;
use rand_core::utils::NextWord;
use rand_pcg::Pcg32;

/// What the generator's next word draws of all that is due, where the list of live connections is up to date. Where
/// nothing is due, no word is taken.
pub fn draw_due<F: Files, I: LinkIn, O: LinkOut, R: Roads<Inward = I, Outward = O>>(
    nodes: &Nodes<F, I, O>,
    clients: &[Client<I, O>],
    reads: &Reads<I, O>,
    recoveries: &Recoveries<I, O>,
    live: &LiveConns,
    roads: &mut R,
    generator: &mut Pcg32,
) -> Option<Due>
    ensures draws { DrawsDue R.Roads I.LinkIn O.LinkOut live.now
        nodes.now clients.now reads.now recoveries.now roads.old roads.new generator.old generator.new result }
    ensures pass { RoadsPass R.Roads roads.old roads.new }
{
    let conns = live.conns.as_slice();
    let count = count_dues(nodes, clients, reads, recoveries, conns, roads);
    if count == 0 {
        return None;
    }
    let word = generator.next_word();
    pick_dues(
        nodes,
        clients,
        reads,
        recoveries,
        conns,
        roads,
        word as u128 % count,
    )
}

/// What is drawn of what is due in a play is what happens in its next draw, and nothing is drawn only where nothing is
/// due.
pub fn plays_are_drawn()
    ensures draws { PlaysAreDrawn }
    ensures end { PlaysEnd }
{}
