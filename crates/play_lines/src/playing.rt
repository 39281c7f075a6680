//! A play so far.

use hd_base::Files;
use play_opening::{LiveConns, Player};
use rand_pcg::Lcg64Xsh32;

/// A play so far.
#[derive(Drop)]
pub struct Playing<F: Files, I, O> {
    /// How many nodes there are.
    pub nodes: u32,
    /// The nodes, the clients, the office, and what happened.
    pub player: Player<F, I, O>,
    /// Draws what happens next.
    pub generator: Lcg64Xsh32,
    /// By node which of the coming writes on a data file fails, 0 where none does.
    pub faults: Vec<u64>,
    /// The connections of which something may still be due: a draw asks no others.
    pub live: LiveConns,
}
