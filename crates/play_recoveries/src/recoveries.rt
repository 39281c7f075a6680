//! The recoveries of a play.

use play_primaries::PrimaryClient;
use play_servers::RecoveryServer;

/// The recoveries of a play: the primaries of its lines, and the lower ends of the connections that they dialled.
#[derive(Drop)]
pub struct Recoveries<I, O> {
    /// The primaries' clients, in the order of their lines: their primaries' numbers ascend.
    pub clients: Vec<PrimaryClient<I, O>>,
    /// The lower ends of their connections, in the order of the dials: the numbers of these ascend.
    pub servers: Vec<RecoveryServer<I, O>>,
}
