//! The reads of a play.

use play_primaries::ReadClient;
use play_servers::ReadServer;

/// The reads of a play: the reading clients of its lines, and the lower ends of the connections that they dialled.
#[derive(Drop)]
pub struct Reads<I, O> {
    /// The reading clients, in the order of their lines: their readers' numbers ascend.
    pub clients: Vec<ReadClient<I, O>>,
    /// The lower ends of their connections, in the order of the dials: the numbers of these ascend.
    pub servers: Vec<ReadServer<I, O>>,
}
