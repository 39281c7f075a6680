//! Where clients and servers stand among those of a play.

ghost use Rattle.play_recoveries.specs.Places.{IsClientPlace, IsServerPlace};

use hd_base::{ConnId, LinkIn, LinkOut};
use play_primaries::PrimaryClient;
use play_servers::RecoveryServer;

/// The place of the client of a primary, if it has one, among clients in the order of their primaries' numbers.
pub(crate) fn client_of<I: LinkIn, O: LinkOut>(
    clients: &[PrimaryClient<I, O>],
    primary: u64,
) -> Option<usize>
    ensures { IsClientPlace clients.now primary result }
{
    clients
        .binary_search_by_key(&primary, |client| client.recovery.primary)
        .ok()
}

/// The place of the lower end of a connection, if a primary dialled it, among those in the order of their connections.
pub(crate) fn server_of<I: LinkIn, O: LinkOut>(
    servers: &[RecoveryServer<I, O>],
    conn: ConnId,
) -> Option<usize>
    ensures { IsServerPlace servers.now conn.0 result }
{
    servers
        .binary_search_by_key(&conn.0, |server| server.conn.0)
        .ok()
}
