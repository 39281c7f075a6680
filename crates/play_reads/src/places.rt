//! Where clients and servers stand among those of a play.

ghost use Rattle.play_reads.specs.Places.{IsClientPlace, IsServerPlace};

use hd_base::{ConnId, LinkIn, LinkOut};
use play_primaries::ReadClient;
use play_servers::ReadServer;

/// The place of the client of a reader, if it has one, among clients in the order of their readers' numbers.
pub(crate) fn client_of<I: LinkIn, O: LinkOut>(
    clients: &[ReadClient<I, O>],
    reader: u64,
) -> Option<usize>
    ensures { IsClientPlace clients.now reader result }
{
    clients
        .binary_search_by_key(&reader, |client| client.ask.reader)
        .ok()
}

/// The place of the lower end of a connection, if a reader dialled it, among those in the order of their connections.
pub(crate) fn server_of<I: LinkIn, O: LinkOut>(
    servers: &[ReadServer<I, O>],
    conn: ConnId,
) -> Option<usize>
    ensures { IsServerPlace servers.now conn.0 result }
{
    servers
        .binary_search_by_key(&conn.0, |server| server.conn.0)
        .ok()
}
