//! Whether the writers of a play take what stands next on their connections.

ghost use Rattle.std.specs.Prelude.{◌≡◌};
ghost use Rattle.world.specs.Connections.{is_conn};
ghost use Rattle.play_clients.specs.MemberEvents.Roads.{RoadsPass};
ghost use Rattle.play_dues.specs.Writers.{conn_of, TellsWriter};

use hd_base::{ConnId, LinkIn, LinkOut, Roads, Standing};
use play_clients::{Client, Pipe};
use road_traffic::standing;

/// Whether the writer of a client takes what stands next on a connection.
pub fn can_up<I: LinkIn, O: LinkOut, R: Roads<Inward = I, Outward = O>>(
    client: &Client<I, O>,
    roads: &mut R,
    conn: ConnId,
) -> bool
    ensures tells { TellsWriter R.Roads I.LinkIn O.LinkOut conn client.now roads.old roads.new result }
    ensures pass { RoadsPass R.Roads roads.old roads.new }
{
    match standing(roads, conn, false) {
        Standing::Nothing => false,
        Standing::Piece | Standing::End => has_conn(client, conn),
    }
}

/// Whether the writer of a client has this connection.
pub(crate) fn has_conn<I: LinkIn, O: LinkOut>(client: &Client<I, O>, conn: ConnId) -> bool
    ensures { result ≡ is_conn (conn_of client.now.pipe) conn.0 }
{
    match &client.pipe {
        Pipe::Closed => false,
        Pipe::SettingUp(setup) => match setup.conn() {
            Some(known) => conn.0 == known.0,
            None => false,
        },
        Pipe::Streaming { end, .. } => conn.0 == end.id.0,
    }
}
