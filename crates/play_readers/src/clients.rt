//! The reading client of a line.

ghost use Rattle.std.specs.Prelude.{◌≡◌};
ghost use Rattle.reader_events.specs.MemberEvents.Roads.{RoadsPass};
ghost use Rattle.play_readers.specs.Clients.{is_new, conn_of, reads_over};
ghost use Rattle.play_readers.specs.Dues.{TellsStep, TellsBegins, TellsConn, TellsReader};

use hd_base::{ConnId, LinkIn, LinkOut, Roads, Standing};
use play_model::ReadAsk;
use reader_events::{ReadFault, Reading};
use road_traffic::standing;

/// The reading client of a line of a play.
#[derive(Drop)]
pub struct ReadClient<I, O> {
    /// What the line asks.
    pub ask: ReadAsk,
    /// How far the client is.
    pub state: ReadState<I, O>,
}

/// How far a reading client is.
#[derive(Drop)]
pub enum ReadState<I, O> {
    /// It hasn't asked its node yet.
    Asks,
    /// Its read goes on, over this connection.
    Reads(Reading<I, O>),
    /// It has its result: the bytes, or why the read failed.
    HasRead(Result<Vec<u8>, ReadFault>),
}

impl<I: LinkIn, O: LinkOut> ReadClient<I, O> {
    /// The client of a line, which hasn't asked yet.
    pub fn new(ask: ReadAsk) -> ReadClient<I, O>
        ensures { result ≡ record { ask = ask; state = ReadState.Asks } }
    {
        ReadClient {
            ask,
            state: ReadState::Asks,
        }
    }

    /// Whether the reader has an own step: it has one, in which it asks its node.
    pub fn has_step(&self) -> bool
        ensures value { result ≡ is_new self.now.state }
        ensures tells { TellsStep I.LinkIn O.LinkOut self.now result }
        ensures begins { TellsBegins I.LinkIn O.LinkOut self.now result }
    {
        matches!(self.state, ReadState::Asks)
    }

    /// The connection over which it reads, while its read goes on.
    pub fn conn(&self) -> Option<ConnId>
        ensures value { result ≡ conn_of self.now.state }
        ensures tells { TellsConn I.LinkIn O.LinkOut self.now result }
    {
        match &self.state {
            ReadState::Reads(reading) => Some(reading.conn()),
            ReadState::Asks | ReadState::HasRead(_) => None,
        }
    }

    /// Whether the reader takes what stands next on a connection.
    pub fn can_up<R: Roads<Inward = I, Outward = O>>(&self, roads: &mut R, conn: ConnId) -> bool
        ensures tells { TellsReader R.Roads I.LinkIn O.LinkOut conn self.now roads.old roads.new result }
        ensures pass { RoadsPass R.Roads roads.old roads.new }
    {
        match standing(roads, conn, false) {
            Standing::Nothing => false,
            Standing::Piece | Standing::End => self.reads_over(conn),
        }
    }

    /// Whether it reads over a connection.
    fn reads_over(&self, conn: ConnId) -> bool
        ensures { result ≡ reads_over self.now.state conn.0 }
    {
        match &self.state {
            ReadState::Reads(reading) => reading.conn().0 == conn.0,
            ReadState::Asks | ReadState::HasRead(_) => false,
        }
    }
}
