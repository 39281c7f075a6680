//! The connection of a block's writer.

use hd_base::Conn;
use pipe_recovery::{Incoming, Rebuild};

/// The connection of a block's writer.
#[derive(Drop)]
pub enum Pipe<I, O> {
    /// There is none.
    Closed,
    /// A pipeline is being set up.
    SettingUp(Rebuild<I, O>),
    /// The pipeline stands.
    Streaming {
        /// The upper end of the connection.
        end: Conn<I, O>,
        /// What was received on it and not yet taken.
        incoming: Incoming,
    },
}
