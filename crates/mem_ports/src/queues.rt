//! One direction of a connection.

ghost use Rattle.std.specs.Prelude.{◌≡◌, OnOk, OnErr, if◌then◌else◌};
ghost use Rattle.hd_base.specs.Channels.{empty_channel, is_hungry, filled, extended_channel, closed_channel, standing_of};
ghost use Rattle.mem_ports.specs.Pieces.{pieces_of};
ghost use Rattle.mem_ports.specs.Ends.{held_by};
ghost use Rattle.mem_ports.specs.Duplexes.{channel_of, first_taken};

use crate::inward::MemIn;
use hd_base::Standing;
use std::alloc::{AllocError, Global};
use std::collections::VecDeque;
use std::sync::Arc;

/// Pieces that were flushed and not yet taken, and whether the end stands behind them.
#[derive(Debug, Drop)]
pub struct Queue {
    pub pieces: VecDeque<Arc<Vec<u8>>>,
    pub ended: bool,
}

impl Queue {
    /// Nothing stands.
    pub fn new(alloc: Global) -> Queue
        ensures { channel_of result ≡ empty_channel }
    {
        Queue {
            pieces: VecDeque::new(alloc),
            ended: false,
        }
    }

    /// Takes more pieces, and perhaps the end: behind the end all is lost.
    pub fn extend(
        &mut self,
        pieces: &mut VecDeque<Arc<Vec<u8>>>,
        shut: bool,
    ) -> Result<(), AllocError>
        ensures ok { OnOk result (
            channel_of self.new ≡ extended_channel (channel_of self.old) (pieces_of pieces.old.items) shut) }
        ensures err { OnErr result (channel_of self.new ≡ channel_of self.old) }
    {
        if !self.ended {
            self.pieces.append(pieces)?;
            self.ended = shut;
        }
        Ok(())
    }

    /// Ends behind what stands, where a shut was made.
    pub fn close(&mut self, shut: bool)
        ensures { channel_of self.new ≡ closed_channel (channel_of self.old) shut }
    {
        self.ended = self.ended || shut;
    }

    /// Gives what stands next to a half that holds nothing, and no end.
    pub fn feed(&mut self, half: &mut MemIn)
        ensures held { held_by half.new ≡ filled (held_by half.old) (channel_of self.old) }
        ensures channel { channel_of self.new
            ≡ (if is_hungry (held_by half.old) then first_taken (channel_of self.old) else channel_of self.old) }
        ensures shut { half.new.shut ≡ half.old.shut }
        ensures schedule { half.new.schedule ≡ half.old.schedule }
    {
        if !half.is_hungry() {
            return;
        }
        match self.pieces.pop_front() {
            Some(piece) => {
                half.piece = Some(piece);
                half.taken = 0;
            }
            None => half.ended = self.ended,
        }
    }

    /// What stands next.
    pub fn standing(&self) -> Standing
        ensures { result ≡ standing_of (channel_of self.now) }
    {
        if !self.pieces.is_empty() {
            Standing::Piece
        } else if self.ended {
            Standing::End
        } else {
            Standing::Nothing
        }
    }
}
