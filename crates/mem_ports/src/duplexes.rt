//! Connections, each with its two directions.

ghost use Rattle.std.specs.Prelude.{◌≡◌, Bool, OnOk, OnErr};
ghost use Rattle.hd_base.specs.Channels.{empty_channel, is_hungry, filled, standing_of};
ghost use Rattle.mem_ports.specs.Pieces.{pieces_of};
ghost use Rattle.mem_ports.specs.Ends.{held_by};
ghost use Rattle.mem_ports.specs.Duplexes.{channel_at, after_send, after_offer};

use crate::inward::MemIn;
use crate::queues::Queue;
use hd_base::Standing;
use std::alloc::{AllocError, Global};
use std::collections::VecDeque;
use std::sync::Arc;

/// The two directions of a connection.
#[derive(Debug, Drop)]
pub struct DuplexChannel {
    pub down: Queue,
    pub up: Queue,
}

impl DuplexChannel {
    /// Nothing stands on either direction.
    pub fn new(alloc: Global) -> DuplexChannel
        ensures { (d : Bool) → channel_at result d ≡ empty_channel }
    {
        DuplexChannel {
            down: Queue::new(alloc),
            up: Queue::new(alloc),
        }
    }

    /// Takes an end's pieces on its direction, and perhaps a shut, which ends both.
    pub fn give(
        &mut self,
        down: bool,
        pieces: &mut VecDeque<Arc<Vec<u8>>>,
        shut: bool,
    ) -> Result<(), AllocError>
        ensures ok { OnOk result ((d : Bool) →
            channel_at self.new d ≡ after_send (channel_at self.old) down (pieces_of pieces.old.items) shut d) }
        ensures err { OnErr result ((d : Bool) → channel_at self.new d ≡ channel_at self.old d) }
    {
        if down {
            self.down.extend(pieces, shut)?;
            self.up.close(shut);
        } else {
            self.up.extend(pieces, shut)?;
            self.down.close(shut);
        }
        Ok(())
    }

    /// Gives what stands next on a direction to a half that holds nothing, and no end.
    pub fn feed(&mut self, down: bool, half: &mut MemIn)
        ensures held { held_by half.new ≡ filled (held_by half.old) (channel_at self.old down) }
        ensures channels { (d : Bool) →
            channel_at self.new d ≡ after_offer (channel_at self.old) down (is_hungry (held_by half.old)) d }
        ensures shut { half.new.shut ≡ half.old.shut }
        ensures schedule { half.new.schedule ≡ half.old.schedule }
    {
        if down {
            self.down.feed(half);
        } else {
            self.up.feed(half);
        }
    }

    /// What stands next on a direction.
    pub fn standing(&self, down: bool) -> Standing
        ensures { result ≡ standing_of (channel_at self.now down) }
    {
        if down {
            self.down.standing()
        } else {
            self.up.standing()
        }
    }
}
