//! Roads whose connections can be cut, as a trait.

ghost use Rattle.std.specs.Prelude.{◌≡◌, OnOk, OnErr, option_map};
ghost use Rattle.hd_base.specs.Ends.{IsKnown, KeepsConnections};
ghost use Rattle.fault_ports.specs.Cuts.{with_cut};

use hd_base::{ConnId, Roads};
use std::alloc::AllocError;

/// Roads whose connections can be cut.
pub trait CutRoads: Roads {
    /// Ends a connection that was dialled on these roads behind so many of the pieces in flight
    /// down, and up. What is sent on it later is lost.
    fn cut(&mut self, conn: ConnId, down: u64, up: u64) -> Result<(), AllocError>
        requires { IsKnown (Self.plain self.old) conn.0 }
        ensures cut { OnOk result (Self.plain self.new ≡ option_map (λ p. with_cut p conn.0 down up) (Self.plain self.old)) }
        ensures err { OnErr result (Self.plain self.new ≡ Self.plain self.old) }
        ensures connections { KeepsConnections (Self.plain self.old) (Self.plain self.new) }
        ensures carried { Self.carried self.new ≡ Self.carried self.old }
        ensures risen { Self.risen self.new ≡ Self.risen self.old }
        ensures faults { Self.faults self.new ≡ Self.faults self.old };
}
