//! Dials that wait.

ghost use Rattle.std.specs.Prelude.{◌≡◌, ◌==◌, ◌<◌, length, IfSome};
ghost use Rattle.std.specs.List.{position_from};

use hd_base::ConnId;

/// A dial that nobody has accepted yet.
#[derive(Clone, Copy, Debug)]
pub struct Dial {
    pub port: u16,
    pub conn: ConnId,
}

/// The place of the oldest dial at a port.
pub fn find_dial(dials: &[Dial], port: u16) -> Option<usize>
    ensures place { result ≡ position_from (λ d. d.port == port) 0 dials.now }
    ensures within { IfSome result (λ i. i < length dials.now) }
{
    for (i, dial) in dials.iter().enumerate() {
        if dial.port == port {
            return Some(i);
        }
    }
    None
}
