//! What stands next on the roads' connections, and on those of a world that they show.
#![tactic(auto)]

ghost use Rattle.std.specs.Prelude.{◌≡◌};
ghost use Rattle.world_standings.specs.Standings.{stands, StandingsAgree};

use hd_base::Standing;

/// Whether something stands next: a piece, or the end.
pub fn stands(next: Standing) -> bool
    ensures { result ≡ stands next }
{
    match next {
        Standing::Nothing => false,
        Standing::Piece | Standing::End => true,
    }
}

/// On a direction of which the end was taken neither on the roads nor in the world, the same stands next on both.
pub fn standings_agree()
    ensures { StandingsAgree }
{}

pub use world_nets::{ends_elsewhere_stay, idle_flushes_are_nets, nets_carry, nets_stay_sane};
