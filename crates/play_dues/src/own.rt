//! Which writers have an own step.

ghost use Rattle.std.specs.Prelude.{◌≡◌, length, slice_get};
ghost use Rattle.play_dues.specs.Own.{own_listed, OwnIsTold};

use hd_base::{LinkIn, LinkOut};
use play_clients::Client;
use play_model::Due;

/// How many writers have an own step.
pub fn count_own<I: LinkIn, O: LinkOut>(clients: &[Client<I, O>]) -> usize
    ensures { result ≡ length (own_listed clients.now) }
{
    let mut count = 0;
    for client in clients {
        if client.has_step() {
            count += 1;
        }
    }
    count
}

/// The own step with this number.
pub fn pick_own<I: LinkIn, O: LinkOut>(clients: &[Client<I, O>], number: u128) -> Option<Due>
    ensures { result ≡ slice_get (own_listed clients.now) number }
{
    let mut rest = number;
    for client in clients {
        if client.has_step() {
            if rest == 0 {
                return Some(Due::Own {
                    block: client.block,
                });
            }
            rest -= 1;
        }
    }
    None
}

/// The own steps that clients tell, which show a world, are those that are due there.
pub fn own_steps_are_told<I: LinkIn, O: LinkOut>()
    ensures { OwnIsTold I.LinkIn O.LinkOut }
{}
