//! What the events of others leave of the recoveries of a play. The functions have empty bodies, but for what they
//! call; their clauses say what holds of every world.

ghost use Rattle.play_recoveries.specs.Dues.{NoneReady};
ghost use Rattle.play_recoveries.specs.Keeping.{
  RequestsStay,
  RecoveriesStay,
  CutsKeepRecoveries,
  StartsKeepRecoveries,
};

use hd_base::{LinkIn, LinkOut};
use play_primaries::{cuts_are_losses, ends_stay_in_cuts, primary_clients_stay};
use play_servers::answers_wait;

/// Whatever happens, the first request that was sent down on a connection stays, and what is shut stays so.
pub fn requests_stay()
    ensures { RequestsStay }
{}

/// Recoveries that show a world show the world after an event that keeps what they show.
pub fn recoveries_stay<I: LinkIn, O: LinkOut>()
    ensures { RecoveriesStay I.LinkIn O.LinkOut }
{
    primary_clients_stay::<I, O>();
}

/// So they do after a cut.
pub fn cuts_keep_recoveries<I: LinkIn, O: LinkOut>()
    ensures { CutsKeepRecoveries I.LinkIn O.LinkOut }
{
    primary_clients_stay::<I, O>();
    cuts_are_losses();
    ends_stay_in_cuts::<I, O>();
}

/// So they do after the start of a node that didn't run: nothing was dialled to it in the life in which it runs then,
/// and no primary leads there.
pub fn starts_keep_recoveries<I: LinkIn, O: LinkOut>()
    ensures { StartsKeepRecoveries I.LinkIn O.LinkOut }
{
    primary_clients_stay::<I, O>();
}

/// A lower end that a primary dialled does nothing without a message.
pub fn none_is_ready<I: LinkIn, O: LinkOut>()
    ensures { NoneReady I.LinkIn O.LinkOut }
{
    answers_wait::<I, O>();
}
