//! Laws of block recoveries in the world. Each function's clause is a law; it does nothing.

ghost use Rattle.recovery_events.specs.Drawn.{RecoveriesMake};
ghost use Rattle.recovery_events.specs.Sending.{RecoveriesSend};
ghost use Rattle.recovery_events.specs.Orders.{RecoveriesComeInOrder, RecoveriesNameOneBlock};

use world_orders::messages_come_in_order;
use world_recoveries::recoveries_fit;

/// Where a lower end takes a request of a recovery, the world becomes that of its answer, or of its failed call on
/// files; where an end that answers a primary takes anything else, that of its end.
pub fn recoveries_make()
    ensures { RecoveriesMake }
{}

/// What the answer to a request of a recovery sends is what the lower end flushes.
pub fn recoveries_send()
    ensures { RecoveriesSend }
{}

/// After every list of events an end that answers a primary takes a request of a recovery next, or the end.
pub fn recoveries_come_in_order()
    ensures { RecoveriesComeInOrder }
{
    messages_come_in_order();
}

/// After every list of events a request of a recovery that stands next on a connection names the block that the first
/// one there names.
pub fn recoveries_name_one_block()
    ensures { RecoveriesNameOneBlock }
{
    recoveries_fit();
}
