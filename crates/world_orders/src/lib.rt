//! In which order messages come on the connections of the world, and who hasn't taken a connection's end. Each function
//! has an empty body; its clauses say what holds after every list of events.
#![tactic(auto)]

ghost use Rattle.world_orders.specs.Open.{AllOpen};
ghost use Rattle.world_orders.specs.Orders.{AllOrdered};
ghost use Rattle.world_orders.specs.Takes.{AllTakeInOrder};

/// On each connection the messages come in one order: of a pipeline the request and then packets, and upwards the answer
/// and then acks. An end that has taken nothing is at the first of them, and a member or a writer that streams past it.
pub fn messages_come_in_order()
    ensures { AllOrdered }
{}

/// Whoever takes a message knows its kind: an end that has taken nothing gets the request, a member packets, and a member
/// of its mirror, or a writer, the answer to its request and then acks.
pub fn messages_are_taken_in_order()
    ensures { AllTakeInOrder }
{}

/// Whoever may still take from a connection hasn't taken its end: a lower end that hasn't ended, a member whose receiver
/// acts, a member that hears its mirror, and a writer of the connection that it has.
pub fn takers_are_open()
    ensures { AllOpen }
{}
