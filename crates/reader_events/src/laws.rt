//! Laws of the readers of a world.

ghost use Rattle.reader_events.specs.Hearing.{ReadersCanHear};
ghost use Rattle.reader_events.specs.Making.{ReadersMake, ReadersSend};
ghost use Rattle.reader_events.specs.Orders.{AllReadersTakeInOrder};

/// What the events of a reader make of the world: its own step, and what it takes from its connection.
pub fn readers_make()
    ensures { ReadersMake }
{}

/// What a reader sends and shuts is what its end flushes, or its request where it dials.
pub fn readers_send()
    ensures { ReadersSend }
{}

/// A reader that reads over a connection has dialled it, and has taken something from it just where it has its answer;
/// and it hasn't taken the end. So the answer comes next to it, and behind that a packet, or the end.
pub fn readers_take_in_order()
    ensures { AllReadersTakeInOrder }
{}

/// So a reader that reads can hear whatever stands next on its connection, where it is spelled as it is written.
pub fn readers_can_hear()
    ensures { ReadersCanHear }
{}
