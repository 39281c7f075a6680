//! Laws of what the events of nodes that serve reads make of the world.

ghost use Rattle.serving_events.specs.Drawn.{RequestsMake, PacketsMake, EndsMake, ReadsSend};

/// Where an end that has taken nothing yet takes a request to read, the world becomes that of its answer; where the call
/// on the replica's files fails, that of a replica that broke.
pub fn requests_make()
    ensures { RequestsMake }
{}

/// Where a node that serves a read acts without a message, the world becomes that of the next packet, or of an early end;
/// where the call on the replica's files fails, that of a replica that broke.
pub fn packets_make()
    ensures { PacketsMake }
{}

/// Where the end of a read that is served takes what stands next, the world becomes that in which it has ended.
pub fn ends_make()
    ensures { EndsMake }
{}

/// What these changes of the world send and shut is what the lower end flushes.
pub fn reads_send()
    ensures { ReadsSend }
{}
