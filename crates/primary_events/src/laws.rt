//! Laws of the primaries of a world.

ghost use Rattle.primary_events.specs.Hearing.{PrimariesCanHear};
ghost use Rattle.primary_events.specs.Leading.{PrimariesCanLead};

/// A primary that listens to a member can hear whatever stands next on their connection, in a world as it is after all
/// events.
pub fn primaries_can_hear()
    ensures { PrimariesCanHear }
{}

/// A primary that leads, and for which no answer of the office waits, can do its own step, in a world as it is after
/// all events.
pub fn primaries_can_lead()
    ensures { PrimariesCanLead }
{}
