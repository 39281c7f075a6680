//! Laws of members.

ghost use Rattle.member_core.specs.Laws.{SuccessFromBelow, SuccessAtTheEnd, RefusedIsSilent};

/// A member sends an ack with SUCCESS alone only where its mirror hasn't ended, or where it has none; and it has booked
/// the packet as acked by all.
pub fn success_is_booked()
    ensures from_below { SuccessFromBelow }
    ensures at_the_end { SuccessAtTheEnd }
{}

/// A member sends nothing, up or down, of what the book has refused, or in which a call on files failed.
pub fn refused_is_silent()
    ensures { RefusedIsSilent }
{}
