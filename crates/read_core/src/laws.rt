//! The laws of reads.

ghost use Rattle.read_core.specs.Laws.{StaysVisible, VerifiedIsWhole};

/// No packet of a read goes past what was visible at its start.
pub fn reads_stay_visible()
    ensures { StaysVisible }
{}

/// Whatever the node sends, a read that is verified has as many bytes as were asked for.
pub fn verified_reads_are_whole()
    ensures { VerifiedIsWhole }
{}
